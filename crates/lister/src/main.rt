//! Prints the listing of the executable on standard input, or `refused N` where its bytes are refused.

#![tactic(auto)]

mod program;
#[cfg(test)]
mod tests;

use program::run;
use std::process::ExitCode;

fn main(rt: HostRuntime) -> ExitCode {
    match run(rt.alloc(), &mut rt.stdin(), &mut rt.stdout()) {
        Ok(()) => ExitCode::SUCCESS,
        Err(_) => ExitCode::FAILURE,
    }
}
