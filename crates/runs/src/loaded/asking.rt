//! Calls of a machine.

ghost use Rattle.std.specs.Prelude.{◌≡◌, ◌+◌, ◌-◌, ◌≤◌, length, min};
ghost use Rattle.permit.specs.Rights.{rights_of};
ghost use Rattle.runs.specs.Machines.{machine_of};
ghost use Rattle.runs.specs.Requests.{answered, made, seen, told};
ghost use Rattle.runs.specs.Runs.{held};

use crate::loaded::Machine;
use crate::refusal::CallRefusal;
use crate::report::Report;
use crate::request::{Answer, Call, Memory, Part, Request};
use crate::settings::Settings;
use host::host::Host;
use permit::permit::Permit;

/// What a run answers.
fn told(answer: Result<Report, CallRefusal>) -> Answer
    ensures { result ≡ told answer }
{
    match answer {
        Ok(report) => Answer::Ran(report),
        Err(refusal) => Answer::Refused(refusal),
    }
}

/// What a look answers.
fn seen(answer: Result<u32, CallRefusal>) -> Answer
    ensures { result ≡ seen answer }
{
    match answer {
        Ok(value) => Answer::Saw(value),
        Err(refusal) => Answer::Refused(refusal),
    }
}

impl Part {
    /// Where the part begins and ends in a memory of some size.
    fn bounds(self, size: usize) -> (usize, usize)
        ensures start { result.0 ≡ min self.start size }
        ensures end { result.1 ≡ result.0 + min self.len (size - result.0) }
    {
        let start = self.start.min(size);
        (start, start + self.len.min(size - start))
    }
}

impl Machine {
    /// Makes a call with the memory that is handed in.
    fn make<H: Host>(
        &mut self,
        permit: &Permit,
        call: Call,
        cells: &mut [u32],
        host: &mut H,
    ) -> Answer
        ensures answer { let before = held (machine_of self.old) cells.old (H.meaning host.old) in
            result ≡ (made (rights_of permit.now) call before).answer }
        ensures after { let before = held (machine_of self.old) cells.old (H.meaning host.old) in
            let after = held (machine_of self.new) cells.new (H.meaning host.new) in
            after ≡ (made (rights_of permit.now) call before).held }
        ensures lender { H.roots host.new ≡ H.roots host.old }
    {
        match call {
            Call::Run(budget) => told(self.run(&Settings { permit, budget }, cells, host)),
            Call::Register(number) => seen(self.register(number)),
            Call::Flags => Answer::Saw(u32::from(self.flags())),
            Call::Cell(number) => seen(self.cell(cells, number)),
        }
    }

    /// Answers a request under a permit, with the machine's own memory or with a part of another one that stands
    /// ready.
    pub fn answer<H: Host>(
        &mut self,
        permit: &Permit,
        request: Request,
        cells: &mut [u32],
        host: &mut H,
        other: &mut [u32],
    ) -> Answer
        ensures answer { let before = held (machine_of self.old) cells.old (H.meaning host.old) in
            result ≡ (answered (rights_of permit.now) request before other.old).answer }
        ensures after { let before = held (machine_of self.old) cells.old (H.meaning host.old) in
            let after = held (machine_of self.new) cells.new (H.meaning host.new) in
            after ≡ (answered (rights_of permit.now) request before other.old).held }
        ensures other { let before = held (machine_of self.old) cells.old (H.meaning host.old) in
            other.new ≡ (answered (rights_of permit.now) request before other.old).other }
        ensures lender { H.roots host.new ≡ H.roots host.old }
    {
        match request.memory {
            Memory::Own => self.make(permit, request.call, cells, host),
            Memory::Other(part) => {
                let (start, end) = part.bounds(other.len());
                self.make(permit, request.call, &mut other[start..end], host)
            }
        }
    }
}
