//! Telling how far a run is.

ghost use Rattle.std.specs.Prelude.{◌≡◌};

use play::watch::{Progress, Watch};

/// Prints how far a run is that goes on.
#[derive(Drop)]
pub(crate) struct Teller<'a> {
    pub(crate) rt: &'a HostRuntime,
}

impl<'a> Teller<'a> {
    /// Prints the steps so far, of how many, and how many bytes of readings still wait.
    fn show(&self, progress: Progress<'_>) -> anyhow::Result<()> {
        let steps = progress.steps;
        let budget = progress.budget;
        let waiting = progress.waiting.len();
        println!(self.rt;
            "(told: {steps} steps of at most {budget}, {waiting} bytes of readings wait)"
        )?;
        Ok(())
    }
}

impl<'a> Watch for Teller<'a> {
    ghost hears = { λ before _ after. after ≡ before };

    fn tell(&mut self, progress: Progress<'_>) {
        let _ = self.show(progress);
    }
}
