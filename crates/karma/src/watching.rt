//! Telling how far a run is.

ghost use Rattle.std.specs.Prelude.{◌≡◌};

use play::play::count_items;
use play::watch::{Progress, Watch};

/// No run of fewer steps is told of.
const LONG: u32 = 5_000_000;

/// Tells on standard error how far a run is, unless it is to be quiet.
#[derive(Drop)]
pub(crate) struct Teller<'a> {
    pub(crate) rt: &'a HostRuntime,
    pub(crate) readings: &'a [u8],
    pub(crate) quiet: bool,
}

impl<'a> Teller<'a> {
    /// Prints the steps so far, of how many, and the items taken.
    fn show(&self, progress: Progress<'_>) -> anyhow::Result<()> {
        let all = count_items(self.rt.alloc(), self.readings)?;
        let waiting = count_items(self.rt.alloc(), progress.waiting)?;
        let taken = all.saturating_sub(waiting);
        let steps = progress.steps;
        let budget = progress.budget;
        eprintln!(self.rt; "steps {steps} of at most {budget}, taken {taken}")?;
        Ok(())
    }
}

impl<'a> Watch for Teller<'a> {
    ghost hears = { λ before _ after. after ≡ before };

    fn tell(&mut self, progress: Progress<'_>) {
        if !self.quiet && progress.steps >= LONG {
            // the run goes on where nobody reads this
            let _ = self.show(progress);
        }
    }
}
