//! Being told how far a run is.

ghost use Rattle.play.specs.Watched.{told, Told};

/// How far a run is that may go on.
#[derive(Clone, Copy)]
pub struct Progress<'a> {
    /// The steps taken so far.
    pub steps: u32,
    /// The most steps that it may take.
    pub budget: u64,
    /// The tape of the readings that still wait.
    pub waiting: &'a [u8],
}

/// Is told between the parts of a run how far it is.
pub trait Watch {
    // what holds between the watcher before and after it is told something
    ghost hears: { Self → Told → Self → Type 0 };

    /// Is told once after each part that was taken.
    fn tell(&mut self, progress: Progress<'_>)
        ensures { hears self.old (told progress.entry) self.new };
}
