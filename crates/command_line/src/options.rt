//! Options: what `run` and `compare` may be told beside their operands.

/// What the options of a run or a comparison say. A number above 4,294,967,296 is told as that. `permit` is a run's
/// alone.
#[derive(Clone, Copy, PartialEq, Eq)]
pub struct Options<'a> {
    /// The tape of the readings.
    pub readings: Option<&'a str>,
    /// The tape that takes the results.
    pub results: Option<&'a str>,
    /// The file of the permit.
    pub permit: Option<&'a str>,
    /// The most steps.
    pub budget: Option<u64>,
    /// How many cells memory has.
    pub cells: Option<u64>,
    /// The most results that are written.
    pub writes: Option<u64>,
    /// How many steps are printed.
    pub trace: Option<u64>,
    /// Whether what the machine holds at the end is printed.
    pub dump: bool,
    /// Whether nothing is printed but what is wrong.
    pub quiet: bool,
}
