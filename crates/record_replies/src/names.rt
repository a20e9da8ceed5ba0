//! The names of a record's files.

/// The program.
pub const EXECUTABLE: &str = "program.karmaexec";

/// The program as text.
pub const LISTING: &str = "listing.karma";

/// The tape of what waited for the program.
pub const READINGS: &str = "readings.tape";

/// The tape of what the program wrote.
pub const RESULTS: &str = "results.tape";

/// What the program was allowed to touch.
pub const PERMIT: &str = "permit.txt";

/// The page that tells of all of them.
pub const PAGE: &str = "README.txt";
