//! What the cases need of the units of a host.

use host::code_unit::CodeUnit;

/// A unit that the table can write and the program can print.
pub(crate) trait CaseUnit: CodeUnit + PartialEq {
    /// What the output holds before a case.
    const FILLER: Self;

    /// Reads the units of a case.
    fn read_all(rt: &HostRuntime, text: &str) -> anyhow::Result<Vec<Self>>;

    /// Prints units.
    fn show_all(rt: &HostRuntime, units: &[Self]) -> anyhow::Result<()>;
}
