//! The program over files.

use crate::program::run;
use std::fs;
use std::test::Fail;

/// The word that a file holds at a place, and 0 past its end.
fn word(bytes: &[u8], at: usize) -> u32 {
    match bytes.get(at..at.saturating_add(4)) {
        Some([a, b, c, d]) => u32::from_le_bytes([*a, *b, *c, *d]),
        _ => 0,
    }
}

#[test]
fn files(rt: HostRuntime) -> Result<(), Fail> {
    let mut output = Vec::new(rt.alloc());
    fs::write(&rt, "good.karma", "a: lc r1 -1\njmp a\nend a\n")?;
    run(&rt, &mut output, "good.karma", "kept.karmaexec")?;
    let report =
        b"words of code: 2\nwords of constants: 0\nfirst instruction: 0\nstack pointer: 1048575\nlabel a: 0\n";
    assert!(rt; output.as_slice() == report.as_slice());
    let made = fs::read(&rt, "kept.karmaexec")?;
    assert_eq!(rt; made.len(), 520);
    assert_eq!(rt; word(made.as_slice(), 512), 0x271F_FFFF);
    assert_eq!(rt; word(made.as_slice(), 516), 0x1E00_0000);

    // a refused text is told with its line, and leaves the file as it was
    output.clear();
    fs::write(&rt, "bad.karma", "halt r0 0\n\njmp r1\nend 0\n")?;
    assert!(rt; run(&rt, &mut output, "bad.karma", "kept.karmaexec").is_err());
    let refusal = b"refused 8 line 3: an operand is not well formed\n";
    assert!(rt; output.as_slice() == refusal.as_slice());
    let kept = fs::read(&rt, "kept.karmaexec")?;
    assert!(rt; kept.as_slice() == made.as_slice());

    // and makes none where there was none; nor does a source that is not there
    output.clear();
    assert!(rt; run(&rt, &mut output, "bad.karma", "none.karmaexec").is_err());
    assert!(rt; fs::read(&rt, "none.karmaexec").is_err());
    output.clear();
    assert!(rt; run(&rt, &mut output, "missing.karma", "none.karmaexec").is_err());
    assert!(rt; output.is_empty());
    assert!(rt; fs::read(&rt, "none.karmaexec").is_err());
    Ok(())
}
