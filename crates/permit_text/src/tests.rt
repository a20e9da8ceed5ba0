//! Small permit files.

use crate::read::read_permit;
use executable::segment::Segment;
use isa::register::Register;
use permit::permit::Permit;
use std::test::Fail;

/// The levels of register 15, of the code and of the constants, and the stack's maximum.
fn numbers(permit: &Permit) -> Option<([u8; 3], u32)> {
    let register = permit.register_level(Register::new(15)?);
    let code = permit.segment_level(Segment::Code);
    let constants = permit.segment_level(Segment::Constants);
    let levels = [register.number(), code.number(), constants.number()];
    Some((levels, permit.stack_maximum()))
}

#[test]
fn files(rt: HostRuntime) -> Result<(), Fail> {
    let cases = [
        (b"".as_slice(), Ok(Some(([0, 0, 0], 1_048_576)))),
        (
            b"# closed\n\nregister 15 2\n code\t1\r\nconstants 0x2# all".as_slice(),
            Ok(Some(([2, 1, 2], 1_048_576))),
        ),
        (b"stack 9\nstack 010\n".as_slice(), Ok(Some(([0, 0, 0], 8)))),
        (b"stack 9\n\nCode 1\n".as_slice(), Err((None, 3))),
        (b"code 1 1\nstack x".as_slice(), Err((None, 1))),
        (b"code".as_slice(), Err((None, 1))),
        (b"code -1".as_slice(), Err((None, 1))),
        (b"stack 1\nregister 16 0\nx".as_slice(), Err((Some(54), 2))),
        (
            b"constants 99999999999999999999".as_slice(),
            Err((Some(54), 1)),
        ),
        (b"stack 1048577".as_slice(), Err((Some(54), 1))),
    ];
    for (text, expected) in cases {
        let told = read_permit(text)
            .map(|permit| numbers(&permit))
            .map_err(|error| (error.number(), error.line()));
        assert!(rt; told == expected);
    }
    Ok(())
}
