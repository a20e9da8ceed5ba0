//! Reports of small examples.

use crate::refused::refusal_line;
use crate::success::success_lines;
use assembler::label::{Label, Place};
use assembler::question::{Origin, Question, Refusal};
use builder::summary::Summary;
use std::test::Fail;

#[test]
fn refusal(rt: HostRuntime) -> Result<(), Fail> {
    let refusal = Refusal {
        question: Question::Count,
        origin: Origin::at(3),
    };
    let line = refusal_line(rt.alloc(), refusal)?;
    assert_eq!(rt;
        line.as_str(),
        "refused 7 line 3: the number of operands is wrong\n"
    );
    Ok(())
}

#[test]
fn no_labels(rt: HostRuntime) -> Result<(), Fail> {
    let summary = Summary {
        length: 524,
        code: 2,
        constants: 1,
        first: 1,
        stack: 99,
    };
    let lines = success_lines(rt.alloc(), b"", &[], summary)?;
    let expected =
        b"words of code: 2\nwords of constants: 1\nfirst instruction: 1\nstack pointer: 99\n";
    assert!(rt; lines.as_slice() == expected.as_slice());
    Ok(())
}

#[test]
fn one_label(rt: HostRuntime) -> Result<(), Fail> {
    let summary = Summary {
        length: 512,
        code: 0,
        constants: 0,
        first: 0,
        stack: 0,
    };
    let labels = [Label {
        place: Place::at(1),
        length: 2,
        address: 7,
    }];
    let lines = success_lines(rt.alloc(), b" go: halt r0 0\n", &labels, summary)?;
    let expected =
        b"words of code: 0\nwords of constants: 0\nfirst instruction: 0\nstack pointer: 0\nlabel go: 7\n";
    assert!(rt; lines.as_slice() == expected.as_slice());
    Ok(())
}
