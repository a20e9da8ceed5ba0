//! The tasks on small programs.

use crate::assembling::{assemble_source, facts_page};
use crate::checking::check_listing;
use crate::listing_page::list_page;
use crate::sameness::{SameError, have_same_listing};
use std::test::Fail;

/// A source, what is told of it, and a filed listing with the line that is wrong in it, or 0 where none is.
struct Case {
    source: &'static [u8],
    facts: &'static str,
    filed: &'static [u8],
    line: usize,
}

const CASES: [Case; 3] = [
    Case {
        source: b"a: lc r1 -1\njmp a\nend a\n",
        facts: "code 2\nconstants 0\nfirst 0\nstack 1048575\nlabels 1\n",
        filed: b"stack 1048575\nlc r1 -1\njmp 0\nend 0\n",
        line: 0,
    },
    Case {
        source: b"stack 9\nhalt r0 0\nuint32 65\nend 0 # start\n",
        facts: "code 1\nconstants 1\nfirst 0\nstack 9\nlabels 0\n",
        filed: b"stack 9\nhalt r0 0\nuint32 66\nend 0\n",
        line: 3,
    },
    Case {
        source: b"halt r0 0\nend 0\n",
        facts: "code 1\nconstants 0\nfirst 0\nstack 1048575\nlabels 0\n",
        filed: b"stack 1048575\nhalt r0 0\nend 0",
        line: 3,
    },
];

#[test]
fn tasks(rt: HostRuntime) -> Result<(), Fail> {
    let heap = rt.alloc();
    for case in &CASES {
        let made = assemble_source(heap, case.source).ok().ok_or("refused")?;
        let bytes = made.bytes.as_slice();
        let facts = facts_page(heap, made.summary, made.labels.len())?;
        assert_eq!(rt; facts.as_str(), case.facts);
        let page = list_page(heap, bytes).ok().ok_or("not listed")?;
        let checked = check_listing(heap, bytes, case.filed)
            .ok()
            .ok_or("not checked")?;
        assert!(rt; checked.back && checked.page.as_slice() == page.as_slice());
        let found = checked.difference(case.filed);
        assert_eq!(rt; found.map_or(0, |difference| difference.line), case.line);
        assert!(rt; matches!(have_same_listing(heap, bytes, bytes), Ok(true)));
        let sides = have_same_listing(heap, bytes, case.source);
        assert!(rt; matches!(sides, Err(SameError::Right(_))));
    }
    Ok(())
}
