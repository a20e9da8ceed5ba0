//! Rebuilding an executable from its listing.

ghost use Rattle.std.specs.Prelude.{◌≡◌, length};
ghost use Rattle.std.specs.Result.{result_ok};
ghost use Rattle.assembler.specs.Assembled.{assembled, answer_of, output_of};
ghost use Rattle.listing.specs.Listing.{listed, output_after};
ghost use Rattle.roundtrip.specs.Rebuilt.{rebuilt, length_of, written_to};

use crate::page::front;
use crate::refusal::Refusal;
use assembler::assemble::assemble;
use assembler::label::Label;
use bounded::list::BoundedList;
use listing::list::list;

/// Assembles a listing, which has no labels.
fn assemble_listing(text: &[u8], out: &mut [u8]) -> Option<usize>
    ensures value { result ≡ result_ok (answer_of (assembled text.now 0 (length out.old))) }
    ensures output { out.new ≡ output_of (assembled text.now 0 (length out.old)) out.old }
{
    let mut none: [Label; 0] = [];
    let mut labels = BoundedList::new(&mut none);
    assemble(text, &mut labels, out).ok()
}

/// Lists an executable into `text` and assembles the listing into `out`: the same executable, whose length is answered.
pub fn rebuild(bytes: &[u8], text: &mut [u8], out: &mut [u8]) -> Result<usize, Refusal>
    ensures value { result ≡ length_of (rebuilt bytes.now (length text.old) (length out.old)) }
    ensures text { text.new ≡ output_after (listed bytes.now (length text.old)) text.old }
    ensures output { out.new ≡ written_to out.old (rebuilt bytes.now (length text.old) (length out.old)) }
{
    let length = list(bytes, text)?;
    if bytes.len() > out.len() {
        return Err(Refusal::OutputTooShort);
    }
    assemble_listing(front(text, length), out).ok_or(Refusal::OutputTooShort)
}
