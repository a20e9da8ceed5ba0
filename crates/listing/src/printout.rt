//! What the listing program prints.

ghost use Rattle.std.specs.Prelude.{◌≡◌, ◌≤◌, true, false, length, take, IfOk, IfErr};
ghost use Rattle.listing.specs.Numbers.{number_of};
ghost use Rattle.listing.specs.Printout.{taken, text_of, refused_text, is_refused, printed_text, tells_refusal};

use crate::line::put_number_line;
use crate::list::list;
use crate::refusal::Refusal;
use executable::refusal::Refusal::OtherLength;
use output::writer::Writer;
use std::alloc::{AllocError, Global};

/// The most bytes of an input that is listed.
const MOST: usize = 8192;

/// No listing of such an input is longer.
const PAGE: usize = 65_536;

/// What the listing program prints for an input.
#[derive(Drop)]
pub enum Printed {
    /// The listing.
    Listing(Vec<u8>),
    /// The line that tells a refusal.
    Refused(Vec<u8>),
}

impl Printed {
    /// The text that is printed.
    pub fn text(&self) -> &[u8]
        ensures { result.now ≡ printed_text self.now }
    {
        match self {
            Printed::Listing(text) | Printed::Refused(text) => text.as_slice(),
        }
    }

    /// Whether it tells a refusal.
    pub fn is_refused(&self) -> bool
        ensures { result ≡ tells_refusal self.now }
    {
        matches!(self, Printed::Refused(_))
    }
}

/// The listing of an input of at most 8,192 bytes, or the line that tells its refusal.
pub fn printout(heap: Global, input: &[u8]) -> Result<Printed, AllocError>
    ensures text { IfOk result (λ p. printed_text p ≡ text_of (taken input.now)) }
    ensures refused { IfOk result (λ p. tells_refusal p ≡ is_refused (taken input.now)) }
{
    let mut page = [0u8; PAGE];
    match list_taken(input, &mut page) {
        Ok(length) => {
            let text = Vec::from_slice(heap, &page[0..length])?;
            Ok(Printed::Listing(text))
        }
        Err(refusal) => {
            let length = put_refusal(&mut page, refusal.number());
            let line = Vec::from_slice(heap, &page[0..length])?;
            Ok(Printed::Refused(line))
        }
    }
}

/// Writes the line of a refusal, and answers its length.
fn put_refusal(page: &mut [u8], number: u8) -> usize
    requires { PAGE ≤ length page.old }
    ensures text { take result page.new ≡ refused_text number }
    ensures within { result ≤ length page.old }
{
    let mut writer = Writer::new(page);
    put_number_line(&mut writer, b"refused", u32::from(number));
    writer.len()
}

/// Lists an input of at most 8,192 bytes, and refuses a longer one as one of another length.
fn list_taken(input: &[u8], page: &mut [u8]) -> Result<usize, Refusal>
    requires { PAGE ≤ length page.old }
    ensures listed { IfOk result (λ n.
        (take n page.new ≡ text_of (taken input.now)) × (is_refused (taken input.now) ≡ false)) }
    ensures within { IfOk result (λ n. n ≤ length page.old) }
    ensures refused { IfErr result (λ q.
        (refused_text (number_of q) ≡ text_of (taken input.now)) × (is_refused (taken input.now) ≡ true)) }
{
    if input.len() > MOST {
        return Err(OtherLength.into());
    }
    list(input, page)
}
