//! A text that is written into a lent output. A call writes what fits and goes on in any case: so the same calls measure
//! (over an empty output) and write, and none of them can refuse.

ghost use Rattle.std.specs.Prelude.{◌≡◌, ◌^◌, ◌<◌, length};
ghost use Rattle.output.specs.Overlay.{overlay};

/// A text that is written into an output that the caller lends. What fits of the text stands there, and `len` is the
/// text's length so far, as far as 64 bits hold it.
#[derive(Drop)]
pub struct Writer<'a> {
    out: &'a mut [u8],
    len: usize,
    ghost room: { length out.now < 2 ^ 64 },
    ghost reach: { len < 2 ^ 64 },
}

impl<'a> Writer<'a> {
    ghost use Rattle.std.specs.Prelude.{[], ◌∷◌};
    ghost use Rattle.output.specs.Writes.{Put};

    /// An empty text at the start of an output, which stays as it is.
    pub fn new(out: &'a mut [u8]) -> Writer<'a>
        ensures output { result.out.now ≡ out.old }
        ensures lender { result.out.ghost_name ≡ out.entry.ghost_name }
        ensures length { result.len ≡ 0 }
    {
        Writer::at_place(out, 0)
    }

    /// A text that already has `place` bytes: its next byte goes to that place of the output, which stays as it is.
    pub fn at_place(out: &'a mut [u8], place: usize) -> Writer<'a>
        ensures output { result.out.now ≡ out.old }
        ensures lender { result.out.ghost_name ≡ out.entry.ghost_name }
        ensures length { result.len ≡ place }
    {
        Writer { out, len: place }
    }

    /// The length of the text so far, as far as 64 bits hold it.
    pub fn len(&self) -> usize
        ensures { result ≡ self.now.len }
    {
        self.len
    }

    /// Writes a byte after the text so far.
    pub fn put_byte(&mut self, byte: u8)
        ensures { Put self.old (byte ∷ []) self.new }
    {
        self.put(&[byte]);
    }

    /// Writes bytes after the text so far.
    pub fn put(&mut self, text: &[u8])
        ensures { Put self.old text.now self.new }
    {
        lay(self.out, self.len, text);
        self.len = self.len.saturating_add(text.len());
    }
}

/// Copies what fits of a text into an output, from a place on.
fn lay(out: &mut [u8], at: usize, text: &[u8])
    ensures { out.new ≡ overlay out.old at text.now }
{
    if at < out.len() {
        let end = out.len().min(at.saturating_add(text.len()));
        out[at..end].copy_from_slice(&text[..end - at]);
    }
}
