// Cutting a text where a mark stands.
ghost use Rattle.std.specs.Prelude.{◌≡◌, ◌<◌, length, position};
ghost use Rattle.commands.specs.Pieces.{is_mark, before, after};

// Where a piece of text ends. Not a closure: contracts name the mark, and of a closure each would have to say what it does.
#[derive(Clone, Copy)]
pub enum Mark {
    NewLine,
    Hash,
    Blank,
}

impl Mark {
    pub fn is(self, byte: u8) -> bool
        ensures { result ≡ is_mark self byte }
    {
        match self {
            Mark::NewLine => byte == b'\n',
            Mark::Hash => byte == b'#',
            Mark::Blank => matches!(byte, b' ' | b'\t' | b'\r'),
        }
    }
}

// The place of the first mark.
fn first(bytes: &[u8], mark: Mark) -> Option<usize>
    ensures { result ≡ position (is_mark mark) bytes.now }
{
    bytes.iter().position(|byte| mark.is(*byte))
}

// What stands before the first mark, and what stands after it.
pub fn cut(bytes: &[u8], mark: Mark) -> (&[u8], &[u8])
    ensures front { result.0.now ≡ before mark bytes.now }
    ensures back { result.1.now ≡ after mark bytes.now }
    ensures shorter { 0 < length bytes.now → length result.1.now < length bytes.now }
{
    match first(bytes, mark) {
        Some(i) => (&bytes[..i], &bytes[i + 1..]),
        None => (bytes, &[]),
    }
}
