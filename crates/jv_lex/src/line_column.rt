//! Lines and columns, from one offset to the next.

ghost use Rattle.std.specs.Prelude.{◌≡◌, ℕ, ◌+◌, ◌-◌, ◌<◌, ◌≤◌, length};
ghost use Rattle.jv_lex.specs.Place.{ends_line, is_first_byte, IsPlace};

/// Where a byte of a source lies: its offset from 0, and its line and its column, both from 1. A line ends at LF, CR or
/// CR LF (JLS 3.4); columns count characters, which are the bytes outside 80 to BF (hexadecimal).
#[derive(Clone, Copy, Debug)]
pub struct Place {
    pub at: u32,
    pub line: u32,
    pub column: u32,
}

impl Place {
    /// Where a source begins.
    pub fn start() -> Place
        ensures { result ≡ record { at = 0; line = 1; column = 1 } }
    {
        Place {
            at: 0,
            line: 1,
            column: 1,
        }
    }

    /// The place of the byte at another offset. Takes the time of the bytes between the two where the offset lies ahead, and
    /// else of all bytes before it; so places that are asked for in rising order walk over a source once.
    pub fn moved_to(self, source: &[u8], at: u32) -> Place
        requires inside { at ≤ length source.now }
        requires place { IsPlace source.now self }
        ensures at { result.at ≡ at }
        ensures place { IsPlace source.now result }
    {
        let from = if self.at <= at { self } else { Place::start() };
        let mut line = from.line;
        let mut column = from.column;
        for i in from.at as usize..at as usize {
            if ends_line(source, i) {
                line = line.saturating_add(1);
                column = 1;
            } else if is_first_byte(source[i]) {
                column = column.saturating_add(1);
            }
        }
        Place { at, line, column }
    }
}

/// Whether a line ends with the byte at an index.
fn ends_line(source: &[u8], i: usize) -> bool
    requires { i < length source.now }
    ensures { result ≡ ends_line source.now i }
{
    source[i] == b'\n' || (source[i] == b'\r' && source.get(i + 1) != Some(&b'\n'))
}

/// Whether a byte is the first of a character, in a text that is UTF-8.
fn is_first_byte(byte: u8) -> bool
    ensures { result ≡ is_first_byte byte }
{
    byte < 0x80 || byte > 0xbf
}
