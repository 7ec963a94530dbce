/// A diagnostic: the number of the file that it speaks of, the offset of the byte at which it stands, from 0, its code, and
/// its text. Diagnostics are ordered by file, place, code and text.
#[derive(Debug, Drop, PartialEq, Eq, PartialOrd, Ord)]
pub struct Diag {
    pub file: u32,
    pub at: u32,
    pub code: u8,
    pub text: String,
}
