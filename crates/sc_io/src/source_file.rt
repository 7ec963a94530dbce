/// A source that was read: its path, with `/` between its parts, and its bytes.
#[derive(Drop)]
pub struct SourceFile {
    pub path: String,
    pub bytes: Vec<u8>,
}
