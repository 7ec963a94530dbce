/// What reading a file gives.
#[derive(Drop)]
pub enum Content {
    /// All bytes of the file.
    Whole(Vec<u8>),
    /// The file has more bytes than the caller wants.
    TooLong,
}
