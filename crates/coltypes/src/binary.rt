/// Whether bytes are text. Nothing here tests that text is UTF-8.
#[derive(Clone, Copy, Debug, PartialEq, Eq)]
pub enum BinaryKind {
    Utf8,
    Binary,
}

/// Where the bytes of a row stand: in the view itself, or in one of several buffers.
#[derive(Clone, Copy, Debug, PartialEq, Eq)]
pub enum BinaryView {
    /// The first `len` of these bytes.
    Inline {
        len: u8,
        bytes: [u8; 12],
    },
    /// The `len` bytes at `offset` of the buffer of this number.
    Ref {
        buffer: usize,
        offset: usize,
        len: usize,
    },
}
