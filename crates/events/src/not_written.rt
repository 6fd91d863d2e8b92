// Why nothing was written.

#[derive(Clone, Copy, PartialEq, Eq, Debug)]
pub enum NotWritten {
    // The slice is too short.
    Short,
    // A row has more than 255 entries, or its bytes do not reach as far as its count.
    BadRow,
}
