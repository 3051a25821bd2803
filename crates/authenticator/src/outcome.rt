// What a call says that is not refused: whether it wrote a response or a draft, of this length, and how long the stored form of the table left is.
#[derive(Clone, Copy, Debug, PartialEq, Eq)]
pub struct Gave {
    pub draft: bool,
    pub response_len: usize,
    pub table_len: usize,
}
