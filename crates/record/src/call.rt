/// A call as its two bytes, which need not make a call.
#[derive(Clone, Copy, Debug, PartialEq, Eq)]
pub struct RawCall {
    // A byte, since the writer has to refuse one that names no kind.
    pub kind: u8,
    pub place: u8,
}
