//! What a seat of the table knows, which exists in the proofs alone.
use std::collections::LinkedList;

/// The units from `base` on, `len` of them, of one root. No value of it is made.
pub(crate) struct Piece {
    pub root: u32,
    pub base: u64,
    pub len: u64,
}

/// The ranges that a seat covers, the roots that it opened, and the root numbers that are left to
/// it, which are the `left` numbers from `first` on. No value of it is made.
pub(crate) struct View {
    pub ranges: LinkedList<Piece>,
    pub roots: LinkedList<Piece>,
    pub first: u64,
    pub left: u64,
}
