//! A strictly sorted list, kept as short sorted rows: for the free ranges of an arena by length and
//! base, by base, for its spans, and for the slabs of a cache. It stands on nothing of ours.
//!
//! A row has at most 64 entries in a vector of its own. What is known of it without a look at them
//! is its head, in two vectors for all rows: the key of its first entry, and its top, which is its
//! greatest weight, or tells nothing:
//!
//! ```text
//!   firsts:   3               40            77              first key of each row
//!   tops:     7               9             -               greatest weight of each, if told
//!   rows:   [ 3 5 8 9 .. ]  [ 40 41 .. ]  [ 77 80 .. ]      two neighbors have more than 32
//!   spare:  [ ] [ ]                                         a row for each that a split may need
//! ```
//!
//! These weights are by one measure, which is the list's. A list begins with a measure, by which
//! all tops tell, and a change keeps them told. A search by another heeds no top and weighs all
//! that it comes by, until 9 that went on behind the key's row came with none by the list's between
//! them. Then its measure becomes the list's and no top tells anything, until its row is searched
//! in vain behind the key's. A search passes a row that is told to be too light with one look, and
//! tops lie close together: so a walk over many rows costs little.
//!
//! An entry is found by two searches, for its row and for its place there. First keys are halved
//! until 16 or fewer are left, and of these are counted those that begin at the key or below it. In
//! the row the entries below the key are counted: by the last of each 8, and in one 8 one by one,
//! so that at most 15 are looked at. To halve there would be slower: the processor guesses every
//! second time wrong which half it is, and LLVM makes no branch of a count. Near the key that
//! `Rows::go_to` was given last one of the searches, or both, fall away.
//!
//! An entry that is taken out is struck first: it lies in its row until the next change or search
//! by weight. One that is put in next and belongs in its place takes it, and nothing moves: so it
//! is where a free range gives way to its rest, or to a longer one that it has become part of. A
//! row that comes to 64 is halved; neighbors with 32 or fewer together are put together. So a
//! change moves at most 158 entries, where it takes the struck one out of its row and halves
//! another. Where a row comes or goes, the vectors of first keys, of tops and of rows move what
//! stands behind it: with n entries n / 16 times 48 bytes at most, and it may be twice. No call is
//! recursive. Once `Rows::reserve` has made room, `insert` and `remove` take no memory and can't
//! fail: a spare row is there for each split.
//!
//! Begin with `Rows`; what an entry is, the trait `RowEntry` says. The form is our own choice.
#![tactic(auto)]

mod entries;
mod headed;
mod heavy;
mod row;
mod rows;
mod seats;
mod struck;
mod tops;

pub use entries::RowEntry;
pub use rows::Rows;
