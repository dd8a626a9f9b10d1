//! One slab cache by itself: chunks of one size, cut from slabs of one size.
//!
//! A slab is a span that was carved directly from an arena. With chunks of 5 units, a quantum of 1
//! and a span of 18 units, the second slab of a cache stands so:
//!
//! ```text
//!     base
//!     |  base + colour                     colour 1, spare 3
//!     |  |
//!     +--+-----------+-----------+-----------+----+
//!     |g | chunk 0   | chunk 1   | chunk 2   |tail|
//!     +--+-----------+-----------+-----------+----+
//!      1    5           5           5          2
//! ```
//!
//! The gap and the tail are never handed out. Each chunk is out or at home. The colours go 0, 1, 2,
//! 3, 0, .. from slab to slab.
//!
//! A slab is found by its base, by halving. The bases of the slabs with a chunk at home and another
//! out, and of those with all at home, stand in two lists of `sorted_rows`: so the slab that gives
//! the next chunk, and the one that is reaped, is the first of a list. With s slabs of n chunks
//! `take` and `put` look at some log s slabs, and `take` at n places of one at most. `add` and
//! `reap` move the slabs on one side of theirs, at most s / 2, and none where it is the highest or
//! the lowest; `add` splits n deeds off and `reap` joins them. How many units they cover costs
//! nothing. A base that comes to a list, or goes, moves bases there, as that crate says. `add`
//! moves all slabs where it has to take a larger block for them, ever more seldom. `report` looks
//! at none, since what lies in the slabs is counted; `close` goes along all their places.
//!
//! A cache has a place for each chunk, a few numbers for each slab, and room for all bases in
//! both lists: 2 kilobytes with the first slab, and 64 bytes or more for each.
//!
//! Begin with [`SlabCache`]; its contracts speak of the words in `specs/Slab.antt` (a slab),
//! `specs/Cache.antt` (a cache, what lies in it and what it keeps) and `specs/Calls.antt` (what a
//! call answers and does). `laws` has what follows from them for those above.
#![tactic(auto)]

mod bases;
mod caches;
mod faults;
mod idle_slabs;
mod laws;
mod parts;
mod reports;
mod rows;
mod search;
mod slab_lists;
mod slabs;
mod standings;

pub use caches::SlabCache;
pub use faults::{AddFault, PutFault};
pub use laws::{chunk_laws, move_laws};
pub use reports::SlabReport;
