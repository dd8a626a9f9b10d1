//! The counts of a server, in parts that threads have for themselves.
ghost use Rattle.std.specs.Prelude.{◌≡◌, vec_len};
ghost use Rattle.tcp_connections.specs.declared.tallies.TheConstants.{TALLIES};

use crate::counts::Counter;
use lease_watch::{WORDS, Word, WordCounts};
use std::alloc::{AllocError, Global};
use std::array;
use std::sync::atomic::{AtomicU64, Ordering};

/// How many tallies there are: one for each CPU that there may be.
const TALLIES: usize = 64;

/// What was counted by one thread, or by a few. A count that goes on past 2^64 - 1 begins anew.
#[derive(Drop)]
pub struct Tally {
    words: [AtomicU64; WORDS],
    waits: AtomicU64,
}

impl Tally {
    /// Nothing was counted.
    fn new() -> Tally {
        Tally {
            words: array::from_fn(|_| AtomicU64::new(0)),
            waits: AtomicU64::new(0),
        }
    }

    /// Counts a line that waits for a CPU.
    pub fn note_wait(&self) {
        add_one(&self.waits);
    }

    /// Adds what it has to sums.
    fn add_to(&self, sums: &mut LineSums) {
        for (sum, count) in sums.words.iter_mut().zip(self.words.iter()) {
            add(sum, count);
        }
        add(&mut sums.waits, &self.waits);
    }
}

impl Counter for &Tally {
    ghost use Rattle.std.specs.Prelude.{⊤};

    // (what a word of memory has that threads share no contract can say)
    ghost may_count = { λ _ _ _. ⊤ };

    fn count(&mut self, word: Word) {
        let words = &self.words[..];
        add_one(&words[word.place()]);
    }
}

/// What all tallies have together.
#[derive(Clone, Copy, Debug, PartialEq, Eq)]
pub struct LineSums {
    /// Lines and replies, by their words.
    pub words: WordCounts,
    /// Lines that waited for a CPU.
    pub waits: u64,
}

/// The tallies of a server.
#[derive(Drop)]
pub struct Counts {
    tallies: Vec<Tally>,
    ghost full: { vec_len tallies ≡ TALLIES },
}

impl Counts {
    /// Nothing was counted.
    pub fn new(alloc: Global) -> Result<Counts, AllocError> {
        let mut tallies = Vec::new(alloc);
        for _ in 0..TALLIES {
            tallies.push(Tally::new())?;
        }
        Ok(Counts { tallies })
    }

    /// The tally of this place, counted round.
    pub fn at(&self, place: usize) -> &Tally {
        &self.tallies[place % TALLIES]
    }

    /// All together, each count as it is when it is read.
    pub fn sums(&self) -> LineSums {
        let mut sums = LineSums {
            words: [0; WORDS],
            waits: 0,
        };
        for tally in self.tallies.as_slice() {
            tally.add_to(&mut sums);
        }
        sums
    }
}

/// Counts one more.
fn add_one(count: &AtomicU64) {
    count.fetch_add(1, Ordering::SeqCst);
}

/// Adds a count to a sum.
fn add(sum: &mut u64, count: &AtomicU64) {
    *sum = sum.saturating_add(count.load(Ordering::SeqCst));
}
