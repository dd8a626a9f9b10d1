//! Which cell an allocated range may be in, by its base: chains of cells, hashed (boundary tags by
//! a hashed table of their bases: Magazines and Vmem, 2001). It is for speed alone: no contract
//! sees a chain, and who follows one looks at the cells themselves.

use crate::short_indexes::ShortIndex;
use std::alloc::{AllocError, Global};

/// An odd number whose products spread (2 ^ 64 by the golden ratio: Knuth's multiplicative
/// hashing).
const SPREAD: u64 = 0x9E37_79B9_7F4A_7C15;

/// The heads of so many units lie side by side: where ranges beside each other are let out in turn,
/// or become free, their heads are in memory that is at hand. (Our own choice.)
const BLOCK: u64 = 128;

/// So many units have one chain: two ranges of one unit may share it, which costs a look more for
/// one of them. (Our own choice.)
const UNITS_EACH: u64 = 2;

/// How many chains there are at first: no fewer than a block has. Their number is doubled from then
/// on.
const FIRST_CHAINS: usize = (BLOCK / UNITS_EACH) as usize;

/// The first cell of each chain.
#[derive(Drop)]
pub(crate) struct Chains {
    heads: Vec<ShortIndex>,
}

impl Chains {
    /// No chain.
    pub(crate) fn new(alloc: Global) -> Chains {
        Chains {
            heads: Vec::new(alloc),
        }
    }

    /// How many chains there are.
    pub(crate) fn len(&self) -> usize {
        self.heads.len()
    }

    /// The chain of the ranges at a base: that of its block, by the upper bits of a product, and
    /// from there on that of its units. Behind the last comes the first.
    fn chain_of(&self, base: u64) -> usize {
        let count = self.heads.len();
        let spread = (base / BLOCK).wrapping_mul(SPREAD) >> 32;
        let first = (spread.wrapping_mul(count as u64) >> 32) as usize;
        let within = (base % BLOCK / UNITS_EACH) as usize;
        let chain = first.wrapping_add(within);
        if chain < count {
            chain
        } else {
            chain.wrapping_sub(count)
        }
    }

    /// The first cell of the chain of a base.
    pub(crate) fn head(&self, base: u64) -> ShortIndex {
        match self.heads.get(self.chain_of(base)) {
            Some(head) => *head,
            None => ShortIndex::none(),
        }
    }

    /// Another cell is the first of the chain of a base.
    pub(crate) fn set_head(&mut self, base: u64, cell: ShortIndex) {
        let chain = self.chain_of(base);
        if chain < self.heads.len() {
            self.heads[chain] = cell;
        }
    }

    /// Twice as many chains, with no cell on any. Out of memory, all stays as it is.
    pub(crate) fn double(&mut self, alloc: Global) -> Result<(), AllocError> {
        let Some(count) = self.heads.len().checked_mul(2) else {
            return Err(AllocError);
        };
        let mut heads = Vec::new(alloc);
        heads.resize(count.max(FIRST_CHAINS), ShortIndex::none())?;
        self.heads = heads;
        Ok(())
    }
}
