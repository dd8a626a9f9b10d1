//! An opener with the roots that it opened.
ghost use Rattle.std.specs.Prelude.{◌≡◌, ◌+◌, ◌<◌, ◌≤◌, ◌^◌, [], ◌++◌, OnErr, OnOk, IsOk, length};
ghost use Rattle.std.specs.Prelude.{vec_len, vec_capacity};
ghost use Rattle.deed_table.specs.Opened.{OpensNext, RunFrom};

use crate::deeds::SeatDeed;
use crate::names::Name;
use crate::openers::Opener;
use crate::roots::Root;
use deed_core::{Opens, Range};
use std::alloc::{AllocError, Global};
use std::marker::Model;

/// An opener, and the roots that it opened, in order of opening: their numbers go on from the first
/// that was left to it. It is never dropped, since its roots have to be closed.
pub struct Roots<N: Name> {
    base: u64,
    opener: Opener<N>,
    roots: Vec<Root<N>>,
}

impl<N: Name> Model for Roots<N> {
    ghost use Rattle.std.specs.Prelude.{◌≡◌, ◌+◌, length};
    ghost use Rattle.deed_table.specs.Opened.{OpenedState, RunFrom};

    ghost Value = { OpenedState };

    ghost view = { λ r. record { base = r.base; left = r.opener.left; roots = r.roots.items } };

    ghost invariant = { λ r. RunFrom r.base r.roots.items
        × (r.opener.first ≡ r.base + length r.roots.items) };
}

impl<N: Name> Roots<N> {
    /// The opener, with no root yet.
    pub fn new(alloc: Global, opener: Opener<N>) -> Roots<N>
        ensures { result ≡ record { base = opener.first; left = opener.left; roots = [] } }
    {
        Roots {
            base: opener.first(),
            opener,
            roots: Vec::new(alloc),
        }
    }

    /// How many numbers are left. It takes constant time, so its clauses are the way to know which
    /// numbers its roots have.
    pub fn left(&self) -> u64
        ensures value { result ≡ self.now.left }
        ensures run { RunFrom self.now.base self.now.roots }
        ensures most { self.now.base + length self.now.roots + self.now.left ≤ 2 ^ 32 }
    {
        self.opener.left()
    }

    /// The roots, in order of opening.
    pub fn roots(&self) -> &[Root<N>]
        ensures { result.now ≡ self.now.roots }
    {
        &self.roots
    }

    /// Moves its roots behind others, and goes on with the numbers that are left. `Err` is out of
    /// memory, which is taken only where there is no room for them.
    pub fn hand_over(&mut self, to: &mut Vec<Root<N>>) -> Result<(), AllocError>
        ensures moved { OnOk result (to.new.items ≡ to.old.items ++ self.old.roots) }
        ensures rest { OnOk result (self.new ≡ record self.old {
          base = self.old.base + length self.old.roots;
          roots = [];
        }) }
        ensures unchanged { OnErr result ((to.new.items ≡ to.old.items) × (self.new ≡ self.old)) }
        ensures enough { vec_len to.old + length self.old.roots ≤ vec_capacity to.old → IsOk result }
    {
        to.append(&mut self.roots)?;
        self.base = self.opener.first();
        Ok(())
    }

    /// Ends an opener that keeps no root. The numbers that are left are never used.
    pub fn end(self)
        requires { self.roots ≡ [] }
    {
        let Roots {
            base: _,
            opener: _,
            roots,
        } = self;
        roots.destroy_empty();
    }
}

impl<N: Name> Opens<SeatDeed<N>> for Roots<N> {
    ghost use Rattle.std.specs.Prelude.{◌<◌};
    ghost use Rattle.deed_table.specs.Opened.{OpensNext};

    ghost can_open = { λ r. 0 < r.left };

    ghost opens = { OpensNext };

    fn open(&mut self, range: Range) -> Result<SeatDeed<N>, AllocError> {
        self.roots.reserve(1)?;
        let (root, deed) = self.opener.open_root(range)?;
        self.roots.push_reserved(root);
        Ok(deed)
    }
}
