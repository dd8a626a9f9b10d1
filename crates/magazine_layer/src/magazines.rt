//! Magazines: stacks of segments.
ghost use Rattle.std.specs.Prelude.{◌≡◌, ◌+◌, ◌<◌, ◌≤◌, ◌^◌, ◌↔◌, [], ◌∷◌, ◌++◌, length, IsTrue};
ghost use Rattle.std.specs.Prelude.{IfSome, IfOk, option_to_list};
ghost use Rattle.deed_core.specs.Covering.{units_tagged};
ghost use Rattle.deed_core.specs.Weights.{Loses};
ghost use Rattle.magazine_layer.specs.Alike.{AreAlike};
ghost use Rattle.magazine_layer.specs.Magazines.{IsSize, AreAmong, IsMagazine, empty_magazine};
ghost use Rattle.magazine_layer.specs.Calls.{MagazineTakeOf, DiscardOf};

use deed_core::{Deed, Segment};
use std::alloc::{AllocError, Global};
use std::marker::Model;

/// A stack of segments, its rounds ("Magazines and Vmem", 2001). It holds 3, 7, 15 or 31 of them,
/// which is our own choice: all rounds of two magazines have room in one of the next size. It is
/// never dropped: `discard` ends it once it is empty.
pub struct Magazine<D: Deed> {
    size: usize,
    rounds: Vec<Segment<D>>,
}

impl<D: Deed> Model for Magazine<D> {
    ghost use Rattle.std.specs.Prelude.{◌≤◌, vec_len, vec_capacity};
    ghost use Rattle.magazine_layer.specs.Magazines.{IsSize, MagazineState};

    ghost Value = { MagazineState };

    ghost view = { λ m. record { size = m.size; rounds = m.rounds.items } };

    ghost invariant = { λ m. IsSize m.size × (vec_len m.rounds ≤ m.size)
        × (m.size ≤ vec_capacity m.rounds) };
}

/// Whether a magazine can have this size: 3, 7, 15 or 31 rounds.
pub fn is_magazine_size(size: usize) -> bool
    ensures value { IsTrue result ↔ IsSize size }
{
    matches!(size, 3 | 7 | 15 | 31)
}

/// Two empty magazines of one size, as `CpuCache::change` asks for. Out of memory leaves none.
pub fn two_empty<D: Deed>(
    alloc: Global,
    size: usize,
) -> Result<(Magazine<D>, Magazine<D>), AllocError>
    requires { IsSize size }
    ensures first { IfOk result (λ p. p.0 ≡ empty_magazine size) }
    ensures second { IfOk result (λ p. p.1 ≡ empty_magazine size) }
{
    let first = Magazine::new(alloc, size)?;
    match Magazine::new(alloc, size) {
        Ok(second) => Ok((first, second)),
        Err(refused) => {
            discard_empty(first);
            Err(refused)
        }
    }
}

impl<D: Deed> Magazine<D> {
    /// An empty magazine, with room reserved for `size` rounds.
    pub fn new(alloc: Global, size: usize) -> Result<Magazine<D>, AllocError>
        requires { IsSize size }
        ensures { IfOk result (λ m. m ≡ empty_magazine size) }
    {
        let rounds = Vec::with_capacity(alloc, size)?;
        Ok(Magazine { size, rounds })
    }

    /// How many rounds it can hold.
    pub fn size(&self) -> usize
        ensures value { result ≡ self.now.size }
        ensures shape { IsMagazine self.now }
    {
        self.size
    }

    /// Whether it has no round.
    pub fn is_empty(&self) -> bool
        ensures value { IsTrue result ↔ (self.now.rounds ≡ []) }
        ensures shape { IsMagazine self.now }
    {
        self.rounds.is_empty()
    }

    /// Whether it has as many rounds as it can hold.
    pub fn is_full(&self) -> bool
        ensures value { IsTrue result ↔ (length self.now.rounds ≡ self.now.size) }
        ensures shape { IsMagazine self.now }
    {
        self.rounds.len() == self.size
    }

    /// The units that its rounds cover, each counted by itself.
    pub fn units(&self) -> u128
        ensures value { result ≡ units_tagged self.now.rounds }
        ensures bound { result < 2 ^ 126 }
    {
        units_of_rounds(&self.rounds)
    }

    /// The same where all of them are alike, by their number and the last of them.
    pub(crate) fn units_alike(&self) -> u128
        requires alike { AreAlike self.now.rounds }
        ensures value { result ≡ units_tagged self.now.rounds }
        ensures bound { result < 2 ^ 126 }
    {
        let Some(last) = self.rounds.last() else {
            return 0;
        };
        self.rounds.len() as u128 * u128::from(last.range().len())
    }

    /// Takes the last round that was put in. It takes no memory.
    #[tactic(auto, using(crate::proofs::Weighing::last_weighs))]
    pub fn take(&mut self) -> Option<Segment<D>>
        // what it does
        ensures of { MagazineTakeOf self.old result self.new }
        // what follows
        ensures weights { IfSome result (λ x. Loses self.old.rounds self.new.rounds x) }
        ensures kinds { AreAmong (option_to_list result ++ self.new.rounds) self.old.rounds }
        ensures size { self.new.size ≡ self.old.size }
        ensures shape { IsMagazine self.new }
    {
        self.rounds.pop()
    }

    /// Puts a round in.
    pub(crate) fn push(&mut self, segment: Segment<D>)
        requires { length self.old.rounds < self.old.size }
        ensures { self.new ≡
            record { size = self.old.size; rounds = self.old.rounds ++ segment ∷ [] } }
    {
        self.rounds.push_reserved(segment);
    }

    /// Puts in all rounds of another magazine, in their order.
    pub(crate) fn append(&mut self, other: &mut Magazine<D>)
        requires { length self.old.rounds + length other.old.rounds ≤ self.old.size }
        ensures here { self.new ≡
            record { size = self.old.size; rounds = self.old.rounds ++ other.old.rounds } }
        ensures there { other.new ≡ empty_magazine other.old.size }
    {
        match self.rounds.append(&mut other.rounds) {
            Ok(()) => {}
            Err(_) => unreachable!(),
        }
    }

    /// The rounds, for the depot that drains them.
    pub(crate) fn into_rounds(self) -> Vec<Segment<D>>
        ensures { result.items ≡ self.rounds }
    {
        let Magazine { size: _, rounds } = self;
        rounds
    }

    /// Ends an empty magazine, and hands back one that has rounds.
    pub fn discard(self) -> Result<(), Magazine<D>>
        ensures of { DiscardOf self result }
    {
        if !self.rounds.is_empty() {
            return Err(self);
        }
        let Magazine { size: _, rounds } = self;
        rounds.destroy_empty();
        Ok(())
    }
}

/// Ends a magazine that has no round.
pub(crate) fn discard_empty<D: Deed>(magazine: Magazine<D>)
    requires { magazine.rounds ≡ [] }
{
    match magazine.discard() {
        Ok(()) => {}
        Err(_) => unreachable!(),
    }
}

/// The units of some rounds.
pub(crate) fn units_of_rounds<D: Deed>(rounds: &[Segment<D>]) -> u128
    ensures value { result ≡ units_tagged rounds.now }
    ensures bound { result < 2 ^ 126 }
{
    // For its clause: there are fewer than 2^64 rounds.
    let _ = rounds.len();
    let mut total: u128 = 0;
    for round in rounds {
        total += u128::from(round.range().len());
    }
    total
}
