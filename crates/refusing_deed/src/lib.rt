//! A deed for tests, one of whose splits is refused. With it a test reaches each arm of generic
//! code that handles a refused split, which no plain deed ever takes. Programs have no use for it.
//! Each call takes constant time and no memory.
#![tactic(auto)]

ghost use Rattle.std.specs.Prelude.{◌≡◌, ◌-◌, ◌↔◌, Some, None, option_map, IsErr, IfOk, IfErr};
ghost use Rattle.deed_core.specs.Extent.{IsRange, IsInside};
ghost use Rattle.deed_core.specs.Holding.{GoesOn, low_side, high_side, join_of};

use deed_core::{Deed, Range, Refused};

/// A deed that is numbers alone, and counts down to a split that is refused.
pub struct RefusingDeed {
    root: u32,
    range: Range,
    /// How many splits go well before one is refused, counted along the parts of parts; none is
    /// refused where this is `None`.
    pub splits_left: Option<u32>,
    ghost in_range: { IsRange range },
}

impl RefusingDeed {
    /// The deed of a range of a root. After `splits_left` splits the next one is refused.
    pub fn new(root: u32, range: Range, splits_left: u32) -> RefusingDeed
        ensures holding { ⟦<RefusingDeed as Deed>⟧.holding result
            ≡ record { root = root; range = range } }
        ensures splits { result.splits_left ≡ Some splits_left }
    {
        RefusingDeed::counting(root, range, Some(splits_left))
    }

    /// The deed of a range of a root; with `None` no split of it is refused.
    fn counting(root: u32, range: Range, splits_left: Option<u32>) -> RefusingDeed
        ensures holding { ⟦<RefusingDeed as Deed>⟧.holding result
            ≡ record { root = root; range = range } }
        ensures splits { result.splits_left ≡ splits_left }
    {
        let _ = range.len();
        RefusingDeed {
            root,
            range,
            splits_left,
        }
    }

    /// Ends the deed.
    pub fn close(self) -> Range
        ensures { result ≡ (⟦<RefusingDeed as Deed>⟧.holding self).range }
    {
        let RefusingDeed {
            root: _,
            range,
            splits_left: _,
        } = self;
        range
    }
}

impl Deed for RefusingDeed {
    ghost holding = { λ d. record { root = d.root; range = d.range } };

    fn root(&self) -> u32 {
        self.root
    }

    fn range(&self) -> Range {
        self.range
    }

    /// The parts of a deed count on from one less. A deed that was refused once is not refused
    /// again.
    fn split(self, at: u64) -> Result<(RefusingDeed, RefusingDeed), Refused<RefusingDeed>>
        requires { IsInside at (⟦<RefusingDeed as Deed>⟧.holding self).range }
        ensures ok { IfOk result (λ parts.
            (⟦<RefusingDeed as Deed>⟧.holding parts.0
            ≡ low_side at (⟦<RefusingDeed as Deed>⟧.holding self))
            × (⟦<RefusingDeed as Deed>⟧.holding parts.1
            ≡ high_side at (⟦<RefusingDeed as Deed>⟧.holding self))) }
        ensures handed_back { IfErr result (λ refused.
            ⟦<RefusingDeed as Deed>⟧.holding refused.deed ≡ ⟦<RefusingDeed as Deed>⟧.holding self) }
        ensures refused { IsErr result ↔ (self.splits_left ≡ Some 0) }
        ensures counted { IfOk result (λ parts.
            (parts.0.splits_left ≡ option_map (λ n. n - 1) self.splits_left)
            × (parts.1.splits_left ≡ option_map (λ n. n - 1) self.splits_left)) }
        ensures once { IfErr result (λ refused. refused.deed.splits_left ≡ None) }
    {
        let RefusingDeed {
            root,
            range,
            splits_left,
        } = self;
        if splits_left == Some(0) {
            let deed = RefusingDeed::counting(root, range, None);
            return Err(Refused { deed });
        }
        let splits_left = splits_left.map(|n| n.saturating_sub(1));
        let (low, high) = range.split_at(at);
        Ok((
            RefusingDeed::counting(root, low, splits_left),
            RefusingDeed::counting(root, high, splits_left),
        ))
    }

    /// The joined deed counts on from where the first one stood.
    fn join(self, next: RefusingDeed) -> RefusingDeed
        requires { GoesOn (⟦<RefusingDeed as Deed>⟧.holding self)
            (⟦<RefusingDeed as Deed>⟧.holding next) }
        ensures joined { ⟦<RefusingDeed as Deed>⟧.holding result
            ≡ join_of (⟦<RefusingDeed as Deed>⟧.holding self)
            (⟦<RefusingDeed as Deed>⟧.holding next) }
        ensures counted { result.splits_left ≡ self.splits_left }
    {
        let RefusingDeed {
            root,
            range,
            splits_left,
        } = self;
        RefusingDeed::counting(root, range.join(next.close()), splits_left)
    }
}
