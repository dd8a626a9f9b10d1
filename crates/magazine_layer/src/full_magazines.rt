//! Full magazines.
ghost use Rattle.std.specs.Prelude.{◌≡◌, ◌-◌, ◌^◌, length, min};
ghost use Rattle.deed_core.specs.Covering.{units_tagged};
ghost use Rattle.magazine_layer.specs.Depots.{all_rounds};

use crate::magazines::Magazine;
use deed_core::Deed;
use std::collections::VecDeque;
use std::marker::Model;

/// A full magazine. A contract sees its rounds.
pub(crate) struct FullMagazine<D: Deed> {
    magazine: Magazine<D>,
}

impl<D: Deed> Model for FullMagazine<D> {
    ghost use Rattle.std.specs.Prelude.{◌≡◌, List, length};
    ghost use Rattle.deed_core.specs.Tag.{Tag};

    ghost Value = { List Tag };

    ghost view = { λ m. m.magazine.rounds };

    ghost invariant = { λ m. length m.magazine.rounds ≡ m.magazine.size };
}

impl<D: Deed> FullMagazine<D> {
    /// The magazine, which is full; that it is so isn't looked at.
    pub(crate) fn new(magazine: Magazine<D>) -> FullMagazine<D>
        requires { length magazine.rounds ≡ magazine.size }
        ensures { result ≡ magazine.rounds }
    {
        FullMagazine { magazine }
    }

    /// The magazine itself, still full.
    pub(crate) fn into_magazine(self) -> Magazine<D>
        ensures { result ≡ record { size = length self; rounds = self } }
    {
        let FullMagazine { magazine } = self;
        magazine
    }

    /// The units that its rounds cover.
    fn units(&self) -> u128
        ensures { result ≡ units_tagged self.now }
    {
        self.magazine.units()
    }
}

/// The units of some full magazines, or the greatest number where they are more.
pub(crate) fn units_of_all<D: Deed>(magazines: &VecDeque<FullMagazine<D>>) -> u128
    ensures { result ≡ min (units_tagged (all_rounds magazines.now.items)) (2 ^ 128 - 1) }
{
    let mut total: u128 = 0;
    for i in 0..magazines.len() {
        total = total.saturating_add(magazines[i].units());
    }
    total
}
