//! Deeds that are seats of the table.
ghost use Rattle.std.specs.Arc.{arc_value};
ghost use Rattle.deed_core.specs.Extent.{IsRange};
ghost use Rattle.deed_core.specs.Holding.{Holding};
ghost use Rattle.deed_table.specs.Seated.{AreAt, SeatsDeed};

use crate::names::Name;
use crate::steps::{DeedTable, cut, merge};
use crate::views::View;
use atomic_table::Seat;
use deed_core::{Deed, Range, Refused};
use std::alloc::Global;
use std::marker::{Brand, Model, PhantomData};
use std::sync::Arc;

/// A deed of the table that `N` names, which may cross threads. It is never copied or dropped: it
/// ends by `join` or by `close`. Contracts see it as its root and its range.
///
/// A split is refused where the table can't be held once more. Holding it takes no memory of
/// today's `Arc`, so that arm is proved and has never run.
pub struct SeatDeed<N: Name> {
    pub(crate) root: u32,
    pub(crate) range: Range,
    pub(crate) seat: Seat<(), View>,
    pub(crate) table: Arc<DeedTable, Global>,
    pub(crate) name: PhantomData<N>,
}

impl<N: Name> Model for SeatDeed<N> {
    ghost Value = { Holding };

    ghost view = { λ d. record { root = d.root; range = d.range } };

    ghost invariant = { λ d. AreAt N.table d.seat.table_id (arc_value d.table).shared.table_id
        × IsRange d.range
        × SeatsDeed (record { root = d.root; range = d.range }) d.seat.me };
}

impl<N: Name> Deed for SeatDeed<N> {
    ghost holding = { λ d. d };

    fn root(&self) -> u32 {
        self.root
    }

    fn range(&self) -> Range {
        self.range
    }

    fn split(self, at: u64) -> Result<(SeatDeed<N>, SeatDeed<N>), Refused<SeatDeed<N>>> {
        let Ok(again) = Arc::try_clone(&self.table) else {
            return Err(Refused { deed: self });
        };
        let SeatDeed {
            root,
            range,
            mut seat,
            table,
            name: _,
        } = self;
        let other = cut::<Brand>(&table, &mut seat, at);
        let (below, from) = range.split_at(at);
        let low = SeatDeed {
            root,
            range: below,
            seat,
            table,
            name: PhantomData,
        };
        let high = SeatDeed {
            root,
            range: from,
            seat: other,
            table: again,
            name: PhantomData,
        };
        Ok((low, high))
    }

    fn join(self, next: SeatDeed<N>) -> SeatDeed<N> {
        let SeatDeed {
            root,
            range,
            mut seat,
            table,
            name: _,
        } = self;
        let SeatDeed {
            root: _,
            range: behind,
            seat: other,
            table: _,
            name: _,
        } = next;
        merge(&table, &mut seat, other);
        SeatDeed {
            root,
            range: range.join(behind),
            seat,
            table,
            name: PhantomData,
        }
    }
}
