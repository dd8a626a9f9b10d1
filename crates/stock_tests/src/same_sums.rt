//! What a stock tells of an arena by itself, by counts and by parts, beside an audit that goes over
//! all that is out of it.
ghost use Rattle.std.specs.Prelude.{List};
ghost use Rattle.deed_core.specs.Tag.{Tag};
ghost use Rattle.stock.specs.Accounts.{Accounts};

use deed_core::PlainDeed;
use std::process::Abort;
use stock::{OwnCache, Stock, SumsRoom};
use stock_audit::ArenaSums;

/// The stock's sums of the arena are those that an audit told, where all that is out counts as
/// leased: the rounds of this CPU, which has all that CPUs have, are no magazine's.
pub(crate) fn same_sums(
    rt: &impl Abort,
    stock: &Stock<PlainDeed>,
    arena: usize,
    cpu: &OwnCache<PlainDeed>,
    told: ArenaSums,
)
    requires { (out : List Tag) × Accounts stock.now out }
{
    assert!(rt; arena < stock.count());
    let rounds = if cpu.indexes().0 == arena {
        cpu.units()
    } else {
        0
    };
    let mut room = SumsRoom::new();
    let told_of_each = stock.sums(&mut room);
    assert_eq!(rt; told_of_each.len(), stock.count());
    let sums = told_of_each[arena];
    assert_eq!(rt; sums, stock.sums_by_parts(arena));
    assert_eq!(rt; sums.free, told.free);
    assert_eq!(rt; sums.slab, told.slab);
    assert_eq!(rt; sums.magazine.saturating_add(rounds), told.magazine);
    assert_eq!(rt; sums.exported, told.exported);
    let out = told.leased.saturating_add(told.hand);
    assert_eq!(rt; sums.leased, out.saturating_add(rounds));
    assert_eq!(rt; sums.hand, 0);
}
