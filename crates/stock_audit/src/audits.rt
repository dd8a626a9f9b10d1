//! The sums of an audit.
ghost use Rattle.std.specs.Prelude.{◌<◌, List, length};
ghost use Rattle.deed_core.specs.Tag.{Tag};
ghost use Rattle.stock.specs.Accounts.{Accounts};
ghost use Rattle.stock.specs.Sums.{Out, as_leased};
ghost use Rattle.stock_audit.specs.Outside.{outside, out_of, segments_out};
ghost use Rattle.stock_audit.specs.Audits.{IsTally, IsBalanced, TellsSums};

use crate::lists::{rounds_units, units_of};
use deed_core::{Deed, Segment};
use stock::{ArenaSums, OwnCache, Stock};

/// The units of one arena that are out of its stock, by where they are.
#[derive(Clone, Copy, PartialEq, Eq, Debug)]
pub struct UnitsOut {
    /// In the CPUs' magazines.
    pub rounds: u128,
    /// Leased.
    pub leased: u128,
    /// In hands.
    pub hand: u128,
}

/// The sums of the arena at the index, where these segments are out, and no others. It takes no
/// memory.
pub fn audit<D: Deed>(
    stock: &Stock<D>,
    arena: usize,
    hands: &[Segment<D>],
    leases: &[Segment<D>],
    cpus: &[OwnCache<D>],
) -> ArenaSums
    requires within { arena < length stock.now }
    requires balanced { Accounts stock.now (segments_out (outside hands.now leases.now cpus.now)) }
    ensures { TellsSums stock.now arena (out_of (outside hands.now leases.now cpus.now)) result }
{
    // For their clauses: what is always so of a stock, and how many units an arena's spans have.
    let _ = stock.count();
    let _ = stock.arena_report(arena);
    let out = UnitsOut {
        rounds: rounds_units(cpus, arena),
        leased: units_of(leases, arena),
        hand: units_of(hands, arena),
    };
    audit_units(stock, arena, out)
}

/// The same where the caller counts what is out, as by a book of leases. Exported is what other
/// arenas imported. It goes over the arenas, and over the arena's slabs and depots, in constant
/// time each.
pub fn audit_units<D: Deed>(stock: &Stock<D>, arena: usize, out: UnitsOut) -> ArenaSums
    requires within { arena < length stock.now }
    requires balanced { IsBalanced stock.now arena out }
    ensures { (o : Out) → IsTally arena o out → TellsSums stock.now arena o result }
{
    let sums = stock.arena_sums(arena);
    with_out(stock, arena, sums, out)
}

/// The same, counted by parts: one round of the depots after another, and exported is what is left
/// of what is allocated.
pub fn audit_units_by_parts<D: Deed>(stock: &Stock<D>, arena: usize, out: UnitsOut) -> ArenaSums
    requires within { arena < length stock.now }
    requires balanced { IsBalanced stock.now arena out }
    ensures { (o : Out) → IsTally arena o out → TellsSums stock.now arena o result }
{
    // For its clause: what is always so of a stock.
    let _ = stock.count();
    let report = stock.arena_report(arena);
    let sums = stock.sums_by_parts(arena);
    let UnitsOut {
        rounds,
        leased,
        hand,
    } = out;
    let magazine = sums.magazine + rounds;
    let elsewhere = sums.slab + magazine + leased + hand;
    ArenaSums {
        free: report.free,
        slab: sums.slab,
        magazine,
        exported: report.allocated - elsewhere,
        leased,
        hand,
    }
}

/// The sums of an arena of which the stock tells these, as it counts all that is out as leased.
fn with_out<D: Deed>(stock: &Stock<D>, arena: usize, sums: ArenaSums, out: UnitsOut) -> ArenaSums
    requires within { arena < length stock.now }
    requires balanced { IsBalanced stock.now arena out }
    requires told { (all : List Tag) → Accounts stock.now all
        → TellsSums stock.now arena (as_leased all) sums }
    ensures { (o : Out) → IsTally arena o out → TellsSums stock.now arena o result }
{
    // For their clauses: what is always so of a stock, and how many units an arena's spans have.
    let _ = stock.count();
    let _ = stock.arena_report(arena);
    ArenaSums {
        free: sums.free,
        slab: sums.slab,
        magazine: sums.magazine + out.rounds,
        exported: sums.exported,
        leased: out.leased,
        hand: out.hand,
    }
}
