//! What is seen of a running system, as values.
ghost use Rattle.std.specs.Prelude.{◌≡◌, ◌<◌, ◌++◌, [], ◌∷◌, IfOk, OnOk, length};
ghost use Rattle.std.specs.List.{flat_map};
ghost use Rattle.lease_threads.specs.Sums.{AreSumsOf};
ghost use Rattle.lease_threads.specs.declared.sums.SystemSums.{SystemSums};
ghost use Rattle.vmemd.specs.Watching as spec;

use arena_tree::TreeArena;
use deed_table::Name;
use lease_book::LeaseReport;
use lease_terms::{ArenaName, ClientId};
use lease_threads::{System, SystemSums};
use lease_watch::{ArenaSeen, LeaseRow, UnitsSeen};
use std::alloc::{AllocError, Global};
use std::sync::Wait;

/// Each arena, in order of setup, with its units.
pub(crate) fn arenas_of<N: Name, R: Wait>(
    rt: &R,
    alloc: Global,
    system: &System<N>,
) -> Result<Vec<ArenaSeen>, AllocError>
    ensures { IfOk result (λ seen. spec.AreArenasSeen system.now.arenas seen.items) }
{
    let sums = sums_of(rt, alloc, system)?;
    let tree = system.tree();
    let mut seen = Vec::new(alloc);
    for arena in 0..tree.len() as u32 {
        if let Some(one) = arena_at(tree.arenas(), sums.as_slice(), arena) {
            seen.push(one)?;
        }
    }
    Ok(seen)
}

/// The sums of each arena, in order of setup, each part as it is under its own lock.
fn sums_of<N: Name, R: Wait>(
    rt: &R,
    alloc: Global,
    system: &System<N>,
) -> Result<Vec<SystemSums>, AllocError>
    ensures { IfOk result
        (λ sums. spec.AreSumsOfEach system.now.arenas (length system.now.arenas) sums.items) }
{
    let mut sums = Vec::new(alloc);
    for arena in 0..system.tree().len() as u32 {
        push_sums(rt, system, arena, &mut sums)?;
    }
    Ok(sums)
}

/// Puts the sums of the arena with this number behind others.
fn push_sums<N: Name, R: Wait>(
    rt: &R,
    system: &System<N>,
    arena: u32,
    sums: &mut Vec<SystemSums>,
) -> Result<(), AllocError>
    requires { arena < length system.now.arenas }
    ensures { OnOk result ((one : SystemSums) × AreSumsOf system.now.arenas arena one
        × (sums.new.items ≡ sums.old.items ++ one ∷ [])) }
{
    let Some(of) = system.sums(rt, arena) else {
        unreachable!()
    };
    sums.push(of)?;
    Ok(())
}

/// The arena with this number, with its units, by the sums of each arena.
fn arena_at(arenas: &[TreeArena], sums: &[SystemSums], number: u32) -> Option<ArenaSeen>
    ensures { result ≡ spec.arena_at arenas.now sums.now number }
{
    let arena = arenas.get(number as usize)?;
    let of = sums.get(number as usize)?;
    let exported = exported_by(arenas, sums, number);
    Some(arena_seen(arenas, arena, units_of(of, exported)))
}

/// An arena of these, with its units.
fn arena_seen(arenas: &[TreeArena], arena: &TreeArena, units: UnitsSeen) -> ArenaSeen
    ensures { result ≡ spec.arena_seen arenas.now arena.now units }
{
    ArenaSeen {
        name: arena.name,
        quantum: arena.quantum,
        qmax: arena.qcache_max,
        source: name_at(arenas, arena.source),
        units,
    }
}

/// The name of the arena with this number.
fn name_at(arenas: &[TreeArena], number: Option<u32>) -> Option<ArenaName>
    ensures { result ≡ spec.name_at arenas.now number }
{
    let arena = arenas.get(number? as usize)?;
    Some(arena.name)
}

/// The units of the spans of the arenas that import from this one.
fn exported_by(arenas: &[TreeArena], sums: &[SystemSums], source: u32) -> u128
    ensures { result ≡ spec.exported_by arenas.now sums.now source }
{
    let mut exported: u128 = 0;
    for (child, of) in arenas.iter().zip(sums.iter()) {
        exported = exported.saturating_add(imported_from(child, of, source));
    }
    exported
}

/// The units of an arena's spans, if it imports from this one.
fn imported_from(child: &TreeArena, sums: &SystemSums, source: u32) -> u128
    ensures { result ≡ spec.imported_from source child.now sums.now }
{
    if child.source == Some(source) {
        sums.free.saturating_add(sums.allocated)
    } else {
        0
    }
}

/// An arena's units by where they are. Those in the magazines of CPUs can't all be looked at, so
/// what is allocated and in no other place counts as in magazines, also what is in a hand.
fn units_of(sums: &SystemSums, exported: u128) -> UnitsSeen
    ensures { result ≡ spec.units_of sums.now exported }
{
    let elsewhere = sums
        .slab
        .saturating_add(exported)
        .saturating_add(sums.leased);
    UnitsSeen {
        span: sums.free.saturating_add(sums.allocated),
        free: sums.free,
        slab: sums.slab,
        magazine: sums.allocated.saturating_sub(elsewhere),
        exported,
        leased: sums.leased,
    }
}

/// Puts the leases of a client behind the rows.
pub(crate) fn push_rows(
    arenas: &[TreeArena],
    client: ClientId,
    leases: &[LeaseReport],
    rows: &mut Vec<LeaseRow>,
) -> Result<(), AllocError>
    ensures { OnOk result (rows.new.items
        ≡ rows.old.items ++ flat_map (spec.rows_of arenas.now client) leases.now) }
{
    for lease in leases {
        push_row(arenas, client, lease, rows)?;
    }
    Ok(())
}

/// Puts a lease there, if its arena is one of these.
fn push_row(
    arenas: &[TreeArena],
    client: ClientId,
    lease: &LeaseReport,
    rows: &mut Vec<LeaseRow>,
) -> Result<(), AllocError>
    ensures { OnOk result (rows.new.items
        ≡ rows.old.items ++ spec.rows_of arenas.now client lease.now) }
{
    let Some(name) = name_at(arenas, Some(lease.arena)) else {
        return Ok(());
    };
    rows.push(LeaseRow {
        arena: name,
        base: lease.base,
        units: lease.units,
        client: client.get(),
        incarnation: lease.incarnation.get(),
        request: lease.number.get(),
    })?;
    Ok(())
}
