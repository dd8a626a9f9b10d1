//! What an operator is told of the arenas and of the clients.
ghost use Rattle.std.specs.Prelude.{◌≡◌, ◌++◌, ◌<◌, ◌-◌, ◌^◌, min, map, length, sum_by, OnOk};
ghost use Rattle.std.specs.Prelude.{OnErr};
ghost use Rattle.std.specs.Prelude.{slice_get, Some};
ghost use Rattle.std.specs.Io.{StartsWith};
ghost use Rattle.std.specs.List.{flat_map};
ghost use Rattle.lease_book.specs.Reports.{report_of};
ghost use Rattle.deed_core.specs.Covering.{units_tagged};
ghost use Rattle.arena_tree.specs.declared.trees.TreeArena.{TreeArena};
ghost use Rattle.stock.specs.Spaces.{SpaceState};
ghost use Rattle.local_parts.specs.Cpus.{arena_rounds};
ghost use Rattle.lease_proto.specs.Reports.{audit_text};
ghost use Rattle.lease_machine.specs.Operators.{audit_line, audit_texts_of, client_text_of};
ghost use Rattle.lease_machine.specs.Operators.{sums_in};
ghost use Rattle.lease_machine.specs.Picture.{Picture, IsPicture};
ghost use Rattle.stock_desk.specs.Supplies.{HasParts};

use crate::cpus::Cpu;
use arena_tree::Tree;
use deed_core::PlainDeed;
use lease_book::{Book, ClientReport};
use lease_proto::{AuditLine, ClientLine};
use std::alloc::AllocError;
use stock::Stock;
use stock_audit::{UnitsOut, audit_units};

/// Appends the lines that tell where each arena's units are.
pub(crate) fn audit(
    tree: &Tree,
    stock: &Stock<PlainDeed>,
    cpus: &[Cpu],
    book: &Book<PlainDeed>,
    out: &mut Vec<u8>,
) -> Result<(), AllocError>
    requires { (d : Picture) × IsPicture d × HasParts tree.now stock.now cpus.now book.now d }
    ensures ok { OnOk result ((d : Picture) → IsPicture d
        → HasParts tree.now stock.now cpus.now book.now d
        → out.new.items ≡ out.old.items ++ audit_texts_of d d.tree d.spaces) }
    ensures begun { OnErr result (StartsWith out.new.items out.old.items) }
{
    for arena in 0..tree.len() as u32 {
        tell_arena(tree, stock, cpus, book, arena, out)?;
    }
    Ok(())
}

/// Appends the line that tells where an arena's units are.
fn tell_arena(
    tree: &Tree,
    stock: &Stock<PlainDeed>,
    cpus: &[Cpu],
    book: &Book<PlainDeed>,
    arena: u32,
    out: &mut Vec<u8>,
) -> Result<(), AllocError>
    requires parts { (d : Picture) × IsPicture d
        × HasParts tree.now stock.now cpus.now book.now d }
    requires within { arena < length tree.now }
    ensures ok { OnOk result ((d : Picture) (x : TreeArena) (s : SpaceState) → IsPicture d
        → HasParts tree.now stock.now cpus.now book.now d
        → slice_get tree.now arena ≡ Some x → slice_get stock.now arena ≡ Some s
        → out.new.items ≡ out.old.items ++ audit_text (audit_line x.name (sums_in d s))) }
    ensures begun { OnErr result (StartsWith out.new.items out.old.items) }
{
    // For their clauses: what is always so of a stock, and how many units an arena's spans have.
    let _ = stock.count();
    let _ = stock.arena_report(arena as usize);
    let away = UnitsOut {
        rounds: rounds_of(cpus, arena as usize),
        leased: book.units(arena),
        hand: 0,
    };
    let sums = audit_units(stock, arena as usize, away);
    let line = AuditLine {
        name: tree.arena(arena).name,
        free: sums.free,
        slab: sums.slab,
        magazine: sums.magazine,
        exported: sums.exported,
        leased: sums.leased,
        hand: sums.hand,
    };
    line.write(out)
}

/// How many units of an arena's rounds the CPUs have, or the greatest number where they are more.
fn rounds_of(cpus: &[Cpu], arena: usize) -> u128
    ensures { result ≡ min (sum_by (λ c. units_tagged (arena_rounds c.caches arena)) cpus.now)
        (2 ^ 128 - 1) }
{
    let mut units: u128 = 0;
    for cpu in cpus {
        units = units.saturating_add(cpu.caches.units(arena));
    }
    units
}

/// Appends a line for each client, in order of first hello.
pub(crate) fn clients(book: &Book<PlainDeed>, out: &mut Vec<u8>) -> Result<(), AllocError>
    ensures ok { OnOk result (out.new.items
        ≡ out.old.items ++ flat_map client_text_of (map report_of book.now.accounts)) }
    ensures begun { OnErr result (StartsWith out.new.items out.old.items) }
{
    for index in 0..book.clients() {
        let Some(report) = book.client_at(index) else {
            unreachable!();
        };
        tell_client(&report, out)?;
    }
    Ok(())
}

/// Appends the line that tells of a client.
fn tell_client(report: &ClientReport, out: &mut Vec<u8>) -> Result<(), AllocError>
    ensures ok { OnOk result (out.new.items ≡ out.old.items ++ client_text_of report.now) }
    ensures unchanged { OnErr result (out.new.items ≡ out.old.items) }
{
    let line = ClientLine {
        client: report.client,
        incarnation: report.incarnation,
        last: report.last,
        leases: report.leases,
    };
    line.write(out)
}
