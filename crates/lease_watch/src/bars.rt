//! The arenas of the page.
ghost use Rattle.std.specs.Prelude.{◌≡◌, ◌++◌, OnOk};
ghost use Rattle.std.specs.List.{flat_map};
ghost use Rattle.lease_watch.specs.Pages as spec;

use crate::families::{Home, homes};
use crate::markup::Markup;
use crate::samples::push_number;
use crate::seen::{ArenaSeen, UnitsSeen};
use crate::tables::{push_home_cell, put};
use lease_terms::ArenaName;
use std::alloc::AllocError;

/// How many thousandths of the span these units are.
#[tactic(auto, unfolding(crate::specs::Pages::thousandths))]
fn thousandths(units: u128, span: u128) -> u128
    ensures { result ≡ spec.thousandths units span }
{
    if span == 0 {
        return 0;
    }
    let share = units.saturating_mul(1000) / span;
    if share < 1000 { share } else { 1000 }
}

/// A part of a bar, from its begin on.
#[tactic(auto, unfolding(crate::specs::Pages::rect))]
fn push_rect(out: &mut Vec<u8>, home: Home, width: u128) -> Result<(), AllocError>
    ensures { OnOk result (out.new.items ≡ out.old.items ++ spec.rect home width) }
{
    put(out, Markup::RectStart)?;
    out.extend_from_slice(home.text())?;
    put(out, Markup::RectWidth)?;
    push_number(out, width)?;
    put(out, Markup::RectEnd)
}

/// A bar: leased units lie over the cached, and those over the exported.
#[tactic(auto, unfolding(crate::specs::Pages::bar))]
fn push_bar(out: &mut Vec<u8>, units: &UnitsSeen) -> Result<(), AllocError>
    ensures { OnOk result (out.new.items ≡ out.old.items ++ spec.bar units.now) }
{
    let cached = units
        .leased
        .saturating_add(units.slab)
        .saturating_add(units.magazine);
    let away = cached.saturating_add(units.exported);
    put(out, Markup::BarStart)?;
    push_rect(out, Home::Exported, thousandths(away, units.span))?;
    push_rect(out, Home::Magazine, thousandths(cached, units.span))?;
    push_rect(out, Home::Leased, thousandths(units.leased, units.span))?;
    put(out, Markup::BarEnd)
}

/// How many units of an arena have a home.
#[tactic(auto, unfolding(crate::specs::Pages::item))]
fn push_item(
    out: &mut Vec<u8>,
    arena: &ArenaName,
    home: Home,
    units: u128,
) -> Result<(), AllocError>
    ensures { OnOk result (out.new.items ≡ out.old.items ++ spec.item arena.now home units) }
{
    put(out, Markup::ItemStart)?;
    out.extend_from_slice(home.text())?;
    put(out, Markup::ItemName)?;
    out.extend_from_slice(home.text())?;
    put(out, Markup::Space)?;
    push_home_cell(out, arena, home, units)?;
    put(out, Markup::ItemEnd)
}

/// How many units of an arena have these homes.
fn push_items(out: &mut Vec<u8>, arena: &ArenaSeen, homes: &[Home]) -> Result<(), AllocError>
    ensures { OnOk result
        (out.new.items ≡ out.old.items ++ flat_map (spec.units_item arena.now) homes.now) }
{
    for home in homes {
        push_item(out, &arena.name, *home, arena.units.at(*home))?;
    }
    Ok(())
}

/// Where an arena imports from.
#[tactic(auto, unfolding(crate::specs::Pages::source_link))]
fn push_source(out: &mut Vec<u8>, source: &Option<ArenaName>) -> Result<(), AllocError>
    ensures { OnOk result (out.new.items ≡ out.old.items ++ spec.source_link source.now) }
{
    let Some(name) = source else {
        return Ok(());
    };
    put(out, Markup::SourceStart)?;
    out.extend_from_slice(name.as_slice())?;
    put(out, Markup::SourceName)?;
    out.extend_from_slice(name.as_slice())?;
    put(out, Markup::SourceEnd)
}

/// An arena's name and how it was set up.
#[tactic(auto, unfolding(crate::specs::Pages::arena_head))]
fn push_head(out: &mut Vec<u8>, arena: &ArenaSeen) -> Result<(), AllocError>
    ensures { OnOk result (out.new.items ≡ out.old.items ++ spec.arena_head arena.now) }
{
    put(out, Markup::ArenaStart)?;
    out.extend_from_slice(arena.name.as_slice())?;
    put(out, Markup::ArenaName)?;
    out.extend_from_slice(arena.name.as_slice())?;
    put(out, Markup::ArenaLimits)?;
    push_number(out, u128::from(arena.quantum))?;
    put(out, Markup::ArenaCached)?;
    push_number(out, u128::from(arena.qmax))?;
    push_source(out, &arena.source)
}

/// Where the leases of an arena are listed.
#[tactic(auto, unfolding(crate::specs::Pages::leases_link))]
fn push_link(out: &mut Vec<u8>, arena: &ArenaName) -> Result<(), AllocError>
    ensures { OnOk result (out.new.items ≡ out.old.items ++ spec.leases_link arena.now) }
{
    put(out, Markup::LeasesStart)?;
    out.extend_from_slice(arena.as_slice())?;
    put(out, Markup::LeasesEnd)
}

/// An arena, with a bar of its units.
#[tactic(auto, unfolding(crate::specs::Pages::arena_part))]
fn push_arena(out: &mut Vec<u8>, arena: &ArenaSeen) -> Result<(), AllocError>
    ensures { OnOk result (out.new.items ≡ out.old.items ++ spec.arena_part arena.now) }
{
    push_head(out, arena)?;
    push_link(out, &arena.name)?;
    push_bar(out, &arena.units)?;
    push_items(out, arena, homes())?;
    put(out, Markup::ArenaEnd)
}

/// All arenas.
pub(crate) fn push_arenas(out: &mut Vec<u8>, arenas: &[ArenaSeen]) -> Result<(), AllocError>
    ensures { OnOk result (out.new.items ≡ out.old.items ++ flat_map spec.arena_part arenas.now) }
{
    for arena in arenas {
        push_arena(out, arena)?;
    }
    Ok(())
}
