//! The page that shows a server.
ghost use Rattle.std.specs.Prelude.{◌≡◌, ◌++◌, OnOk, IfOk};
ghost use Rattle.lease_watch.specs.Pages as spec;

use crate::bars::push_arenas;
use crate::markup::Markup;
use crate::metrics::push_version;
use crate::samples::push_number;
use crate::seen::{Seen, Version, Work};
use crate::tables::{push_tables, put};
use std::alloc::{AllocError, Global};

/// The page that shows a server, in HTML. It asks for nothing else, and is asked for again by
/// itself.
pub fn page_text(alloc: Global, seen: &Seen) -> Result<Vec<u8>, AllocError>
    ensures { IfOk result (λ text. text.items ≡ spec.page_text seen.now) }
{
    let mut out = Vec::new(alloc);
    push_head(&mut out, &seen.version, &seen.lately)?;
    put(&mut out, Markup::ArenasStart)?;
    push_arenas(&mut out, seen.arenas.as_slice())?;
    put(&mut out, Markup::ArenasEnd)?;
    push_tables(&mut out, seen)?;
    put(&mut out, Markup::End)?;
    Ok(out)
}

/// The head of the page, with what was done lately.
#[tactic(auto, unfolding(crate::specs::Pages::page_head))]
fn push_head(out: &mut Vec<u8>, version: &Version, lately: &Work) -> Result<(), AllocError>
    ensures { OnOk result
        (out.new.items ≡ out.old.items ++ spec.page_head version.now lately.now) }
{
    put(out, Markup::Start)?;
    push_version(out, version)?;
    put(out, Markup::HeadEnd)?;
    push_lately(out, lately)
}

/// How many lines a second.
#[tactic(auto, unfolding(crate::specs::Pages::rate))]
fn rate(lately: &Work) -> u64
    ensures { result ≡ spec.rate lately.now }
{
    if lately.seconds == 0 {
        0
    } else {
        lately.lines / lately.seconds
    }
}

/// What was done lately.
#[tactic(auto, unfolding(crate::specs::Pages::lately_text))]
fn push_lately(out: &mut Vec<u8>, lately: &Work) -> Result<(), AllocError>
    ensures { OnOk result (out.new.items ≡ out.old.items ++ spec.lately_text lately.now) }
{
    put(out, Markup::LatelyStart)?;
    push_number(out, u128::from(lately.seconds))?;
    put(out, Markup::LatelySeconds)?;
    push_number(out, u128::from(lately.lines))?;
    put(out, Markup::LatelyLines)?;
    push_number(out, u128::from(rate(lately)))?;
    put(out, Markup::LatelyRate)?;
    push_number(out, u128::from(lately.refused))?;
    put(out, Markup::LatelyEnd)
}
