//! The samples of a server.
ghost use Rattle.std.specs.Prelude.{◌≡◌, ◌++◌, codes, OnOk, IfOk};
ghost use Rattle.std.specs.List.{flat_map};
ghost use Rattle.lease_watch.specs.Metrics as spec;
ghost use Rattle.lease_watch.specs.Samples.{label};

use crate::families::{Family, Home, homes};
use crate::samples::{
    push_closing, push_head, push_home, push_label, push_number, push_number_label, push_opening,
    push_plain, push_word,
};
use crate::seen::{ArenaSeen, Seen, Version};
use crate::words::{Word, WordCounts, count_of};
use lease_terms::ArenaName;
use std::alloc::{AllocError, Global};

/// How many families of one sample there are.
const PLAIN_FAMILIES: usize = 8;

/// All samples of a server, in the text format of Prometheus.
pub fn metrics_text(alloc: Global, seen: &Seen) -> Result<Vec<u8>, AllocError>
    ensures { IfOk result (λ text. text.items ≡ spec.metrics_text seen.now) }
{
    let mut out = Vec::new(alloc);
    push_build(&mut out, &seen.version)?;
    push_values(&mut out, &plain_values(seen))?;
    push_counts(&mut out, &seen.counts)?;
    push_arenas(&mut out, seen.arenas.as_slice())?;
    Ok(out)
}

/// The families of one sample each, with their values.
#[tactic(auto, unfolding(crate::specs::Metrics::plain_values))]
pub(crate) fn plain_values(seen: &Seen) -> [(Family, u64); PLAIN_FAMILIES]
    ensures { result ≡ spec.plain_values seen.now }
{
    [
        (Family::Uptime, seen.uptime),
        (Family::Clients, seen.clients),
        (Family::Leases, seen.leases),
        (Family::Connections, seen.connections.served),
        (Family::ConnectionsTotal, seen.connections.total),
        (Family::ConnectionsRefused, seen.connections.refused),
        (Family::ConnectionsFailed, seen.connections.failed),
        (Family::CpuWaits, seen.cpu_waits),
    ]
}

/// These families.
fn push_values(out: &mut Vec<u8>, values: &[(Family, u64)]) -> Result<(), AllocError>
    ensures { OnOk result (out.new.items ≡ out.old.items ++ flat_map spec.plain_of values.now) }
{
    for value in values {
        push_plain(out, value.0, value.1)?;
    }
    Ok(())
}

/// Which program it is.
#[tactic(auto, unfolding(crate::specs::Metrics::build_text))]
fn push_build(out: &mut Vec<u8>, version: &Version) -> Result<(), AllocError>
    ensures { OnOk result (out.new.items ≡ out.old.items ++ spec.build_text version.now) }
{
    push_head(out, Family::Build)?;
    push_opening(out, Family::Build)?;
    push_version_label(out, version)?;
    push_closing(out, 1)
}

/// The label that has its version.
#[tactic(auto, unfolding(crate::specs::Samples::label))]
fn push_version_label(out: &mut Vec<u8>, version: &Version) -> Result<(), AllocError>
    ensures { OnOk result (out.new.items
        ≡ out.old.items ++ label (codes "version") (spec.version_text version.now)) }
{
    out.extend_from_slice(b"version=\"")?;
    push_version(out, version)?;
    out.extend_from_slice(b"\"")
}

/// As 1.2.3.
pub(crate) fn push_version(out: &mut Vec<u8>, version: &Version) -> Result<(), AllocError>
    ensures { OnOk result (out.new.items ≡ out.old.items ++ spec.version_text version.now) }
{
    push_number(out, u128::from(version.major))?;
    out.extend_from_slice(b".")?;
    push_number(out, u128::from(version.minor))?;
    out.extend_from_slice(b".")?;
    push_number(out, u128::from(version.patch))
}

/// What was asked and answered.
#[tactic(auto, unfolding(crate::specs::Metrics::counts_text))]
fn push_counts(out: &mut Vec<u8>, counts: &WordCounts) -> Result<(), AllocError>
    ensures { OnOk result (out.new.items ≡ out.old.items ++ spec.counts_text counts.now) }
{
    push_words(out, Family::Lines, counts)?;
    push_words(out, Family::Replies, counts)?;
    push_words(out, Family::Refusals, counts)
}

/// The samples of a family whose samples have a word each.
#[tactic(auto, unfolding(crate::specs::Metrics::words_text))]
fn push_words(out: &mut Vec<u8>, family: Family, counts: &WordCounts) -> Result<(), AllocError>
    ensures { OnOk result (out.new.items ≡ out.old.items ++ spec.words_text family counts.now) }
{
    push_head(out, family)?;
    push_each_word(out, family, family.words(), counts)
}

/// A sample for each of these words.
fn push_each_word(
    out: &mut Vec<u8>,
    family: Family,
    words: &[Word],
    counts: &WordCounts,
) -> Result<(), AllocError>
    ensures { OnOk result (out.new.items
        ≡ out.old.items ++ flat_map (spec.counted_sample family counts.now) words.now) }
{
    for word in words {
        push_word(out, family, *word, count_of(counts, *word))?;
    }
    Ok(())
}

/// What each arena was set up as, and where its units are.
#[tactic(auto, unfolding(crate::specs::Metrics::arenas_text))]
fn push_arenas(out: &mut Vec<u8>, arenas: &[ArenaSeen]) -> Result<(), AllocError>
    ensures { OnOk result (out.new.items ≡ out.old.items ++ spec.arenas_text arenas.now) }
{
    push_head(out, Family::Setups)?;
    push_setups(out, arenas)?;
    push_head(out, Family::Units)?;
    push_units(out, arenas)
}

/// What each was set up as.
fn push_setups(out: &mut Vec<u8>, arenas: &[ArenaSeen]) -> Result<(), AllocError>
    ensures { OnOk result (out.new.items ≡ out.old.items ++ flat_map spec.setup_text arenas.now) }
{
    for arena in arenas {
        push_setup(out, arena)?;
    }
    Ok(())
}

/// How an arena was set up.
#[tactic(auto, unfolding(crate::specs::Metrics::setup_text))]
fn push_setup(out: &mut Vec<u8>, arena: &ArenaSeen) -> Result<(), AllocError>
    ensures { OnOk result (out.new.items ≡ out.old.items ++ spec.setup_text arena.now) }
{
    push_opening(out, Family::Setups)?;
    push_names(out, arena)?;
    out.extend_from_slice(b",")?;
    push_limits(out, arena)?;
    push_closing(out, 1)
}

/// The labels that have its name and its source.
#[tactic(auto, unfolding(crate::specs::Metrics::names_text))]
fn push_names(out: &mut Vec<u8>, arena: &ArenaSeen) -> Result<(), AllocError>
    ensures { OnOk result (out.new.items ≡ out.old.items ++ spec.names_text arena.now) }
{
    push_label(out, b"arena", arena.name.as_slice())?;
    out.extend_from_slice(b",")?;
    push_source(out, &arena.source)
}

/// Those that have its quantum and its qmax.
#[tactic(auto, unfolding(crate::specs::Metrics::limits_text))]
fn push_limits(out: &mut Vec<u8>, arena: &ArenaSeen) -> Result<(), AllocError>
    ensures { OnOk result (out.new.items ≡ out.old.items ++ spec.limits_text arena.now) }
{
    push_number_label(out, b"quantum", arena.quantum)?;
    out.extend_from_slice(b",")?;
    push_number_label(out, b"qmax", arena.qmax)
}

/// The name of its source, or no text for a root.
fn push_source(out: &mut Vec<u8>, source: &Option<ArenaName>) -> Result<(), AllocError>
    ensures { OnOk result
        (out.new.items ≡ out.old.items ++ label (codes "source") (spec.source_text source.now)) }
{
    match source {
        Some(name) => push_label(out, b"source", name.as_slice()),
        None => push_label(out, b"source", b""),
    }
}

/// Where the units of each are.
fn push_units(out: &mut Vec<u8>, arenas: &[ArenaSeen]) -> Result<(), AllocError>
    ensures { OnOk result (out.new.items ≡ out.old.items ++ flat_map spec.units_text arenas.now) }
{
    for arena in arenas {
        push_homes(out, arena, homes())?;
    }
    Ok(())
}

/// The units of an arena that have these homes.
fn push_homes(out: &mut Vec<u8>, arena: &ArenaSeen, homes: &[Home]) -> Result<(), AllocError>
    ensures { OnOk result
        (out.new.items ≡ out.old.items ++ flat_map (spec.units_sample arena.now) homes.now) }
{
    for home in homes {
        push_home(out, &arena.name, *home, arena.units.at(*home))?;
    }
    Ok(())
}
