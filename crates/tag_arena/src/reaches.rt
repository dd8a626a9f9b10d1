//! How much of a free range a kind of request can use, whatever its size and its window.
ghost use Rattle.std.specs.Prelude.{◌≡◌, ◌≢◌, ℕ, ◌%◌, ◌^◌, ◌<◌, ◌≤◌, ◌↔◌, max, min};
ghost use Rattle.std.specs.Int.{IsPowerOfTwo};
ghost use Rattle.deed_core.specs.Request.{IsGood};
ghost use Rattle.tag_arena.specs.Place.{OnGrid};
ghost use Rattle.tag_arena.specs.Reach.{reach_of};

use crate::places::{grid, least_aligned, rest_in};
use deed_core::Request;
use std::marker::Model;

/// Where units may stand: from a base at the phase in its block of `align` on, and, where `nocross`
/// isn't 0, inside a block of so many.
#[derive(Clone, Copy, PartialEq, Eq, Debug)]
pub(crate) struct Grid {
    align: u64,
    phase: u64,
    nocross: u64,
}

impl Model for Grid {
    ghost use Rattle.std.specs.Prelude.{◌≤◌, ◌<◌, ◌≢◌, ◌^◌};
    ghost use Rattle.std.specs.Int.{IsPowerOfTwo};
    ghost use Rattle.tag_arena.specs.Reach.{GridState};

    ghost Value = { GridState };

    ghost view = { λ g. record { align = g.align; phase = g.phase; nocross = g.nocross } };

    ghost invariant = { λ g. (g.phase < g.align) × (g.align ≤ 2 ^ 63)
        × IsPowerOfTwo g.align × (g.nocross ≢ 0 → IsPowerOfTwo g.nocross) };

    ghost inverse = { λ g. record { align = g.align; phase = g.phase; nocross = g.nocross } };
}

impl Grid {
    /// The request's own, with the quantum for an `align` of 0.
    pub(crate) fn of(request: &Request, quantum: u64) -> Grid
        requires quantum { IsPowerOfTwo quantum }
        requires good { IsGood quantum request.now }
        ensures on_grid { (base : ℕ) →
            (base % result.align ≡ result.phase) ↔ OnGrid quantum request.now base }
        ensures phase { result.phase < result.align }
        ensures nocross { result.nocross ≡ request.now.nocross }
    {
        let (align, phase) = grid(request, quantum);
        Grid {
            align,
            phase,
            nocross: request.nocross,
        }
    }

    /// No more units than this can stand so from `base` to `end`. Where they stand in a later block
    /// than the first base, what is before its first base isn't taken off.
    pub(crate) fn reach(&self, base: u64, end: u64) -> u64
        requires base { base ≤ 2 ^ 62 }
        requires end { end ≤ 2 ^ 62 }
        ensures { result ≡ reach_of self.now base end }
    {
        let Grid {
            align,
            phase,
            nocross,
        } = *self;
        let first = least_aligned(base, align, phase);
        if first >= end {
            return 0;
        }
        if nocross == 0 {
            return end - first;
        }
        let edge = first - rest_in(first, nocross) + nocross;
        if edge >= end {
            return end - first;
        }
        let second = least_aligned(edge, align, phase);
        (edge - first).max(end.saturating_sub(second).min(nocross))
    }
}

/// By what the entries of an index are weighed.
#[derive(Clone, Copy, PartialEq, Eq, Debug)]
pub(crate) enum Measure {
    /// By the second number of the key: the length, in the rising order. Each row's head keeps it
    /// from the first on, so that no search of `next` has to weigh all ranges.
    Minor,
    /// By how many units can stand so in the range, in the order of sizes.
    Reach(Grid),
}
