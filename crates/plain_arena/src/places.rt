//! The least place of a request in one range.
ghost use Rattle.std.specs.Prelude.{◌≡◌, ◌≢◌, ℕ, ◌+◌, ◌-◌, ◌*◌, ◌/◌, ◌%◌, ◌^◌, ◌<◌, ◌≤◌, IsTrue};
ghost use Rattle.std.specs.Prelude.{◌↔◌};
ghost use Rattle.std.specs.Int.{IsPowerOfTwo};
ghost use Rattle.deed_core.specs.Request.{IsGood};
ghost use Rattle.tag_arena.specs.Place.{IsLeast, IsPlace, Nest, OnGrid, ServesIn};

use crate::held_ranges::HeldRange;
use deed_core::Request;

/// The least number from `low` on that leaves `phase` when divided by `align`.
fn least_aligned(low: u64, align: u64, phase: u64) -> u64
    requires phase { phase < align }
    requires fits { low + align ≤ 2 ^ 64 }
    ensures from_low { low ≤ result }
    ensures near { result < low + align }
    ensures aligned { result % align ≡ phase }
    ensures least { (b : ℕ) → low ≤ b → b % align ≡ phase → result ≤ b }
{
    let rest = low % align;
    if rest <= phase {
        low + (phase - rest)
    } else {
        low + (align - rest + phase)
    }
}

/// Whether the `len` units from `base` on stay inside one block of `nocross` units.
fn stays_inside(base: u64, len: u64, nocross: u64) -> bool
    requires some { 0 < len }
    requires room { len ≤ nocross }
    ensures { IsTrue result ↔ (base / nocross ≡ (base + len - 1) / nocross) }
{
    base % nocross <= nocross - len
}

/// The least place of `len` units in `low` to `high`.
fn least_place(low: u64, high: u64, len: u64, align: u64, phase: u64, nocross: u64) -> Option<u64>
    requires low { low ≤ 2 ^ 62 }
    requires high { high ≤ 2 ^ 62 }
    requires some { 0 < len }
    requires align { align ≤ 2 ^ 63 }
    requires phase { phase < align }
    requires room { nocross ≢ 0 → len ≤ nocross }
    requires nest { nocross ≢ 0 → Nest align nocross }
    ensures { IsLeast (IsPlace low high len align phase nocross) result }
{
    let first = least_aligned(low, align, phase);
    if high < len || first > high - len {
        return None;
    }
    if nocross == 0 || stays_inside(first, len, nocross) {
        return Some(first);
    }

    // Every later place in the block of `first` reaches past its end too.
    let block = first - first % nocross + nocross;
    let second = least_aligned(block, align, phase);
    if second <= high - len && stays_inside(second, len, nocross) {
        Some(second)
    } else {
        None
    }
}

/// The block, and the place in it at which a base may stand.
fn grid(request: &Request, quantum: u64) -> (u64, u64)
    requires quantum { IsPowerOfTwo quantum }
    requires good { IsGood quantum request.now }
    ensures on_grid { (base : ℕ) → (base % result.0 ≡ result.1) ↔ OnGrid quantum request.now base }
    ensures phase { result.1 < result.0 }
    ensures align { result.0 ≤ 2 ^ 63 }
    ensures nest { request.now.nocross ≢ 0 → Nest result.0 request.now.nocross }
{
    if request.align == 0 {
        (quantum, 0)
    } else {
        (request.align, request.phase)
    }
}

/// The least base from `from` on at which the range serves the request, found in a number of steps
/// that no member of the request changes.
pub(crate) fn least_in(request: &Request, quantum: u64, range: HeldRange, from: u64) -> Option<u64>
    requires quantum { IsPowerOfTwo quantum }
    requires good { IsGood quantum request.now }
    requires from { from ≤ 2 ^ 62 }
    ensures { IsLeast (λ base. ServesIn quantum request.now range base × (from ≤ base)) result }
{
    let len = request.units(quantum)?;
    let (align, phase) = grid(request, quantum);
    let low = from.max(range.base()).max(request.min);
    let high = request.max.min(range.end());
    least_place(low, high, len, align, phase, request.nocross)
}
