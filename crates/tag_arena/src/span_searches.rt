//! Which span a unit, a range or a free range is in.
ghost use Rattle.std.specs.Prelude.{◌++◌, All, Any, Contains, MatchBool, MatchOption};
ghost use Rattle.deed_core.specs.Extent.{Covers, Overlap};
ghost use Rattle.tag_arena.specs.Spanned.{holdings_of, AreDisjoint};

use crate::held_ranges::HeldRange;
use crate::spans::Spans;
use deed_core::Range;

/// Whether a span overlaps the range.
pub(crate) fn overlaps(spans: &Spans, range: &Range) -> bool
    requires { AreDisjoint (holdings_of spans.now.items) }
    ensures { let held = holdings_of spans.now.items in
        MatchBool result (Any (λ s. Overlap s.range range.now) held)
        (All (λ s. ¬ Overlap s.range range.now) held) }
{
    let Some(first) = spans.first_past(range.base()) else {
        return false;
    };
    if first.span().base() >= range.end() {
        return false;
    }
    true
}

/// The span that `unit` lies in.
fn covering(spans: &Spans, unit: u64) -> Option<HeldRange>
    requires { AreDisjoint (holdings_of spans.now.items) }
    ensures { let held = holdings_of spans.now.items in
        MatchOption result (All (λ s. ¬ Covers s.range unit) held)
        (λ s. Contains held s × Covers s.range unit) }
{
    let Some(first) = spans.first_past(unit) else {
        return None;
    };
    if first.span().base() > unit {
        return None;
    }
    Some(first.span())
}

/// The span that `unit` lies in, of the owned ones and the imported ones.
pub(crate) fn span_at(owned: &Spans, imported: &Spans, unit: u64) -> Option<HeldRange>
    requires owned { AreDisjoint (holdings_of owned.now.items) }
    requires imported { AreDisjoint (holdings_of imported.now.items) }
    ensures { let spans = holdings_of owned.now.items ++ holdings_of imported.now.items in
        MatchOption result (All (λ s. ¬ Covers s.range unit) spans)
        (λ s. Contains spans s × Covers s.range unit) }
{
    if let Some(span) = covering(owned, unit) {
        return Some(span);
    }
    covering(imported, unit)
}

/// Whether it is one of the spans.
pub(crate) fn is_span(spans: &Spans, range: HeldRange) -> bool
    requires { AreDisjoint (holdings_of spans.now.items) }
    ensures { let held = holdings_of spans.now.items in
        MatchBool result (Contains held range) (¬ Contains held range) }
{
    let Some(first) = spans.first_past(range.base()) else {
        return false;
    };
    if first.span() != range {
        return false;
    }
    true
}
