//! The events of a slab cache under its lock, once it was looked whether it is the one that is
//! meant.
ghost use Rattle.std.specs.Prelude.{◌≡◌, ◌↔◌, IfErr, IfNone, IfOk, IfSome, IsOk, IsTrue};
ghost use Rattle.std.specs.Prelude.{OnErr};
ghost use Rattle.slab_layer.specs.Calls.{TakeOf, AddOf, PutOf, ReapOf};
ghost use Rattle.slab_layer.specs.Cache.{deeds_of};
ghost use Rattle.deed_core.specs.Covering.{units_held};
ghost use Rattle.arena_tree.specs.Events.{segment_of_slab_add};
ghost use Rattle.locked_parts.specs.Answers.{IsSpanOfKind};
ghost use Rattle.locked_parts.specs.Kinds.{IsOfKind, AreSlabsOf};
ghost use Rattle.locked_parts.specs.Saying.{number_of_cache, slabs_said};
ghost use Rattle.locked_parts.specs.Sums.{SlabsTell};
ghost use Rattle.locked_parts.specs.Words.{given_word, put_word, add_word};
ghost use Rattle.locked_parts.specs.declared.kinds.CacheKind.{CacheKind};

use crate::gates::NextStep;
use crate::kinds::CacheKind;
use crate::said::Said;
use crate::words::{Word, word_of_add, word_of_given, word_of_put};
use arena_tree::GivenFault;
use deed_core::{Deed, Route, Segment};
use slab_layer::{AddFault, PutFault, SlabCache};
use std::marker::Model;

/// What the slabs of this quantum cache answered, and at which step they were asked. Only the
/// functions of this module make one, where the slabs are asked.
#[derive(Clone, Copy, PartialEq, Eq, Debug)]
pub struct SlabSaid {
    kind: CacheKind,
    step: NextStep,
    word: Word,
}

impl Model for SlabSaid {
    ghost use Rattle.locked_parts.specs.Words.{CacheSaidState};

    ghost Value = { CacheSaidState };

    ghost view = { λ s. record { kind = s.kind; step = s.step; word = s.word } };

    ghost inverse = { λ s. record { kind = s.kind; step = s.step; word = s.word } };
}

/// That they answered so.
fn slabs_say(kind: CacheKind, step: NextStep, word: Word) -> Said
    ensures { result ≡ slabs_said kind step word }
{
    Said::Slab(SlabSaid { kind, step, word })
}

/// The number of the cache that a chunk is of; 0 of what is no chunk.
pub(crate) fn cache_number(route: Route) -> u8
    ensures { result ≡ number_of_cache route }
{
    match route {
        Route::Direct => 0,
        Route::Cached(number) => number,
    }
}

/// Whether they are the slabs of this quantum cache.
fn are_slabs_of<D: Deed>(slab: &SlabCache<D>, kind: &CacheKind) -> bool
    ensures { IsTrue result ↔ AreSlabsOf kind.now slab.now }
{
    slab.arena() == kind.arena && slab.k() == kind.number && slab.quantum() == kind.quantum
}

/// That slabs are others than those of this quantum cache, which were sought. Only `look_at_slabs`
/// makes one.
#[derive(PartialEq, Eq, Debug, Drop)]
pub(crate) struct OtherSlabs {
    sought: CacheKind,
}

impl Model for OtherSlabs {
    ghost use Rattle.locked_parts.specs.declared.kinds.CacheKind.{CacheKind};

    ghost Value = { CacheKind };

    ghost view = { λ o. o.sought };

    ghost inverse = { λ k. record { sought = k } };
}

/// Looks whether they are the slabs of the quantum cache that is sought.
pub(crate) fn look_at_slabs<D: Deed>(
    slab: &SlabCache<D>,
    sought: &CacheKind,
) -> Result<(), OtherSlabs>
    ensures exactly { IsOk result ↔ AreSlabsOf sought.now slab.now }
    ensures other { IfErr result (λ other. other ≡ sought.now) }
{
    if !are_slabs_of(slab, sought) {
        return Err(OtherSlabs { sought: *sought });
    }
    Ok(())
}

/// Which quantum cache they are of.
fn kind_of<D: Deed>(slab: &SlabCache<D>) -> CacheKind
    ensures of { AreSlabsOf result slab.now }
    ensures only { (kind : CacheKind) → AreSlabsOf kind slab.now → result ≡ kind }
{
    CacheKind {
        arena: slab.arena(),
        number: slab.k(),
        quantum: slab.quantum(),
    }
}

/// Takes a chunk, if one is idle.
pub(crate) fn take_chunk<D: Deed>(
    slab: &mut SlabCache<D>,
    said: &mut Said,
    step: NextStep,
    kind: &CacheKind,
) -> Option<Segment<D>>
    requires { AreSlabsOf kind.now slab.old }
    ensures said { said.new ≡ slabs_said kind.now step (given_word result) }
    ensures chunk { IfSome result (IsOfKind kind.now) }
    ensures event { TakeOf slab.old result slab.new }
    ensures unchanged { IfNone result (slab.new ≡ slab.old) }
{
    let own = kind_of(slab);
    let chunk = slab.take();
    *said = slabs_say(own, step, word_of_given(&chunk));
    chunk
}

/// Puts a chunk back.
pub(crate) fn put_chunk<D: Deed>(
    slab: &mut SlabCache<D>,
    said: &mut Said,
    step: NextStep,
    kind: &CacheKind,
    segment: Segment<D>,
) -> Result<(), PutFault<Segment<D>>>
    requires { AreSlabsOf kind.now slab.old }
    ensures said { said.new ≡ slabs_said kind.now step (put_word result) }
    ensures event { PutOf slab.old segment result slab.new }
{
    let own = kind_of(slab);
    let put = slab.put(segment);
    *said = slabs_say(own, step, word_of_put(&put));
    put
}

/// Makes a slab of a span, and takes its first chunk.
pub(crate) fn add_slab<D: Deed>(
    slab: &mut SlabCache<D>,
    said: &mut Said,
    step: NextStep,
    kind: &CacheKind,
    span: Segment<D>,
) -> Result<Segment<D>, AddFault<Segment<D>>>
    requires here { AreSlabsOf kind.now slab.old }
    requires span { IsSpanOfKind kind.now span }
    ensures said { said.new ≡ slabs_said kind.now step (add_word result) }
    ensures chunk { IfOk result (IsOfKind kind.now) }
    ensures event { AddOf slab.old span result slab.new }
    ensures handed_back { IfErr result (λ f. segment_of_slab_add (GivenFault.Refused f) ≡ span) }
    ensures unchanged { OnErr result (slab.new ≡ slab.old) }
{
    let own = kind_of(slab);
    let added = slab.add(span);
    *said = slabs_say(own, step, word_of_add(&added));
    added
}

/// Takes the span of a slab of which no chunk is out, if there is one.
pub(crate) fn reap_slab<D: Deed>(
    slab: &mut SlabCache<D>,
    said: &mut Said,
    step: NextStep,
    kind: &CacheKind,
) -> Option<Segment<D>>
    requires { AreSlabsOf kind.now slab.old }
    ensures said { said.new ≡ slabs_said kind.now step (given_word result) }
    ensures span { IfSome result (IsSpanOfKind kind.now) }
    ensures event { ReapOf slab.old result slab.new }
    ensures unchanged { IfNone result (slab.new ≡ slab.old) }
{
    let own = kind_of(slab);
    let span = slab.reap();
    *said = slabs_say(own, step, word_of_given(&span));
    span
}

/// The units that lie in the slabs of this quantum cache.
pub(crate) fn slab_units<D: Deed>(slab: &SlabCache<D>, _kind: &CacheKind) -> u128
    requires { AreSlabsOf _kind.now slab.now }
    ensures tells { SlabsTell _kind.now result }
    ensures told { result ≡ units_held (deeds_of slab.now) }
{
    // For its clause: what is always so of slabs.
    let _ = slab.arena();
    let report = slab.report();
    u128::from(report.idle) + u128::from(report.gap) + u128::from(report.tail)
}
