//! Import and hand back, in steps.
ghost use Rattle.std.specs.Prelude.{◌≡◌, ◌+◌, ◌≤◌, length, Some, Err, IfOk};
ghost use Rattle.deed_core.specs.Request.{plain_of};
ghost use Rattle.arena_tree.specs.Chains.{IsChain, IsGrant, first_id};
ghost use Rattle.arena_tree.specs.Plans.{Ran};
ghost use Rattle.arena_tree.specs.Climbs.{return_plan, descent_plan, climb_plan, climb_most};
ghost use Rattle.arena_tree.specs.Climbs.{IsGrantOf, CanDescend};
ghost use Rattle.arena_tree.specs.Tags.{tag_climb, tag_return};

use crate::levels::{Level, import_amount};
use crate::part_faults::{ClimbFault, GivenFault, PartFault, ReturnFault};
use crate::parts::Parts;
use deed_core::{Held, Request};
use tag_arena::{ArenaFault, SpanFault};

/// Carves `size` units in the first arena of the chain; where none fit, imports a span from the
/// next, and so on upwards.
pub fn climb_alloc<S: Held, P: Parts<S>>(
    parts: &mut P,
    chain: &[Level],
    size: u64,
) -> Result<S, ClimbFault<S>>
    requires chain { IsChain (P.tree parts.old) chain.now }
    ensures ran { Ran P.step P.tree P.count P.rounds (climb_plan chain.now size)
        parts.old parts.new (tag_climb S.tag result) }
    ensures ok { IfOk result (λ s. IsGrantOf (P.tree parts.old) chain.now size (S.tag s)) }
    ensures refused { result ≡ Err (ClimbFault.Refused ArenaFault.BadRequest) → size ≡ 0 }
    ensures few { P.count parts.new
        ≤ P.count parts.old + climb_most (length chain.now) (tag_climb S.tag result) }
    ensures tree { P.tree parts.new ≡ P.tree parts.old }
    ensures rounds { P.rounds parts.new ≡ P.rounds parts.old }
{
    climb(parts, chain, size)
}

/// Frees a segment in its arena, the chain's first, and each span that becomes whole in its source.
pub fn climb_free<S: Held, P: Parts<S>>(
    parts: &mut P,
    chain: &[Level],
    segment: S,
) -> Result<(), ReturnFault<S>>
    requires chain { IsChain (P.tree parts.old) chain.now }
    requires first { first_id chain.now ≡ Some (S.tag segment).arena }
    ensures ran { Ran P.step P.tree P.count P.rounds (return_plan chain.now (S.tag segment))
        parts.old parts.new (tag_return S.tag result) }
    ensures few { P.count parts.new ≤ P.count parts.old + length chain.now }
    ensures tree { P.tree parts.new ≡ P.tree parts.old }
    ensures rounds { P.rounds parts.new ≡ P.rounds parts.old }
{
    hand_back(parts, chain, segment)
}

/// As `climb_alloc`, which counts the steps beside it.
#[tactic(auto, using(crate::proofs::Paths::ran_on, crate::proofs::Amounts::first_of_chain))]
fn climb<S: Held, P: Parts<S>>(
    parts: &mut P,
    chain: &[Level],
    size: u64,
) -> Result<S, ClimbFault<S>>
    requires chain { IsChain (P.tree parts.old) chain.now }
    ensures ran { Ran P.step P.tree P.count P.rounds (climb_plan chain.now size)
        parts.old parts.new (tag_climb S.tag result) }
    ensures ok { IfOk result (λ s. IsGrantOf (P.tree parts.old) chain.now size (S.tag s)) }
    ensures tree { P.tree parts.new ≡ P.tree parts.old }
    ensures rounds { P.rounds parts.new ≡ P.rounds parts.old }
{
    let Some((level, up)) = chain.split_first() else {
        return Err(ClimbFault::Refused(ArenaFault::NoFit));
    };
    match parts.carve(level.id, &Request::plain(size)) {
        Ok(segment) => return Ok(segment),
        Err(PartFault::Refused(ArenaFault::NoFit)) => {}
        Err(PartFault::Refused(fault)) => return Err(ClimbFault::Refused(fault)),
        Err(PartFault::Stopped) => return Err(ClimbFault::Stopped(None)),
    }
    let amount = import_amount(level, up, size);
    let span = climb(parts, up, amount)?;
    descend(parts, level.id, up, span, size)
}

/// Gives a span to the child, which carves from it. Where it is out of memory, the span goes back.
#[tactic(auto, using(crate::proofs::Paths::ran_on))]
fn descend<S: Held, P: Parts<S>>(
    parts: &mut P,
    child: u32,
    up: &[Level],
    span: S,
    size: u64,
) -> Result<S, ClimbFault<S>>
    requires { CanDescend (P.tree parts.old) up.now child size (S.tag span) }
    ensures ran { Ran P.step P.tree P.count P.rounds (descent_plan up.now child size (S.tag span))
        parts.old parts.new (tag_climb S.tag result) }
    ensures ok { IfOk result (λ s.
        IsGrant (P.tree parts.old) child (plain_of size) (S.tag s)) }
    ensures tree { P.tree parts.new ≡ P.tree parts.old }
    ensures rounds { P.rounds parts.new ≡ P.rounds parts.old }
{
    match parts.add_carve(child, span, size) {
        Ok(segment) => Ok(segment),
        Err(GivenFault::Refused(SpanFault::Overlaps(same))) => Err(ClimbFault::Stuck(same)),
        Err(GivenFault::Refused(SpanFault::NotAligned(same))) => Err(ClimbFault::Stuck(same)),
        Err(GivenFault::Stopped(same)) => Err(ClimbFault::Stopped(Some(same))),
        Err(GivenFault::Refused(SpanFault::NoMemory(same))) => match hand_back(parts, up, same) {
            Ok(()) => Err(ClimbFault::Refused(ArenaFault::NoMemory)),
            Err(ReturnFault::Stuck(same)) => Err(ClimbFault::Stuck(same)),
            Err(ReturnFault::Stopped(same)) => Err(ClimbFault::Stopped(Some(same))),
        },
    }
}

/// As `climb_free`, which counts the steps beside it.
#[tactic(auto, using(crate::proofs::Amounts::chain_above))]
fn hand_back<S: Held, P: Parts<S>>(
    parts: &mut P,
    chain: &[Level],
    segment: S,
) -> Result<(), ReturnFault<S>>
    requires chain { IsChain (P.tree parts.old) chain.now }
    requires first { first_id chain.now ≡ Some (S.tag segment).arena }
    ensures ran { Ran P.step P.tree P.count P.rounds (return_plan chain.now (S.tag segment))
        parts.old parts.new (tag_return S.tag result) }
    ensures tree { P.tree parts.new ≡ P.tree parts.old }
    ensures rounds { P.rounds parts.new ≡ P.rounds parts.old }
{
    let Some((_, up)) = chain.split_first() else {
        return Err(ReturnFault::Stuck(segment));
    };
    match parts.free(segment) {
        Ok(None) => Ok(()),
        Ok(Some(whole)) => hand_back(parts, up, whole),
        Err(GivenFault::Refused(same)) => Err(ReturnFault::Stuck(same)),
        Err(GivenFault::Stopped(same)) => Err(ReturnFault::Stopped(same)),
    }
}
