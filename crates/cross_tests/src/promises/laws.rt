//! Laws of the definitions, each handed on as it stands.
ghost use Rattle.deed_core.specs.CountingLaws.{CountsOneSegment, CountsOneDeed, CountsWhereItIs};
ghost use Rattle.deed_core.specs.CountingLaws.{DeedCountsWhereItIs, NoneIsSuch};
ghost use Rattle.deed_core.specs.PartLaws.{TestsSay, PartsWeighAll, RoutesWeighAll, AllWeigh};
ghost use Rattle.deed_core.specs.PartLaws.{NoneWeigh};
ghost use Rattle.deed_core.specs.SizeLaws.{RoundsUp, RoundsToTheLeast, RoundsOnce, FitsRounded};
ghost use Rattle.deed_core.specs.SizeLaws.{PowerIsSome, SmallerPowerDivides};
ghost use Rattle.deed_core.specs.SizeLaws.{PlainIsOfItsSize, PlainIsGood, FitsPlain};
ghost use Rattle.slab_layer.specs.Laws.{NeverBoth, OutIsOfCache, TakesNoneExactly};
ghost use Rattle.slab_layer.specs.Laws.{ReapsNoneExactly};
ghost use Rattle.tag_arena.specs.Laws.{CarveIsOne, NoneServes, ChoiceServes};
ghost use Rattle.tag_arena.specs.Laws.{TagsWeigh, AllocatedStand};

use deed_core::{counting_laws, part_laws, plain_laws, size_laws};
use slab_layer::{chunk_laws, move_laws};
use tag_arena::{allocated_laws, one_choice_laws, serving_laws};

/// Segments and deeds are counted where they are.
fn counting()
    ensures segment { CountsOneSegment }
    ensures deed { CountsOneDeed }
    ensures segments { CountsWhereItIs }
    ensures deeds { DeedCountsWhereItIs }
    ensures none { NoneIsSuch }
{
    counting_laws();
}

/// What those of an arena, a route or a cache weigh.
fn parts()
    ensures tests { TestsSay }
    ensures parts { PartsWeighAll }
    ensures routes { RoutesWeighAll }
    ensures all { AllWeigh }
    ensures none { NoneWeigh }
{
    part_laws();
}

/// Rounded sizes and powers of two.
fn sizes()
    ensures up { RoundsUp }
    ensures least { RoundsToTheLeast }
    ensures once { RoundsOnce }
    ensures fits { FitsRounded }
    ensures some { PowerIsSome }
    ensures powers { SmallerPowerDivides }
{
    size_laws();
}

/// Requests for units anywhere.
fn plain()
    ensures plain { PlainIsOfItsSize }
    ensures good { PlainIsGood }
    ensures fits { FitsPlain }
{
    plain_laws();
}

/// Chunks that are out.
fn chunks()
    ensures never_both { NeverBoth }
    ensures out { OutIsOfCache }
    ensures takes_none { TakesNoneExactly }
    ensures reaps_none { ReapsNoneExactly }
{
    chunk_laws();
    move_laws();
}

/// What a policy chooses, and what is allocated.
fn arenas()
    ensures one { CarveIsOne }
    ensures none { NoneServes }
    ensures some { ChoiceServes }
    ensures weigh { TagsWeigh }
    ensures stand { AllocatedStand }
{
    one_choice_laws();
    serving_laws();
    allocated_laws();
}
