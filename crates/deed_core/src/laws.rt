//! Laws of the definitions that the crates above reckon with. The functions do nothing: their
//! contracts are the laws, and proofs/LawProofs.antt has them for the proofs of the crates above.
ghost use Rattle.deed_core.specs.Laws.{CountsTheUnit, OverlapCoversTwice, CutKeepsUnits};
ghost use Rattle.deed_core.specs.Laws.{SplitKeepsUnits, JoinKeepsUnits, PartWeighs};
ghost use Rattle.deed_core.specs.Laws.{SmallerWeighsLess};
ghost use Rattle.deed_core.specs.CountingLaws.{CountsOneSegment, CountsOneDeed, CountsWhereItIs};
ghost use Rattle.deed_core.specs.CountingLaws.{DeedCountsWhereItIs, NoneIsSuch};
ghost use Rattle.deed_core.specs.PartLaws.{TestsSay, PartsWeighAll, RoutesWeighAll, AllWeigh};
ghost use Rattle.deed_core.specs.PartLaws.{NoneWeigh};
ghost use Rattle.deed_core.specs.SizeLaws.{RoundsUp, RoundsToTheLeast, RoundsOnce, FitsRounded};
ghost use Rattle.deed_core.specs.SizeLaws.{PowerIsSome, SmallerPowerDivides, PlainIsOfItsSize};
ghost use Rattle.deed_core.specs.SizeLaws.{PlainIsGood, FitsPlain};

/// How often ranges cover a unit: once where they have it; twice exactly where two overlap; and as
/// often cut in two, split or joined as before.
pub fn covering_laws()
    ensures counts { CountsTheUnit }
    ensures overlap { OverlapCoversTwice }
    ensures cut { CutKeepsUnits }
    ensures split { SplitKeepsUnits }
    ensures join { JoinKeepsUnits }
{}

/// What segments weigh: restricted to a part, and by a smaller weight. The laws of lists put end to
/// end, of one member more or less, and of another order are the library's own, on `sum_by`.
pub fn weighing_laws()
    ensures part { PartWeighs }
    ensures smaller { SmallerWeighsLess }
{}

/// How often a list has one segment, one deed, or any of a kind: by weights, so that what weighs as
/// much counts as often.
pub fn counting_laws()
    ensures segment { CountsOneSegment }
    ensures deed { CountsOneDeed }
    ensures segments { CountsWhereItIs }
    ensures deeds { DeedCountsWhereItIs }
    ensures none { NoneIsSuch }
{}

/// What some of the segments weigh: those of one arena, of one route or of one quantum cache.
pub fn part_laws()
    ensures tests { TestsSay }
    ensures parts { PartsWeighAll }
    ensures routes { RoutesWeighAll }
    ensures all { AllWeigh }
    ensures none { NoneWeigh }
{}

/// Sizes rounded to a quantum, and quanta that are powers of two.
pub fn size_laws()
    ensures up { RoundsUp }
    ensures least { RoundsToTheLeast }
    ensures once { RoundsOnce }
    ensures fits { FitsRounded }
    ensures some { PowerIsSome }
    ensures powers { SmallerPowerDivides }
{}

/// Requests for units anywhere.
pub fn plain_laws()
    ensures plain { PlainIsOfItsSize }
    ensures good { PlainIsGood }
    ensures fits { FitsPlain }
{}
