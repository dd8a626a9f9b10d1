//! What follows from the accounts of a stock. The functions do nothing: their contracts are the
//! laws, and proofs/LawProofs.antt has them for the proofs of the crates above.
ghost use Rattle.stock.specs.Laws.{IsInOneHome, AddsUp, AlwaysTagged, AlwaysOut, AlwaysImports};
ghost use Rattle.stock.specs.Laws.{AlwaysSlab, AlwaysOnGrid, OutIsApart, OutWeighs, FramesThen};
ghost use Rattle.stock.specs.Laws.{SourceStandsBefore, PlansStay, CachesStay};
ghost use Rattle.stock.specs.Laws.{ArenaWeighs, AllocatedOfArena};
ghost use Rattle.stock.specs.Endings.{EndsOnceReaped, EndsWithNothingOut};
ghost use Rattle.stock.specs.Growing.{PlainSetupNumbers, GrownNumbers};
ghost use Rattle.stock.specs.Laws.{PopFrames, PushFrames, ChangeFrames};

/// Each unit of an arena is in one home: free, in a slab, in a magazine, exported, leased or in a
/// hand. So the sums that an audit prints add up to the units of the spans.
pub fn one_home_laws()
    ensures home { IsInOneHome }
    ensures lengths { AddsUp }
{}

/// What is out can go back or come in, memory aside.
pub fn never_refused_laws()
    ensures tagged { AlwaysTagged }
    ensures out { AlwaysOut }
    ensures imports { AlwaysImports }
    ensures slab { AlwaysSlab }
    ensures grid { AlwaysOnGrid }
{}

/// No two segments that are out overlap, up the whole chain of sources.
pub fn apart_laws()
    ensures apart { OutIsApart }
{}

/// Frames compose, and a segment that goes from a hand to a lease or into a CPU's magazine stays
/// out: no part changes.
pub fn frame_laws()
    ensures weighs { OutWeighs }
    ensures then { FramesThen }
    ensures pops { PopFrames }
    ensures pushes { PushFrames }
    ensures changes { ChangeFrames }
{}

/// A stock ends exactly where nothing is out of it, once its caches are reaped and its owned spans
/// taken out.
pub fn end_laws()
    ensures reaped { EndsOnceReaped }
    ensures nothing_out { EndsWithNothingOut }
{}

/// The arenas of a stock stand in chains, which no step changes: it keeps the plans (`fixed`), and
/// so how many arenas there are, their sources, quanta, policies and caches.
pub fn chain_laws()
    ensures before { SourceStandsBefore }
    ensures plans { PlansStay }
    ensures caches { CachesStay }
{}

/// Weights of one arena's segments, and what that arena has allocated of all that arenas have.
pub fn weight_laws()
    ensures arena { ArenaWeighs }
    ensures allocated { AllocatedOfArena }
{}

/// Over plain deeds a root's number is its arena's times as many as an arena may own, plus its
/// place among the arena's: so at the setup, and after each grow. No two roots have one number.
pub fn number_laws()
    ensures setup { PlainSetupNumbers }
    ensures grown { GrownNumbers }
{}
