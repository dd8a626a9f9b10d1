//! What follows for each picture, and for each run of lines. The functions do nothing: their
//! contracts are the laws, and `proofs/LawProofs.antt` hands their proofs on.
ghost use Rattle.lease_machine.specs.CallLaws.{HeldIsLocal, HandIsLocal, FreeGoesBack};
ghost use Rattle.lease_machine.specs.CallLaws.{XallocCarves, AllocClimbs, AllocFromCaches};
ghost use Rattle.lease_machine.specs.CallLaws.{OfflineIsLocal, DrainGoesOffline};
ghost use Rattle.lease_machine.specs.ReapLaws.{ReapReaps, ReapsNone, ReapingsAdd, CachedUnitsFit};
ghost use Rattle.lease_machine.specs.CpuLaws.{FreshIsPicture, SelectedIsPicture, FreshCpuFits};
ghost use Rattle.lease_machine.specs.CacheLaws.{CachedByNumber};
ghost use Rattle.lease_machine.specs.Laws.{PicturesStay, SetupOnlyGrows, SetupStays};
ghost use Rattle.lease_machine.specs.Laws.{SameSetupGrows, SetupGrowsOn, UnitsHaveOneHome};
ghost use Rattle.lease_machine.specs.Laws.{LeasesAreApart, AuditTellsLeases, AuditIsWhole};
ghost use Rattle.lease_machine.specs.Laws.{AuditIsTold};
ghost use Rattle.lease_machine.specs.AnswerLaws.{LinesRepeat, AnswersAgree, GrantsFit};
ghost use Rattle.lease_machine.specs.AnswerLaws.{ClientsGetReplies, RecentRepeat};
ghost use Rattle.lease_machine.specs.Rules.{StepsKeepRules, RunsKeepRules};
ghost use Rattle.lease_machine.specs.AnswerLaws.{KeptGrantsFit, GrantsWereReachable, RepeatsFit};
ghost use Rattle.lease_machine.specs.LeaseLaws.{LeasesMove};
ghost use Rattle.lease_machine.specs.NewGrants.{NewGrantsStayApart};
ghost use Rattle.lease_machine.specs.GrantLaws.{GrantsStayApart};
ghost use Rattle.lease_machine.specs.RoomLaws.{NoFitMeansTaken, NoFitMeansTakenUp};
ghost use Rattle.lease_machine.specs.RoomLaws.{FreedIsWhole, FirstLeaseIsServed, FewerFitToo};
ghost use Rattle.lease_machine.specs.RoomLaws.{WhatServesCan, NeverGrantedAndRefused};
ghost use Rattle.lease_machine.specs.RoomLaws.{RunsNeverGrantAndRefuse};
ghost use Rattle.lease_machine.specs.GrowLaws.{GrowsAddFree, GrownIsServed, GrownStays};
ghost use Rattle.lease_machine.specs.GrowLaws.{GrowsKeep, GrowsKeepNothing, GrowsAreAnswered};
ghost use Rattle.lease_machine.specs.EmptyingLaws.{ReapLeavesNone, OfflineHasNoRound};
ghost use Rattle.lease_machine.specs.EmptyingLaws.{TickAndReapEmpty, AgainMeansRoom};
ghost use Rattle.lease_machine.specs.StepLaws.{FaultsAreAnswered, KnownAreAnswered};
ghost use Rattle.lease_machine.specs.StepLaws.{OldHellosAreAnswered, AuditsAreAnswered};
ghost use Rattle.lease_machine.specs.StepLaws.{ClientsAreTold, CpusAreSelected, TicksAreAnswered};
ghost use Rattle.lease_machine.specs.StepLaws.{ResizesAreAnswered, ReleasesAreSettled};
ghost use Rattle.lease_machine.specs.StepLaws.{RefusalsAreAnswered, TicksKeep, ResizesKeep};
ghost use Rattle.lease_machine.specs.Conversations.{RequestRuns, HelloRuns};

/// What a desk begins with is a picture, and it stays one when a CPU is selected.
pub fn picture_laws()
    ensures fresh { FreshIsPicture }
    ensures selected { SelectedIsPicture }
    ensures cpu { FreshCpuFits }
{}

/// After any lines each unit is in one home, and no two leases overlap whose arenas have one top;
/// the arenas own the spans that they owned, and more only by grows.
pub fn home_laws()
    ensures stay { PicturesStay }
    ensures grows { SetupOnlyGrows }
    ensures setup { SetupStays }
    ensures same { SameSetupGrows }
    ensures on { SetupGrowsOn }
    ensures home { UnitsHaveOneHome }
    ensures apart { LeasesAreApart }
{}

/// An audit tells the book's leases, and all units of the spans.
pub fn audit_laws()
    ensures told { AuditIsTold }
    ensures leases { AuditTellsLeases }
    ensures whole { AuditIsWhole }
{}

/// The rules of leases, on a page: who is answered what, when, and what becomes of all leases.
pub fn rule_laws()
    ensures steps { StepsKeepRules }
    ensures runs { RunsKeepRules }
{}

/// A client's line gets one line, which is read as a reply to it. A request that comes again gets
/// the bytes that it got, while only others ask or its number is recent, and is never settled by
/// others.
pub fn repeat_laws()
    ensures named { ClientsGetReplies }
    ensures repeats { LinesRepeat }
    ensures recent { RecentRepeat }
    ensures agree { AnswersAgree }
{}

/// Each grant fits its own line, however often it is asked again, and its units were in reach; each
/// that is kept fits what it was made for.
pub fn grant_laws()
    ensures fits { GrantsFit }
    ensures kept_grants { KeptGrantsFit }
    ensures repeats { RepeatsFit }
    ensures reachable { GrantsWereReachable }
{}

/// What each line and its answer make of all leases: one more, one less, those of a client's older
/// incarnations gone, or none changed. So what two requests are granted doesn't overlap, while no
/// line ends the first lease: each is told to a new request, or again by the first protocol or
/// while its lease stands. Of requests that no line before settled, lines and answers alone tell
/// all that is asked for.
pub fn lease_laws()
    ensures moves { LeasesMove }
    ensures apart { GrantsStayApart }
    ensures anew { NewGrantsStayApart }
{}

/// `nofit` comes only where no free range of the arena serves, nor one of a source for what would
/// be imported, nor a chunk in reach of the CPU; so in a system that was used however one likes,
/// once all has come back, and at its first lease, it doesn't come where a span would do. Nothing
/// that lines bring about lets one request be granted and be refused so.
pub fn no_fit_laws()
    ensures taken { NoFitMeansTaken }
    ensures taken_up { NoFitMeansTakenUp }
    ensures freed { FreedIsWhole }
    ensures first { FirstLeaseIsServed }
    ensures fewer { FewerFitToo }
    ensures serves { WhatServesCan }
    ensures never_both { NeverGrantedAndRefused }
    ensures never_in_runs { RunsNeverGrantAndRefuse }
{}

/// A reaping leaves nothing to reap, and a CPU that goes offline no round; so once nothing is
/// leased lines can empty all caches. A lease is to be asked for again only where something serves
/// it.
pub fn emptying_laws()
    ensures reaped { ReapLeavesNone }
    ensures offline { OfflineHasNoRound }
    ensures emptied { TickAndReapEmpty }
    ensures again { AgainMeansRoom }
{}

/// Which quantum cache serves a request.
pub fn cache_laws()
    ensures { CachedByNumber }
{}

/// A grow that is taken adds its units, all of them free, and changes no lease; any other answer to
/// it changes nothing. What it added stays, and what fits in it isn't refused for want of room.
pub fn grow_laws()
    ensures adds { GrowsAddFree }
    ensures serves { GrownIsServed }
    ensures stays { GrownStays }
    ensures keeps { GrowsKeep }
    ensures nothing { GrowsKeepNothing }
    ensures answered { GrowsAreAnswered }
{}

/// From each picture these lines can be answered so: the machine isn't empty. A new release is
/// never out of memory, and what is refused with nothing to move always has its refusal.
pub fn step_laws()
    ensures faults { FaultsAreAnswered }
    ensures known { KnownAreAnswered }
    ensures old_hellos { OldHellosAreAnswered }
    ensures audits { AuditsAreAnswered }
    ensures clients { ClientsAreTold }
    ensures cpus { CpusAreSelected }
    ensures ticks { TicksAreAnswered }
    ensures resizes { ResizesAreAnswered }
    ensures releases { ReleasesAreSettled }
    ensures refusals { RefusalsAreAnswered }
{}

/// What a tick and greater magazines leave is a picture of the same setup.
pub fn depot_laws()
    ensures ticks { TicksKeep }
    ensures resizes { ResizesKeep }
{}

/// What the calls of quantum caches over one thread's parts come to for a picture.
pub fn call_laws()
    ensures local { HeldIsLocal }
    ensures hand { HandIsLocal }
    ensures free { FreeGoesBack }
    ensures xalloc { XallocCarves }
    ensures alloc { AllocClimbs }
    ensures caches { AllocFromCaches }
    ensures offline { OfflineIsLocal }
    ensures drain { DrainGoesOffline }
{}

/// What a reaping comes to. One with no look left may have left something: another begins where it
/// ended, and what both did adds up.
pub fn reap_laws()
    ensures reap { ReapReaps }
    ensures none { ReapsNone }
    ensures add { ReapingsAdd }
    ensures fit { CachedUnitsFit }
{}

/// A client's line, by its list of steps over one thread's parts and book, is a step: it is never
/// stuck, and nothing stops it. `D` is the type of the book's deeds.
pub fn conversation_laws<D>()
    ensures request { RequestRuns D }
    ensures hello { HelloRuns D }
{}
