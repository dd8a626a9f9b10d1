//! What holds over a whole script. The functions do nothing: their contracts are the laws.
ghost use Rattle.vmemd.specs.Laws.{ScriptsSplit, ScriptLeasesStayApart, ScriptUnitsHaveOneHome};
ghost use Rattle.vmemd.specs.Laws.{ScriptAuditIsTold, ScriptAuditIsWhole};
ghost use Rattle.vmemd.specs.Laws.{ScriptLinesRepeat, ScriptAnswersAgree, ScriptGrantsFit};
ghost use Rattle.vmemd.specs.Laws.{ScriptRepeatsFit, ScriptFirstLeaseIsServed, ScriptFreedIsWhole};
ghost use Rattle.vmemd.specs.Laws.{ScriptGrownIsServed, ScriptReturnedIsWhole};
ghost use Rattle.vmemd.specs.Laws.{ScriptNeverGrantsAndRefuses};
ghost use Rattle.vmemd.specs.Laws.{ScriptEmptiedIsWhole, SetupsOpenPictures, ScriptRecentRepeat};
ghost use Rattle.vmemd.specs.RuleLaws.{EndsAreScripts, FailsAreScripts, ScriptKeepsRules};
ghost use Rattle.vmemd.specs.RuleLaws.{ScriptGrantsStayApart, ScriptNewGrantsStayApart};
ghost use Rattle.vmemd.specs.RuleLaws.{ScriptClientsGetReplies};

/// What `run_script` writes to an input's end is a script, and what it writes where it ends early
/// is a front of one. Each line of a script, with what is written for it, keeps the rules of
/// leases. A client's line is answered by one line, which is read as a reply to it. So what two new
/// requests are granted doesn't overlap, while no line ends the first lease: of requests that no
/// line before settled, the bytes alone tell all that is asked for.
pub fn rule_laws()
    ensures ends { EndsAreScripts }
    ensures fails { FailsAreScripts }
    ensures keeps { ScriptKeepsRules }
    ensures replies { ScriptClientsGetReplies }
    ensures apart { ScriptGrantsStayApart }
    ensures anew { ScriptNewGrantsStayApart }
{}

/// Whatever setup lines are taken, the desk that they open is a picture; and whatever lines it
/// answers then: after each of them no two leases overlap whose arenas have one top, each unit is
/// in one home, and an audit tells all of them.
pub fn script_laws()
    ensures opened { SetupsOpenPictures }
    ensures split { ScriptsSplit }
    ensures apart { ScriptLeasesStayApart }
    ensures homes { ScriptUnitsHaveOneHome }
    ensures told { ScriptAuditIsTold }
    ensures whole { ScriptAuditIsWhole }
{}

/// What a script answers to requests, in bytes: to one that comes again, and to leases.
pub fn answer_laws()
    ensures repeats { ScriptLinesRepeat }
    ensures recent { ScriptRecentRepeat }
    ensures agree { ScriptAnswersAgree }
    ensures fit { ScriptGrantsFit }
    ensures repeats_fit { ScriptRepeatsFit }
    ensures never_both { ScriptNeverGrantsAndRefuses }
    ensures first { ScriptFirstLeaseIsServed }
    ensures grown { ScriptGrownIsServed }
    ensures freed { ScriptFreedIsWhole }
    ensures returned { ScriptReturnedIsWhole }
{}

/// Once nothing is leased and CPUs have no round, two lines empty all caches, and what fits in a
/// span has room.
pub fn emptying_laws()
    ensures emptied { ScriptEmptiedIsWhole }
{}
