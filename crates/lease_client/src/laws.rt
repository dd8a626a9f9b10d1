//! Laws of the definitions that contracts cite. Each function does nothing: its contract is the
//! law. `proofs/LawProofs.antt` hands on what other crates may cite of their proofs.
ghost use Rattle.lease_client.specs.Laws.{MovesKeepSound, MovesAreInTurn, SentStaysSent};
ghost use Rattle.lease_client.specs.Laws.{LateRepliesChangeNothing, RepliesCountOnce};
ghost use Rattle.lease_client.specs.Laws.{HeldChangesOnlySo, HeldIsSinceGrant};

/// What is true of every client stays so, and when it may restart and send.
pub fn move_laws()
    ensures sound { MovesKeepSound }
    ensures in_turn { MovesAreInTurn }
    ensures sent { SentStaysSent }
{}

/// A late reply changes nothing, and none counts twice.
pub fn reply_laws()
    ensures late { LateRepliesChangeNothing }
    ensures once { RepliesCountOnce }
{}

/// When a client holds a segment, and what changes what it holds.
pub fn held_laws()
    ensures changes { HeldChangesOnlySo }
    ensures since { HeldIsSinceGrant }
{}
