//! The laws. Each function does nothing: its contract is the law. `proofs/LawProofs.antt` hands
//! their proofs on.
ghost use Rattle.lease_history.specs.Laws.{ClientsBeginKnown, MovesKeepKnown, RepliesKeepKnown};
ghost use Rattle.lease_history.specs.Laws.{HellosKeepKnown, SweepsKeepKnown, SettlementsKeepKnown};
ghost use Rattle.lease_history.specs.Laws.{HeldIsLeased, WaitingIsAnswered, ToldStaysTold};
ghost use Rattle.lease_history.specs.Laws.{WelcomesMayBeTold, RepliesAgree, OpenClientsAgree};

/// A client that never said hello is known, and what it sends keeps it so.
pub fn move_laws()
    ensures begins { ClientsBeginKnown }
    ensures moves { MovesKeepKnown }
{}

/// Each entry of the book keeps its clients known.
pub fn entry_laws()
    ensures hello { HellosKeepKnown }
    ensures swept { SweepsKeepKnown }
    ensures settled { SettlementsKeepKnown }
{}

/// A reply that the book may give may be given ever after, is the only one for its request, and
/// keeps the client that gets it known; a hello is welcomed with the protocol that stands.
pub fn reply_laws()
    ensures stays { ToldStaysTold }
    ensures welcome { WelcomesMayBeTold }
    ensures one { RepliesAgree }
    ensures got { RepliesKeepKnown }
{}

/// What a known client holds is leased to it. While it is open, the book has its incarnation and
/// its protocol. What it waits for is new to the book, or its reply is kept.
pub fn held_laws()
    ensures held { HeldIsLeased }
    ensures agree { OpenClientsAgree }
    ensures waiting { WaitingIsAnswered }
{}
