//! What is so of the lists of steps of lines, whatever the parts and the book are, of any deeds. A
//! law does nothing: its contract is the law.
ghost use Rattle.lease_call.specs.Laws.{LeaseIsShort, ReleaseIsShort, HelloIsShort};
ghost use Rattle.lease_call.specs.Laws.{RequestHandles, HelloHandles, RequestKeeps, HelloKeeps};
ghost use Rattle.lease_call.specs.Laws.{EventHandsBack, NoFitIsLast};
ghost use Rattle.lease_call.specs.Laws.{RequestStops, HelloStops, EventGoesOn};

/// How many locks of parts each line takes at most.
pub fn lock_laws<D>()
    ensures lease { LeaseIsShort D }
    ensures release { ReleaseIsShort D }
    ensures hello { HelloIsShort D }
{}

/// What each step of a line finds in the hand, and what the line leaves there.
pub fn hand_laws<D>()
    ensures request { RequestHandles D }
    ensures hello { HelloHandles D }
{}

/// No line loses a segment, over a book that hands back what it doesn't lease; each book does.
pub fn kept_laws<D>()
    ensures request { RequestKeeps D }
    ensures hello { HelloKeeps D }
    ensures event { EventHandsBack D }
{}

/// A request is refused since nothing fits only where each carve of the last climb found none.
pub fn no_fit_laws<D>()
    ensures request { NoFitIsLast D }
{}

/// A stop ends a line's list of steps, and the line ends as stopped just then.
pub fn stop_laws<D>()
    ensures request { RequestStops D }
    ensures hello { HelloStops D }
    ensures event { EventGoesOn D }
{}
