//! What was done lately, from one look at a server to the next.
ghost use Rattle.std.specs.Prelude.{◌≡◌};
ghost use Rattle.lease_watch.specs.Looks as spec;

use crate::seen::{Seen, Work};
use crate::words::{Word, count_of};

/// How many seconds lie between two looks that are kept.
const STRIDE: u64 = 30;

/// Two looks at what was done since the start: the newer is kept until `STRIDE` seconds have gone,
/// and then is the older. So where one looks again and again the older is some 30 to 60 seconds
/// old.
#[derive(Clone, Copy, Debug, PartialEq, Eq)]
pub struct Looks {
    pub older: Work,
    pub newer: Work,
}

impl Looks {
    /// At the start, where nothing was done.
    pub fn new() -> Looks
        ensures { result ≡ spec.no_looks }
    {
        let none = Work {
            seconds: 0,
            lines: 0,
            refused: 0,
        };
        Looks {
            older: none,
            newer: none,
        }
    }

    /// What was done since the older look, by what was done since the start.
    pub fn look(&mut self, now: Work) -> Work
        ensures kept { self.new ≡ spec.after_look self.old now }
        ensures value { result ≡ spec.since self.new.older now }
    {
        if now.seconds.saturating_sub(self.newer.seconds) >= STRIDE {
            self.older = self.newer;
            self.newer = now;
        }
        since(&self.older, &now)
    }
}

impl Seen {
    /// What was done since the start.
    pub fn work(&self) -> Work
        ensures { result ≡ spec.work_of self.now }
    {
        let hellos = count_of(&self.counts, Word::Hello);
        let leases = count_of(&self.counts, Word::Lease);
        let releases = count_of(&self.counts, Word::Release);
        Work {
            seconds: self.uptime,
            lines: hellos.saturating_add(leases).saturating_add(releases),
            refused: count_of(&self.counts, Word::Refused),
        }
    }
}

/// What was done between two looks.
fn since(older: &Work, now: &Work) -> Work
    ensures { result ≡ spec.since older.now now.now }
{
    Work {
        seconds: now.seconds.saturating_sub(older.seconds),
        lines: now.lines.saturating_sub(older.lines),
        refused: now.refused.saturating_sub(older.refused),
    }
}
