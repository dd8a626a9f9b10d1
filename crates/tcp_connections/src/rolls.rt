//! The connections that are served now, so that an end can reach each of them.
ghost use Rattle.std.specs.Prelude.{◌≡◌, ◌≢◌, ◌+◌, ◌<◌, ◌≤◌, ◌↔◌, true, false, OnOk, OnErr};
ghost use Rattle.std.specs.Prelude.{None, IfOk, IsErrOf};
ghost use Rattle.slab.specs.Slab.{SameValues, Updates, get, slab_len};
ghost use Rattle.tcp_connections.specs.Rolls.{IsUnbegun, begun_after, begun_row};
ghost use Rattle.tcp_connections.specs.Rolls.{failed_after, one_more, refused_after};

use lease_watch::ConnectionCounts;
use slab::Slab;
use std::alloc::Global;
use std::marker::Model;
use std::net::{Shutdown, TcpStream};
use std::sync::{Arc, Mutex, Wait};
use std::thread;
use std::time::{Clock, Duration};

/// How long, in milliseconds, is waited before it is looked again whether connections have ended.
const END_PAUSE: u64 = 10;

/// How often it is looked in a second.
const LOOKS: u64 = 100;

/// A connection, which its thread and a roll have.
pub(crate) type SharedStream = Arc<TcpStream, Global>;

/// A connection on a roll, which `admit` hands to what serves it. Only `Roll::enter` makes one.
#[derive(Drop)]
pub struct Guest {
    stream: SharedStream,
    key: usize,
}

impl Guest {
    /// The connection.
    pub(crate) fn stream(&self) -> &TcpStream {
        &self.stream
    }

    /// Returns its key on the roll. No other connection has that key while this one is on the roll.
    pub fn key(&self) -> usize {
        self.key
    }
}

/// Why a connection isn't served.
#[derive(Clone, Copy, Debug, PartialEq, Eq)]
pub(crate) enum NotEntered {
    /// There are as many as there may be.
    Full,
    /// All are to end.
    Ended,
    /// Out of memory.
    Memory,
}

/// A connection that stands on a roll, and whether it was begun to be served.
#[derive(Drop)]
struct Row {
    stream: SharedStream,
    begun: bool,
}

/// What lies under the lock of a roll: never more connections than there may be.
#[derive(Drop)]
struct Rows {
    entered: Slab<Row>,
    most: usize,
    ended: bool,
    total: u64,
    refused: u64,
    failed: u64,
    ghost within: { slab_len entered ≤ most },
}

/// The connections that are served now, at most so many. A contract sees for how many it is made.
#[derive(Drop)]
pub struct Roll {
    /// What a contract sees: the rows have it too, behind their lock.
    most: usize,
    rows: Mutex<Rows>,
}

impl Model for Roll {
    ghost use Rattle.std.specs.Prelude.{ℕ};

    ghost Value = { ℕ };

    ghost view = { λ r. r.most };
}

impl Roll {
    /// No connection is served yet. A roll for none would refuse each.
    pub fn new(alloc: Global, most: usize) -> Roll
        requires { 0 < most }
        ensures { result ≡ most }
    {
        let rows = Rows::new(alloc, most);
        Roll {
            most: rows.most,
            rows: Mutex::new(rows),
        }
    }

    /// Enters a connection.
    pub(crate) fn enter<R: Wait>(
        &self,
        rt: &R,
        stream: SharedStream,
    ) -> Result<Guest, (NotEntered, SharedStream)> {
        let entered = self.rows.lock(rt).enter(&stream);
        match entered {
            Ok(key) => Ok(Guest { stream, key }),
            Err(why) => Err((why, stream)),
        }
    }

    /// Counts the connection, which is begun to be served, if it wasn't before.
    pub(crate) fn begin<R: Wait>(&self, rt: &R, guest: &Guest) {
        self.rows.lock(rt).begin(guest.key);
    }

    /// Counts a connection that ended, begun or not, for want of memory.
    pub(crate) fn fail<R: Wait>(&self, rt: &R) {
        self.rows.lock(rt).fail();
    }

    /// The connection of this key ended unbegun, for want of a thread, and is counted as failed.
    pub(crate) fn fail_unbegun<R: Wait>(&self, rt: &R, key: usize) {
        let mut rows = self.rows.lock(rt);
        rows.leave(key);
        rows.fail();
    }

    /// The connection has ended.
    pub(crate) fn leave<R: Wait>(&self, rt: &R, guest: Guest) {
        self.rows.lock(rt).leave(guest.key);
    }

    /// Has all connections end, after what they sent by now is answered. Those that haven't within
    /// so many seconds are cut off. No further one is entered.
    pub fn end<R: Wait + Clock>(&self, rt: &R, grace: u32) {
        self.rows.lock(rt).shut(Shutdown::Read);
        for _ in 0..u64::from(grace) * LOOKS {
            if self.is_empty(rt) {
                return;
            }
            thread::sleep(rt, Duration::from_millis(END_PAUSE));
        }
        self.rows.lock(rt).shut(Shutdown::Both);
    }

    /// How many there are, were begun, were turned away and failed.
    pub fn counts<R: Wait>(&self, rt: &R) -> ConnectionCounts {
        self.rows.lock(rt).counts()
    }

    /// Whether none is served.
    fn is_empty<R: Wait>(&self, rt: &R) -> bool {
        self.rows.lock(rt).entered.is_empty()
    }
}

impl Rows {
    /// None came yet.
    fn new(alloc: Global, most: usize) -> Rows
        ensures none { slab_len result.entered ≡ 0 }
        ensures open { (result.most ≡ most) × (result.ended ≡ false) }
        ensures uncounted { (result.total ≡ 0) × (result.refused ≡ 0) × (result.failed ≡ 0) }
    {
        Rows {
            entered: Slab::new(alloc),
            most,
            ended: false,
            total: 0,
            refused: 0,
            failed: 0,
        }
    }

    /// Enters a connection. It is refused as one too many just where there are as many as there may
    /// be. It is counted where it is turned away, or fails, and only there.
    fn enter(&mut self, stream: &SharedStream) -> Result<usize, NotEntered>
        ensures entered { IfOk result (λ key. (get self.old.entered key ≡ None)
            × IsUnbegun (get self.new.entered key)) }
        ensures others { IfOk result (λ key. (other : _) → other ≢ key
            → get self.new.entered other ≡ get self.old.entered other) }
        ensures more { OnOk result (slab_len self.new.entered ≡ slab_len self.old.entered + 1) }
        ensures same { OnErr result (SameValues self.old.entered self.new.entered) }
        ensures as_many { OnErr result (slab_len self.new.entered ≡ slab_len self.old.entered) }
        ensures full { IsErrOf result NotEntered.Full
            ↔ ((self.old.ended ≡ false) × (slab_len self.old.entered ≡ self.old.most)) }
        ensures ended { IsErrOf result NotEntered.Ended ↔ (self.old.ended ≡ true) }
        ensures kept { (self.new.most ≡ self.old.most) × (self.new.ended ≡ self.old.ended)
            × (self.new.total ≡ self.old.total) }
        ensures refused { self.new.refused ≡ refused_after result self.old.refused }
        ensures failed { self.new.failed ≡ failed_after result self.old.failed }
    {
        if self.ended {
            return Err(NotEntered::Ended);
        }
        if self.entered.len() >= self.most {
            self.refused = self.refused.saturating_add(1);
            return Err(NotEntered::Full);
        }
        let Ok(own) = Arc::try_clone(stream) else {
            self.fail();
            return Err(NotEntered::Memory);
        };
        let row = Row {
            stream: own,
            begun: false,
        };
        match self.entered.insert(row) {
            Ok(key) => Ok(key),
            Err(_) => {
                self.fail();
                Err(NotEntered::Memory)
            }
        }
    }

    /// Counts the connection of this key, which is begun to be served, if it wasn't before.
    fn begin(&mut self, key: usize)
        ensures counted { self.new.total ≡ begun_after (get self.old.entered key) self.old.total }
        ensures begun { get self.new.entered key ≡ begun_row (get self.old.entered key) }
        ensures others { (other : _) → other ≢ key
            → get self.new.entered other ≡ get self.old.entered other }
        ensures as_many { slab_len self.new.entered ≡ slab_len self.old.entered }
        ensures kept { (self.new.most ≡ self.old.most) × (self.new.ended ≡ self.old.ended) }
        ensures counts { (self.new.refused ≡ self.old.refused)
            × (self.new.failed ≡ self.old.failed) }
    {
        if let Some(row) = self.entered.get_mut(key) {
            if !row.begun {
                row.begun = true;
                self.total = self.total.saturating_add(1);
            }
        }
    }

    /// Counts a connection that failed.
    fn fail(&mut self)
        ensures { self.new ≡ record self.old { failed = one_more self.old.failed } }
    {
        self.failed = self.failed.saturating_add(1);
    }

    /// The connection of this key has ended. That is counted nowhere: it was where it was begun.
    fn leave(&mut self, key: usize)
        ensures left { Updates self.old.entered self.new.entered key None }
        ensures fewer { slab_len self.new.entered ≤ slab_len self.old.entered }
        ensures kept { (self.new.most ≡ self.old.most) × (self.new.ended ≡ self.old.ended) }
        ensures counts { (self.new.total ≡ self.old.total) × (self.new.refused ≡ self.old.refused)
            × (self.new.failed ≡ self.old.failed) }
    {
        let left = self.entered.try_remove(key);
        drop(left);
    }

    /// How many there are, were begun, were turned away and failed.
    fn counts(&self) -> ConnectionCounts
        ensures { result ≡ record {
          served = slab_len self.now.entered;
          total = self.now.total;
          refused = self.now.refused;
          failed = self.now.failed;
        } }
    {
        ConnectionCounts {
            served: self.entered.len() as u64,
            total: self.total,
            refused: self.refused,
            failed: self.failed,
        }
    }

    /// Lets no further one enter, and shuts each down so.
    fn shut(&mut self, how: Shutdown)
        ensures { self.new ≡ record self.old { ended = true } }
    {
        self.ended = true;
        for (_, row) in self.entered.iter() {
            let _ = row.stream.shutdown(how);
        }
    }
}
