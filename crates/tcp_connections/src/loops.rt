//! The connections of a door, over TCP.
ghost use Rattle.tcp_connections.specs.Connections.{ServesSome};

use crate::arrivals::Arrivals;
use crate::connections::serve_connection;
use crate::counts::Counter;
use crate::doors::Door;
use crate::entrances::Entrance;
use crate::links::Link;
use crate::pacing::{Pace, PacedReader, PacedWriter};
use crate::replying::ClientLines;
use crate::rolls::Guest;
use crate::shortages::{Overseer, Shortage};
use crate::workers::Worker;
use lease_server::{ServeFault, Watched};
use std::alloc::Global;
use std::net::TcpStream;
use std::sync::{Arc, Wait};
use std::time::{Clock, Duration};
use std::{io, thread};

/// How long, in milliseconds, a worker waits after a connection that couldn't be accepted, as where
/// the system has no descriptor left.
pub const ACCEPT_PAUSE: u64 = 20;

/// The system's errors for no descriptor: none is left at all, or for this program.
const NO_DESCRIPTOR: [i32; 2] = [23, 24];

/// The connections that a door accepts, for `serve_each` and `begin_each`. As an `Entrance` it puts
/// each connection on the door's roll while a worker serves it.
#[derive(Drop)]
pub struct TcpEntrance<'a, R, O> {
    rt: &'a R,
    alloc: Global,
    door: Door<'a>,
    overseer: &'a O,
}

impl<'a, R, O> TcpEntrance<'a, R, O> {
    /// Accepts the connections of this door, and reports to the overseer when there is no
    /// descriptor for one.
    pub fn new(rt: &'a R, alloc: Global, door: Door<'a>, overseer: &'a O) -> TcpEntrance<'a, R, O> {
        TcpEntrance {
            rt,
            alloc,
            door,
            overseer,
        }
    }
}

impl<R: Wait + Clock, O: Overseer> Arrivals for TcpEntrance<'_, R, O> {
    ghost use Rattle.std.specs.Prelude.{⊤};

    type Connection = TcpStream;

    type Fault = io::Error;

    // (of a socket no contract can say what it gives or takes, nor of a flag what threads make it)
    ghost may_accept = { λ _ _ _. ⊤ };

    ghost may_find = { λ _ _. ⊤ };

    ghost may_miss = { λ _ _ _. ⊤ };

    fn accept(&mut self) -> io::Result<TcpStream> {
        self.door.accept()
    }

    fn is_closed(&self) -> bool {
        self.door.is_closed()
    }

    fn miss(&mut self, fault: io::Error) {
        if is_short(&fault) {
            self.overseer.lacks(Shortage::Descriptor);
        }
        pause(self.rt);
    }
}

impl<R: Wait + Clock, O: Overseer> Entrance for TcpEntrance<'_, R, O> {
    ghost use Rattle.std.specs.Prelude.{⊤};

    type Guest = Guest;

    ghost may_enter = { λ _ _ _ _. ⊤ };

    ghost may_talk = { λ _ _ _. ⊤ };

    ghost may_leave = { λ _ _ _. ⊤ };

    fn enter(&mut self, stream: TcpStream) -> Option<Guest> {
        let Ok(stream) = Arc::new(self.alloc, stream) else {
            self.door.roll.fail(self.rt);
            return None;
        };
        self.door.roll.enter(self.rt, stream).ok()
    }

    fn talk<K: Worker, C: Counter>(&mut self, guest: &Guest, lines: &mut ClientLines<K, C>) {
        serve_begun(self.rt, self.alloc, guest, lines, self.door);
    }

    fn leave(&mut self, guest: Guest) {
        self.door.roll.leave(self.rt, guest);
    }
}

/// Whether there was no descriptor.
fn is_short(error: &io::Error) -> bool {
    match error.raw_os_error() {
        Some(code) => NO_DESCRIPTOR.contains(&code),
        None => false,
    }
}

/// Serves a connection that stands on the roll. It is counted as begun, and as failed where it ends
/// for want of memory.
pub(crate) fn serve_begun<R: Wait + Clock, K: Worker, C: Counter>(
    rt: &R,
    alloc: Global,
    guest: &Guest,
    lines: &mut ClientLines<K, C>,
    door: Door<'_>,
)
    ensures { ServesSome K.may_reply C.may_count K.may_tidy lines.old lines.new }
{
    door.roll.begin(rt, guest);
    if let Err(ServeFault::Memory) = serve_stream(rt, alloc, guest.stream(), lines, door.pace) {
        door.roll.fail(rt);
    }
}

/// Serves a socket to its end, or to its fault, and then lets the worker tidy.
fn serve_stream<R: Clock, K: Worker, C: Counter>(
    rt: &R,
    alloc: Global,
    stream: &TcpStream,
    lines: &mut ClientLines<K, C>,
    pace: Pace,
) -> Result<(), ServeFault>
    ensures { ServesSome K.may_reply C.may_count K.may_tidy lines.old lines.new }
{
    let mut link = stream;
    // (so that answers leave at once)
    if stream.set_nodelay(true).is_err() {
        link.end();
        lines.tidy();
        return Err(ServeFault::Write);
    }
    let mut reader = Watched::new(PacedReader::new(rt, stream, pace));
    let mut writer = Watched::new(PacedWriter::new(rt, stream, pace));
    serve_connection(alloc, &mut reader, &mut writer, &mut link, lines)
}

/// Waits after a connection that couldn't be accepted.
pub fn pause<R: Clock>(rt: &R) {
    thread::sleep(rt, Duration::from_millis(ACCEPT_PAUSE));
}
