//! Connections that are served beside one another, each by what is started for it, as a thread.
ghost use Rattle.tcp_connections.specs.Connections.{ServesSome};

use crate::counts::Counter;
use crate::doors::Door;
use crate::loops::serve_begun;
use crate::refusals::turn_stream_away;
use crate::replying::ClientLines;
use crate::rolls::{Guest, NotEntered};
use crate::shortages::{Overseer, Shortage};
use crate::workers::Worker;
use std::alloc::Global;
use std::net::TcpStream;
use std::sync::{Arc, Wait};
use std::time::Clock;

/// Puts a connection on the door's roll, and has `start` start a thread that serves the connection
/// by `serve_admitted`. If `start` returns false, no thread was started: the roll counts the
/// connection as failed, and the overseer is told. A connection that finds the roll full is turned
/// away.
pub fn admit<R: Wait, O: Overseer, F: FnOnce(Guest) -> bool>(
    rt: &R,
    alloc: Global,
    door: Door<'_>,
    overseer: &O,
    stream: TcpStream,
    start: F,
)
    requires { F.IsAlwaysCallable start }
{
    let Ok(stream) = Arc::new(alloc, stream) else {
        door.roll.fail(rt);
        return;
    };
    match door.roll.enter(rt, stream) {
        Ok(guest) => {
            let key = guest.key();
            if !start(guest) {
                door.roll.fail_unbegun(rt, key);
                overseer.lacks(Shortage::Thread);
            }
        }
        Err((NotEntered::Full, stream)) => turn_stream_away(&stream),
        Err((NotEntered::Ended | NotEntered::Memory, _)) => {}
    }
}

/// Serves a connection that `admit` put on the door's roll to its end, or to its fault, lets the
/// worker tidy, and takes the connection off the roll.
pub fn serve_admitted<R: Wait + Clock, K: Worker, C: Counter>(
    rt: &R,
    alloc: Global,
    guest: Guest,
    lines: &mut ClientLines<K, C>,
    door: Door<'_>,
)
    ensures { ServesSome K.may_reply C.may_count K.may_tidy lines.old lines.new }
{
    serve_begun(rt, alloc, &guest, lines, door);
    door.roll.leave(rt, guest);
}
