//! Connections, each served by a thread of its own.

use crate::houses::House;
use crate::shared_workers::SharedWorker;
use deed_table::Name;
use std::alloc::AllocGlobal;
use std::net::TcpStream;
use std::sync::Wait;
use std::sync::atomic::Ordering;
use std::thread;
use std::thread::{Builder, Scope, Threads};
use std::time::Clock;
use tcp_connections::{
    Begun, ClientLines, Guest, Overseer, TcpEntrance, admit, begin_each, serve_admitted,
};

/// How large a stack a connection's thread has, in bytes.
const STACK: usize = 256 * 1024;

/// Serves each connection of the house's door by a thread of its own, and comes back once the door
/// is closed and all connections have ended. One that comes where there are as many as there may be
/// is told so, and ended. Where one can't be accepted, the others are served, and it tries again
/// after a pause.
pub fn serve_talks<
    N: Name + Send + Sync,
    R: Threads + Wait + Clock + Sync + AllocGlobal,
    O: Overseer,
>(rt: &R, house: &House<'_, N>, overseer: &O) -> Begun {
    let begun = thread::scope(thread::scope_env(), rt, move |scope| {
        accept_talks(rt, scope, house, overseer)
    });
    house.over.store(true, Ordering::SeqCst);
    begun
}

/// Starts a thread for each connection, as they come, until the door is closed.
fn accept_talks<
    's,
    E,
    N: Name + Send + Sync,
    R: Threads + Wait + Clock + Sync + AllocGlobal,
    O: Overseer,
>(rt: &'s R, scope: &Scope<'s, E>, house: &'s House<'s, N>, overseer: &O) -> Begun {
    let mut entrance = TcpEntrance::new(rt, rt.alloc(), house.door, overseer);
    begin_each(rt, &mut entrance, move |stream| {
        admit_talk(rt, scope, house, overseer, stream);
    })
}

/// Admits a connection, for which a thread is started.
fn admit_talk<
    's,
    E,
    N: Name + Send + Sync,
    R: Threads + Wait + Clock + Sync + AllocGlobal,
    O: Overseer,
>(rt: &'s R, scope: &Scope<'s, E>, house: &'s House<'s, N>, overseer: &O, stream: TcpStream) {
    admit(rt, rt.alloc(), house.door, overseer, stream, |guest| {
        start_talk(rt, scope, house, guest)
    });
}

/// Starts the thread of a connection, and returns whether it was started.
fn start_talk<'s, E, N: Name + Send + Sync, R: Threads + Wait + Clock + Sync + AllocGlobal>(
    rt: &'s R,
    scope: &Scope<'s, E>,
    house: &'s House<'s, N>,
    guest: Guest,
) -> bool {
    let started = Builder::new()
        .stack_size(STACK)
        .spawn_scoped(scope, move || talk(rt, house, guest));
    started.is_ok()
}

/// Serves a connection of the house by a worker of its own.
fn talk<N: Name, R: Wait + Clock + AllocGlobal>(rt: &R, house: &House<'_, N>, guest: Guest) {
    let tally = house.door.counts.at(guest.key());
    let worker = SharedWorker::new(rt, &house.cpus, guest.key(), tally);
    let mut lines = ClientLines::new(worker, tally);
    serve_admitted(rt, rt.alloc(), guest, &mut lines, house.door);
    drop(lines.into_worker());
}
