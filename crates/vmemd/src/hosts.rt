//! What a server runs by.

use std::net::{Net, TcpListener, TcpStream};
use std::sync::Wait;
use std::thread::Threads;
use std::time::Clock;

/// A runtime with all that a server takes: sockets, threads, locks, the clock, standard error and
/// memory.
pub trait Host: Net<Listener = TcpListener, Stream = TcpStream>
    + Threads
    + Wait
    + Clock
    + Eprint
    + Sync
    + AllocGlobal {}

impl<R> Host for R
where
    R: Net<Listener = TcpListener, Stream = TcpStream>
        + Threads
        + Wait
        + Clock
        + Eprint
        + Sync
        + AllocGlobal,
{}
