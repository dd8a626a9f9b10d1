//! What the threads of a server share whose connections have a thread each.
ghost use Rattle.std.specs.Prelude.{◌<◌, length};

use crate::seats::Seat;
use crate::shared_cpus::SharedCpus;
use deed_table::Name;
use lease_threads::System;
use std::sync::Mutex;
use std::sync::atomic::{AtomicBool, Ordering};
use tcp_connections::Door;

/// Where connections come from, and what serves them.
#[derive(Drop)]
pub struct House<'a, N: Name> {
    pub door: Door<'a>,
    pub cpus: SharedCpus<'a, N>,
    /// Raised once all connections have ended, and none comes any more.
    pub over: AtomicBool,
}

impl<'a, N: Name> House<'a, N> {
    /// A house whose lines are answered by these seats of the system.
    pub fn new(door: Door<'a>, system: &'a System<N>, seats: &'a [Mutex<Seat<N>>]) -> House<'a, N>
        requires { 0 < length seats.now }
    {
        House {
            door,
            cpus: SharedCpus::new(system, seats),
            over: AtomicBool::new(false),
        }
    }

    /// Whether all connections have ended.
    pub(crate) fn is_over(&self) -> bool {
        self.over.load(Ordering::SeqCst)
    }
}
