//! Where workers take connections.

use crate::pacing::Pace;
use crate::rolls::Roll;
use crate::tallies::Counts;
use std::io;
use std::net::{TcpListener, TcpStream};
use std::sync::atomic::{AtomicBool, Ordering};

/// What workers take connections from, and how they wait for their peers.
#[derive(Clone, Copy)]
pub struct Door<'a> {
    /// The socket that is listened at.
    pub listener: &'a TcpListener,
    /// Raised once no further connection is to be served.
    pub stop: &'a AtomicBool,
    pub pace: Pace,
    /// The connections that are served.
    pub roll: &'a Roll,
    /// What was asked and answered.
    pub counts: &'a Counts,
}

impl Door<'_> {
    /// Waits for a connection.
    pub(crate) fn accept(&self) -> io::Result<TcpStream> {
        let (stream, _) = self.listener.accept()?;
        Ok(stream)
    }

    /// Whether no further connection is to be served.
    pub(crate) fn is_closed(&self) -> bool {
        self.stop.load(Ordering::SeqCst)
    }
}
