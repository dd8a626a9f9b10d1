//! Connections that come to an entrance, which a worker serves one after another.

use crate::arrivals::{Arrivals, Reception, Server};
use crate::counts::Counter;
use crate::replying::ClientLines;
use crate::workers::Worker;

/// What connections come to, and where each is entered while a worker serves it.
pub trait Entrance: Arrivals {
    ghost use Rattle.std.specs.Prelude.{Option};
    ghost use Rattle.tcp_connections.specs.Connections.{ServesSome};

    /// A connection that was entered.
    type Guest: Drop;

    // before and after, as what a connection may be entered, if it is
    ghost may_enter: { Self → Self.Connection → Option Self.Guest → Self → Type 0 };

    // what may become of one that is served
    ghost may_talk: { Self → Self.Guest → Self → Type 0 };

    // and of one that leaves
    ghost may_leave: { Self → Self.Guest → Self → Type 0 };

    /// Enters a connection; None where it isn't to be served.
    fn enter(&mut self, connection: Self::Connection) -> Option<Self::Guest>
        ensures { may_enter self.old connection result self.new };

    /// Serves a connection to its end, or to its fault, and then lets the worker tidy.
    fn talk<K: Worker, C: Counter>(&mut self, guest: &Self::Guest, lines: &mut ClientLines<K, C>)
        ensures talked { may_talk self.old guest.now self.new }
        ensures served { ServesSome K.may_reply C.may_count K.may_tidy lines.old lines.new };

    /// The connection has ended.
    fn leave(&mut self, guest: Self::Guest)
        ensures { may_leave self.old guest self.new };
}

/// The lines of a worker meet those that come to an entrance. By `serve_each` one is served after
/// another; a connection's fault ends that connection alone.
impl<E: Entrance, K: Worker, C: Counter> Arrivals for Reception<E, ClientLines<K, C>> {
    ghost use Rattle.tcp_connections.specs.Arrivals.{AcceptsAt, FindsAt, MissesAt};

    type Connection = E::Connection;

    type Fault = E::Fault;

    ghost may_accept = { AcceptsAt E.may_accept };

    ghost may_find = { FindsAt E.may_find };

    ghost may_miss = { MissesAt E.may_miss };

    fn accept(&mut self) -> Result<E::Connection, E::Fault> {
        self.arrivals.accept()
    }

    fn is_closed(&self) -> bool {
        self.arrivals.is_closed()
    }

    fn miss(&mut self, fault: E::Fault) {
        self.arrivals.miss(fault);
    }
}

impl<E: Entrance, K: Worker, C: Counter> Server for Reception<E, ClientLines<K, C>> {
    ghost use Rattle.tcp_connections.specs.Entrances.{Receives};

    ghost may_serve = { Receives E.may_enter E.may_talk E.may_leave K.may_reply C.may_count
        K.may_tidy };

    fn serve(&mut self, connection: E::Connection) {
        let Some(guest) = self.arrivals.enter(connection) else {
            return;
        };
        self.arrivals.talk(&guest, &mut self.host);
        self.arrivals.leave(guest);
    }
}
