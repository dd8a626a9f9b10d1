//! Connections that come one after another, wherever they come from.
ghost use Rattle.tcp_connections.specs.Arrivals.{AcceptsAt, BeginsAt, FindsAt, MissesAt};
ghost use Rattle.tcp_connections.specs.Arrivals.{ComesNext, ServesEach};

use std::sync::Wait;

/// What connections come to, one after another.
pub trait Arrivals {
    ghost use Rattle.std.specs.Prelude.{Bool, Result};

    /// A connection that was accepted.
    type Connection: Drop;

    /// Why one couldn't be accepted.
    type Fault: Drop;

    // before and after waiting, what may have come
    ghost may_accept: { Self → Result Self.Connection Self.Fault → Self → Type 0 };

    // whether the door may be found closed
    ghost may_find: { Self → Bool → Type 0 };

    // before and after, what may become of what couldn't be accepted
    ghost may_miss: { Self → Self.Fault → Self → Type 0 };

    /// Waits for a connection.
    fn accept(&mut self) -> Result<Self::Connection, Self::Fault>
        ensures { may_accept self.old result self.new };

    /// Whether no further connection is to be served.
    fn is_closed(&self) -> bool
        ensures { may_find self.now result };

    /// A connection couldn't be accepted.
    fn miss(&mut self, fault: Self::Fault)
        ensures { may_miss self.old fault self.new };
}

/// What connections come to, and what serves them.
pub trait Server: Arrivals {
    // before and after, what may become of a connection
    ghost may_serve: { Self → Self.Connection → Self → Type 0 };

    /// Serves a connection, or begins to.
    fn serve(&mut self, connection: Self::Connection)
        ensures { may_serve self.old connection self.new };
}

/// Where connections come to, and who meets them there.
pub struct Reception<A, H> {
    pub arrivals: A,
    pub host: H,
}

/// That each connection was served, and none further is to be: `serve_each` alone makes one, once it
/// found so.
#[derive(Debug, PartialEq, Eq, Drop)]
pub struct Served(());

/// The same of something that was begun with each: `begin_each` alone makes one.
#[derive(Debug, PartialEq, Eq, Drop)]
pub struct Begun(());

/// The next connection that is accepted, or None once the door is closed: it looks at the door
/// after each that came, and misses each that couldn't be accepted.
pub fn next_open<R: Wait, A: Arrivals>(rt: &R, arrivals: &mut A) -> Option<A::Connection>
    ensures { ComesNext A.may_accept A.may_find A.may_miss arrivals.old result arrivals.new }
{
    for _ in rt.forever() {
        let came = arrivals.accept();
        if arrivals.is_closed() {
            return None;
        }
        match came {
            Ok(connection) => return Some(connection),
            Err(fault) => arrivals.miss(fault),
        }
    }
    unreachable!()
}

/// Serves one connection after another until the door is closed: it looks at the door after each
/// that came, and serves none that came later.
pub fn serve_each<R: Wait, S: Server>(rt: &R, server: &mut S) -> Served
    ensures { ServesEach S.may_accept S.may_find S.may_serve S.may_miss server.old server.new }
{
    for _ in rt.forever() {
        let Some(connection) = next_open(rt, server) else {
            return Served(());
        };
        server.serve(connection);
    }
    unreachable!()
}

/// Has something begin with each connection, one after another, as `serve_each` serves them: what
/// it begins, as a thread, may go on beside those that come later.
pub fn begin_each<R: Wait, A: Arrivals, F: FnMut(A::Connection)>(
    rt: &R,
    arrivals: &mut A,
    mut begin: F,
) -> Begun
    requires { F.IsAlwaysCallable begin }
    ensures { (last : F) × ServesEach (AcceptsAt A.may_accept) (FindsAt A.may_find)
        (BeginsAt (λ old connection new. F.step old connection tt new)) (MissesAt A.may_miss)
        (record { arrivals = arrivals.old; host = begin })
        (record { arrivals = arrivals.new; host = last }) }
{
    for _ in rt.forever() {
        let Some(connection) = next_open(rt, arrivals) else {
            return Begun(());
        };
        begin(connection);
    }
    unreachable!()
}
