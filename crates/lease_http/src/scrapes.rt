//! The connections of a socket, each of which asks once.

use crate::deadlines::{Timed, Until};
use crate::showing::Showing;
use crate::views::View;
use http_server::{Config, Connection, serve};
use lease_watch::Looks;
use std::alloc::{AllocGlobal, Global};
use std::hash::RandomState;
use std::io;
use std::io::{Read, Write};
use std::net::{TcpListener, TcpStream};
use std::sync::Wait;
use std::time::{Clock, Duration, Instant};
use tcp_connections::{Arrivals, Deadline, Limited, Link, Server, let_go, pause, serve_each};

/// Within how many seconds a connection has asked and taken its answer, or is cut off.
pub const SCRAPE_LIMIT: u64 = 5;

/// The longest body of a request, which nothing here reads.
const LONGEST_BODY: usize = 1024;

/// Who answers the requests of a socket.
#[derive(Drop)]
struct AtView<'a, V, R> {
    rt: &'a R,
    listener: &'a TcpListener,
    view: &'a V,
    keys: RandomState,
    looks: Looks,
}

impl<V: View, R: Wait + Clock + AllocGlobal> Arrivals for AtView<'_, V, R> {
    ghost use Rattle.std.specs.Prelude.{⊤};

    type Connection = TcpStream;

    type Fault = io::Error;

    // (of a socket no contract can say what it gives or takes, nor of a flag what threads make it)
    ghost may_accept = { λ _ _ _. ⊤ };

    ghost may_find = { λ _ _. ⊤ };

    ghost may_miss = { λ _ _ _. ⊤ };

    fn accept(&mut self) -> io::Result<TcpStream> {
        let (stream, _) = self.listener.accept()?;
        Ok(stream)
    }

    fn is_closed(&self) -> bool {
        self.view.is_over()
    }

    fn miss(&mut self, _fault: io::Error) {
        pause(self.rt);
    }
}

impl<V: View, R: Wait + Clock + AllocGlobal> Server for AtView<'_, V, R> {
    ghost use Rattle.std.specs.Prelude.{⊤};

    ghost may_serve = { λ _ _ _. ⊤ };

    fn serve(&mut self, stream: TcpStream) {
        let mut link = &stream;
        let rt = self.rt;
        self.looks = answer_scrape(rt, rt.alloc(), link, link, self.view, self.looks, self.keys);
        link.end();
        let_go(&stream);
    }
}

/// Answers the request of one connection after another, as `serve_each` does, until no one is to be
/// answered any more.
pub fn serve_scrapes<V: View, R: Wait + Clock + AllocGlobal>(
    rt: &R,
    listener: &TcpListener,
    view: &V,
    keys: RandomState,
) {
    let mut at_view = AtView {
        rt,
        listener,
        view,
        keys,
        looks: Looks::new(),
    };
    serve_each(rt, &mut at_view);
}

/// Answers a connection's request, and gives the looks after it. Where nothing can be seen for lack
/// of memory, or the deadline has come, the connection has no answer, or a part of one.
pub fn answer_scrape<S: Read + Limited + Drop, W: Write + Limited + Drop, V: View, C: Clock>(
    clock: &C,
    alloc: Global,
    input: S,
    output: W,
    view: &V,
    looks: Looks,
    keys: RandomState,
) -> Looks {
    let Ok(since) = Instant::now(clock) else {
        return looks;
    };
    let until = Until {
        clock,
        deadline: Deadline {
            since,
            limit: Duration::from_secs(SCRAPE_LIMIT),
        },
    };
    let mut reader = Timed::new(input, &until);
    let mut writer = Timed::new(output, &until);
    let mut showing = Showing::new(alloc, view, looks, &until);
    let mut config = Config::default();
    config.max_body_len = LONGEST_BODY;
    let mut connection = Connection::new(alloc, keys, config);
    let _ = serve(&mut connection, &mut showing, &mut reader, &mut writer);
    showing.looks
}
