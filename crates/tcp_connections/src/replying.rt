//! A worker as a responder: lines are read for it, its replies written, and both counted.
ghost use Rattle.std.specs.Prelude.{◌≡◌};
ghost use Rattle.tcp_connections.specs.Connections.{HasTidied};

use crate::counts::{Counter, count_exchange};
use crate::workers::Worker;
use lease_proto::{LINE_ROOM, Line};
use lease_server::Responder;
use lease_watch::Word;
use std::alloc::AllocError;
use std::marker::Model;

/// A worker that is given the lines of clients as bytes, each of which is counted once, with its
/// reply. What is no line of a client is answered and counted by its error line, and the worker
/// never sees it. It isn't to be dropped: `into_worker` ends it. A contract sees the worker and
/// what counts.
pub struct ClientLines<K, C> {
    worker: K,
    counter: C,
}

impl<K, C> Model for ClientLines<K, C> {
    ghost use Rattle.tcp_connections.specs.Replying.{LinesState};

    ghost Value = { LinesState K C };

    ghost view = { λ l. record { worker = l.worker; counter = l.counter } };
}

impl<K, C: Drop> ClientLines<K, C> {
    /// The lines for a worker, counted there.
    pub fn new(worker: K, counter: C) -> ClientLines<K, C>
        ensures { result ≡ record { worker = worker; counter = counter } }
    {
        ClientLines { worker, counter }
    }

    /// The worker, once it answers no more.
    pub fn into_worker(self) -> K
        ensures { result ≡ self.worker }
    {
        let ClientLines { worker, counter: _ } = self;
        worker
    }
}

impl<K: Worker, C> ClientLines<K, C> {
    /// Lets the worker tidy.
    pub fn tidy(&mut self)
        ensures { HasTidied K.may_tidy self.old self.new }
    {
        let _ = self.worker.tidy();
    }
}

impl<K: Worker, C: Counter> Responder for ClientLines<K, C> {
    ghost use Rattle.tcp_connections.specs.Replying.{MayAnswer};

    ghost may_answer = { MayAnswer K.may_reply C.may_count };

    fn answer(&mut self, line: &[u8], out: &mut Vec<u8>) -> Result<(), AllocError> {
        out.reserve(LINE_ROOM)?;
        match Line::read(line) {
            Ok(line) => {
                let reply = self.worker.reply(&line);
                count_exchange(&mut self.counter, &line, &reply);
                reply.write(out)
            }
            Err(fault) => {
                out.extend_from_slice(fault.line())?;
                self.counter.count(Word::Error);
                Ok(())
            }
        }
    }
}
