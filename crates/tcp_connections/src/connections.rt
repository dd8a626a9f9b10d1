//! One connection, over any reader and writer.
ghost use Rattle.std.specs.Prelude.{◌≡◌, [], false, OnOk, IfErr};
ghost use Rattle.lease_server.specs.Watching.{has_failed, streams_of};
ghost use Rattle.tcp_connections.specs.Connections.{BreaksOff, ServesConnection, ServesSome};

use crate::counts::Counter;
use crate::links::Link;
use crate::replying::ClientLines;
use crate::workers::Worker;
use lease_server::{Intake, ServeFault, Watched, serve};
use std::alloc::Global;
use std::io::{Read, Write};

/// Serves a connection to its end, or to its fault, tells its peer that no answer follows, and then
/// lets the worker tidy, for which no peer waits. At each fault the lines before it are answered as
/// `lease_server`'s `serve` says, and the worker can serve the next connection.
pub fn serve_connection<R: Read, W: Write, L: Link, K: Worker, C: Counter>(
    alloc: Global,
    reader: &mut Watched<R>,
    writer: &mut Watched<W>,
    link: &mut L,
    lines: &mut ClientLines<K, C>,
) -> Result<(), ServeFault>
    requires { (has_failed reader.old ≡ false) × (has_failed writer.old ≡ false) }
    ensures ok { OnOk result (ServesConnection K.may_reply C.may_count K.may_tidy
        (streams_of R.remaining W.contents reader.old writer.old)
        (streams_of R.remaining W.contents reader.new writer.new) lines.old lines.new) }
    ensures err { IfErr result (BreaksOff K.may_reply C.may_count K.may_tidy
        (streams_of R.remaining W.contents reader.old writer.old)
        (streams_of R.remaining W.contents reader.new writer.new) lines.old lines.new) }
    ensures served { ServesSome K.may_reply C.may_count K.may_tidy lines.old lines.new }
    ensures ended { L.is_ended link.new }
{
    let mut input = Intake::new();
    let served = serve(alloc, &mut input, reader, writer, lines);
    link.end();
    lines.tidy();
    served
}
