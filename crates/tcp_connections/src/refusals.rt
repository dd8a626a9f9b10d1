//! What is written to a connection that isn't served.
ghost use Rattle.std.specs.Prelude.{OnOk, OnErr};
ghost use Rattle.std.specs.Io.KnownBytes.{Appends};
ghost use Rattle.lease_proto.specs.Faults.{error_text};
ghost use Rattle.lease_server.specs.Serving.{WritesFront};
ghost use Rattle.lease_server.specs.Watching.{inner_of};

use crate::links::{Link, let_go};
use lease_proto::ErrorWord;
use lease_server::{ServeFault, Watched, deliver};
use std::io::Write;
use std::net::TcpStream;

/// Turns a socket's connection away, and lets it go.
pub(crate) fn turn_stream_away(stream: &TcpStream) {
    let mut link = stream;
    let _ = turn_away(&mut Watched::new(stream), &mut link);
    let_go(stream);
}

/// Tells a peer that its connection is one too many, and that no answer follows.
pub fn turn_away<W: Write, L: Link>(writer: &mut Watched<W>, link: &mut L) -> Result<(), ServeFault>
    ensures ok { OnOk result (Appends (W.contents (inner_of writer.old))
        (W.contents (inner_of writer.new)) (error_text ErrorWord.Busy)) }
    ensures err { OnErr result (WritesFront (error_text ErrorWord.Busy)
        (W.contents (inner_of writer.old)) (W.contents (inner_of writer.new))) }
    ensures ended { L.is_ended link.new }
{
    let told = deliver(writer, ErrorWord::Busy.line());
    link.end();
    told
}
