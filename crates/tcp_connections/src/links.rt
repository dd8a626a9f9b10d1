//! The end of what a peer is answered.

use std::io::Read;
use std::net::{Shutdown, TcpStream};

/// How often what a connection still sent is read at its end, by 4,096 bytes.
const LAST_READS: u32 = 64;

/// A connection apart from its bytes: it tells its peer that they are at their end.
pub trait Link {
    // its peer is told that no answer follows
    ghost is_ended: { Self → Type 0 };

    /// Tells the peer that no answer follows.
    fn end(&mut self)
        ensures { is_ended self.new };
}

impl Link for &TcpStream {
    ghost use Rattle.std.specs.Prelude.{⊤};

    // (of a socket no contract can say what its peer is told)
    ghost is_ended = { λ _. ⊤ };

    fn end(&mut self) {
        let _ = self.shutdown(Shutdown::Write);
    }
}

/// Lets a connection go whose peer was told its end. What the peer sent by now is read, up to some,
/// since a socket that is closed with bytes unread may take what it wrote from its peer.
pub fn let_go(stream: &TcpStream) {
    if stream.set_nonblocking(true).is_err() {
        return;
    }
    let mut rest = stream;
    let mut buffer = [0u8; 4096];
    for _ in 0..LAST_READS {
        match rest.read(&mut buffer) {
            Ok(0) | Err(_) => return,
            Ok(_) => {}
        }
    }
}
