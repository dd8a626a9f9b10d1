//! Writing, with what a fault leaves.
ghost use Rattle.std.specs.Prelude.{◌≡◌, true, OnOk, OnErr, Err};
ghost use Rattle.std.specs.Io.KnownBytes.{Appends};
ghost use Rattle.lease_server.specs.Serving.{WritesFront};
ghost use Rattle.lease_server.specs.Watching.{inner_of, has_failed};

use crate::faults::ServeFault;
use crate::watching::Watched;
use std::io::Write;

/// Writes all of the bytes, or at a fault a front of them.
fn write_out<W: Write>(writer: &mut Watched<W>, bytes: &[u8]) -> Result<(), ServeFault>
    ensures ok { OnOk result (Appends (W.contents (inner_of writer.old))
        (W.contents (inner_of writer.new)) bytes.now) }
    ensures err { OnErr result (WritesFront bytes.now (W.contents (inner_of writer.old))
        (W.contents (inner_of writer.new))) }
    ensures works { OnOk result (has_failed writer.new ≡ has_failed writer.old) }
    ensures failed { OnErr result (has_failed writer.new ≡ true) }
    ensures fault { OnErr result (result ≡ Err ServeFault.Write) }
{
    let mut rest = bytes;
    while !rest.is_empty() {
        let n = writer.write(rest)?;
        rest = &rest[n..];
    }
    Ok(())
}

/// Writes all of the bytes and flushes, so that who reads sees them at once.
pub fn deliver<W: Write>(writer: &mut Watched<W>, bytes: &[u8]) -> Result<(), ServeFault>
    ensures ok { OnOk result (Appends (W.contents (inner_of writer.old))
        (W.contents (inner_of writer.new)) bytes.now) }
    ensures err { OnErr result (WritesFront bytes.now (W.contents (inner_of writer.old))
        (W.contents (inner_of writer.new))) }
    ensures works { OnOk result (has_failed writer.new ≡ has_failed writer.old) }
    ensures failed { OnErr result (has_failed writer.new ≡ true) }
    ensures fault { OnErr result (result ≡ Err ServeFault.Write) }
{
    if bytes.is_empty() {
        return Ok(());
    }
    write_out(writer, bytes)?;
    writer.flush()
}
