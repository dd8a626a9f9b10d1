//! A reader or a writer, watched for its failure: so that a fault can be laid to it.
ghost use Rattle.std.specs.Prelude.{◌≡◌, ◌≤◌, ◌<◌, ◌+◌, ◌-◌, ◌^◌, min, length, take, true, false};
ghost use Rattle.std.specs.Prelude.{IfOk, OnOk, OnErr, Err};
ghost use Rattle.std.specs.Io.KnownBytes.{Appends, Consumes, IsAtEnd, Keeps};
ghost use Rattle.lease_server.specs.Watching.{has_failed, inner_of, reads_of};

use crate::faults::ServeFault;
use std::io::{ErrorKind, Read, Write};

/// A reader or a writer, how often it was read, and whether it has failed: answered an error other
/// than an interruption, took no byte of some, or was interrupted 2^64 - 1 times in a row. Only
/// such a call makes it a failed one. The count of reads stops at 2^64 - 1.
#[derive(Drop)]
pub struct Watched<T> {
    inner: T,
    failed: bool,
    reads: u64,
}

impl<T> Watched<T> {
    /// Watches a reader or a writer that has not failed yet.
    pub fn new(inner: T) -> Watched<T>
        ensures inner { inner_of result ≡ inner }
        ensures failed { has_failed result ≡ false }
        ensures reads { reads_of result ≡ 0 }
    {
        Watched {
            inner,
            failed: false,
            reads: 0,
        }
    }

    /// Whether a call of it has failed.
    pub fn has_failed(&self) -> bool
        ensures { result ≡ has_failed self.now }
    {
        self.failed
    }

    /// The reader or writer, as its last call left it.
    pub fn into_inner(self) -> T
        ensures { result ≡ inner_of self }
    {
        let Watched {
            inner,
            failed: _,
            reads: _,
        } = self;
        inner
    }
}

impl<R: Read> Watched<R> {
    /// How many reads were asked of it, up to 2^64 - 1.
    pub fn reads(&self) -> u64
        ensures { result ≡ reads_of self.now }
    {
        self.reads
    }

    /// Reads into a buffer and says how many bytes, 0 only at the end or where there is no room.
    pub fn read(&mut self, buf: &mut [u8]) -> Result<usize, ServeFault>
        ensures bound { IfOk result (λ n. n ≤ length buf.new) }
        ensures bytes { IfOk result (λ n. Consumes (R.remaining (inner_of self.old))
            (R.remaining (inner_of self.new)) (take n buf.new)) }
        ensures end { IfOk result (λ n. n ≡ 0 → 0 < length buf.new
            → IsAtEnd (R.remaining (inner_of self.new))) }
        ensures works { OnOk result (has_failed self.new ≡ has_failed self.old) }
        ensures kept { OnErr result (Keeps (R.remaining (inner_of self.old))
            (R.remaining (inner_of self.new))) }
        ensures failed { OnErr result (has_failed self.new ≡ true) }
        ensures fault { OnErr result (result ≡ Err ServeFault.Read) }
        ensures counted { reads_of self.new ≡ min (reads_of self.old + 1) (2 ^ 64 - 1) }
    {
        self.reads = self.reads.saturating_add(1);
        for _ in 0..u64::MAX {
            match self.inner.read(buf) {
                Ok(n) => return Ok(n),
                Err(e) if e.kind() == ErrorKind::Interrupted => {}
                Err(_) => {
                    self.failed = true;
                    return Err(ServeFault::Read);
                }
            }
        }
        self.failed = true;
        Err(ServeFault::Read)
    }
}

impl<W: Write> Watched<W> {
    /// Writes a front of the bytes, of which there are some, and says how many.
    pub fn write(&mut self, bytes: &[u8]) -> Result<usize, ServeFault>
        requires { 0 < length bytes.now }
        ensures bound { IfOk result (λ n. (0 < n) × (n ≤ length bytes.now)) }
        ensures bytes { IfOk result (λ n. Appends (W.contents (inner_of self.old))
            (W.contents (inner_of self.new)) (take n bytes.now)) }
        ensures works { OnOk result (has_failed self.new ≡ has_failed self.old) }
        ensures kept { OnErr result (Keeps (W.contents (inner_of self.old))
            (W.contents (inner_of self.new))) }
        ensures failed { OnErr result (has_failed self.new ≡ true) }
        ensures fault { OnErr result (result ≡ Err ServeFault.Write) }
        ensures counted { reads_of self.new ≡ reads_of self.old }
    {
        for _ in 0..u64::MAX {
            match self.inner.write(bytes) {
                Ok(0) => {
                    self.failed = true;
                    return Err(ServeFault::Write);
                }
                Ok(n) => return Ok(n),
                Err(e) if e.kind() == ErrorKind::Interrupted => {}
                Err(_) => {
                    self.failed = true;
                    return Err(ServeFault::Write);
                }
            }
        }
        self.failed = true;
        Err(ServeFault::Write)
    }

    /// Hands on what was written.
    pub fn flush(&mut self) -> Result<(), ServeFault>
        ensures kept { Keeps (W.contents (inner_of self.old)) (W.contents (inner_of self.new)) }
        ensures works { OnOk result (has_failed self.new ≡ has_failed self.old) }
        ensures failed { OnErr result (has_failed self.new ≡ true) }
        ensures fault { OnErr result (result ≡ Err ServeFault.Write) }
        ensures counted { reads_of self.new ≡ reads_of self.old }
    {
        for _ in 0..u64::MAX {
            match self.inner.flush() {
                Ok(()) => return Ok(()),
                Err(e) if e.kind() == ErrorKind::Interrupted => {}
                Err(_) => {
                    self.failed = true;
                    return Err(ServeFault::Write);
                }
            }
        }
        self.failed = true;
        Err(ServeFault::Write)
    }
}
