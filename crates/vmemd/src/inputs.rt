//! An input that may have nothing to give yet.
ghost use Rattle.std.specs.Prelude.{◌≡◌, ◌≢◌, IfErr};
ghost use Rattle.std.specs.Io.{ReadsAtMost};
ghost use Rattle.std.specs.Io.KnownBytes.{ReadConsumes};
ghost use Rattle.std.specs.IoError.{error_kind};
ghost use Rattle.vmemd.specs.Inputs.{input_of};

use std::io::{ErrorKind, Read};
use std::sync::Wait;
use std::time::{Clock, Duration};
use std::{io, thread};

/// How long, in milliseconds, an input that has nothing to give yet is left alone.
pub const INPUT_PAUSE: u64 = 50;

/// A reader that waits for an input which doesn't let it wait, as a pipe or a terminal that another
/// program set so: where there is nothing to read yet, it asks again after a pause.
#[derive(Drop)]
pub struct PatientReader<'a, R, I> {
    rt: &'a R,
    input: I,
}

impl<'a, R: Wait + Clock, I: Read> PatientReader<'a, R, I> {
    /// Waits for this input.
    pub fn new(rt: &'a R, input: I) -> PatientReader<'a, R, I>
        ensures { input_of result ≡ input }
    {
        PatientReader { rt, input }
    }

    /// Reads into a buffer, once there is something to read, or the end, or a fault.
    pub fn read_on(&mut self, buf: &mut [u8]) -> io::Result<usize>
        ensures bound { ReadsAtMost result buf.new }
        ensures bytes { ReadConsumes (I.remaining (input_of self.old))
            (I.remaining (input_of self.new)) result buf.new }
        ensures waits { IfErr result (λ e. error_kind e ≢ ErrorKind.WouldBlock) }
    {
        for _ in self.rt.forever() {
            match self.input.read(buf) {
                Err(e) if e.kind() == ErrorKind::WouldBlock => {
                    thread::sleep(self.rt, Duration::from_millis(INPUT_PAUSE));
                }
                read => return read,
            }
        }
        unreachable!()
    }
}

impl<R: Wait + Clock, I: Read> Read for PatientReader<'_, R, I> {
    ghost use Rattle.vmemd.specs.Inputs.{input_of};

    ghost remaining = { λ p. I.remaining (input_of p) };

    fn read(&mut self, buf: &mut [u8]) -> io::Result<usize> {
        self.read_on(buf)
    }
}
