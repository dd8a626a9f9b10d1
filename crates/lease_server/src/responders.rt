//! What answers the lines.
ghost use Rattle.std.specs.Prelude.{◌≡◌, ◌++◌, ℕ, List, OnOk, OnErr};

use std::alloc::AllocError;

/// Answers one line at a time, in the order in which the lines came. What a serving may write is
/// stated over `may_answer`, which each responder says of itself.
pub trait Responder {
    /// From a state, a line and an answer to it, given with its line feeds, and the state after it:
    /// what the responder may do. More than one answer may be allowed, or none.
    ghost may_answer: { Self → List ℕ → List ℕ → Self → Type 0 };

    /// Appends the answer to a line. `serve` gives each line without its line feed, of at most
    /// `LONGEST_LINE` bytes, also an empty one, and never one that is too long or unended. Out of
    /// memory it takes no effect, and ends the serving: the responder isn't asked again.
    fn answer(&mut self, line: &[u8], out: &mut Vec<u8>) -> Result<(), AllocError>
        ensures ok { OnOk result ((reply : List ℕ) × (out.new.items ≡ out.old.items ++ reply)
            × may_answer self.old line.now reply self.new) }
        ensures unwritten { OnErr result (out.new.items ≡ out.old.items) }
        ensures unchanged { OnErr result (self.new ≡ self.old) };
}

/// Answers one line at a time by a text that is always there. What a telling may write is stated
/// over `may_answer`, as with a `Responder`.
pub trait Teller {
    /// From a state, a line and an answer to it, given with its line feed, and the state after it:
    /// what the teller may do.
    ghost may_answer: { Self → List ℕ → List ℕ → Self → Type 0 };

    /// The answer to a line. `tell` gives each line as `serve` does.
    fn tell(&mut self, line: &[u8]) -> &'static [u8]
        ensures { may_answer self.old line.now result.now self.new };
}
