//! What is so of each line that a running system answered, or that was stopped in it, over deeds of
//! any kind. A law does nothing: its contract is the law.
ghost use Rattle.lease_threads.specs.LineLaws.{LineKeeps, StoppedLineKeeps, LineNoFit};

use locked_parts::Gate;

/// By whatever gate, no line loses a segment, and the book is asked to refuse one for NoFit only
/// after carves that found none.
pub fn line_laws<D, G: Gate>()
    ensures kept { LineKeeps D G.passed }
    ensures stopped { StoppedLineKeeps D G.may_stop G.passed }
    ensures no_fit { LineNoFit D G.passed }
{}
