//! What an operator's line that grows a root asks for, and what it is told.
ghost use Rattle.std.specs.Prelude.{◌≡◌, ◌<◌, length, IfOk};
ghost use Rattle.lease_call.specs.Growing as spec;
ghost use Rattle.lease_call.specs.Growing.{AsksGrowth};

use arena_tree::{GrowFault, Tree};
use deed_core::Range;
use lease_proto::{ErrorWord, GrowLine};

/// A further span of a root: the root's number, and the range of the span.
#[derive(Clone, Copy, Debug, PartialEq, Eq)]
pub struct Growth {
    pub arena: u32,
    pub range: Range,
}

/// What a line asks for: `NoArena` where no root has its name, and else `Range` where its base and
/// length are no range. Whether the root may have that range only the root knows.
pub fn growth_asked(tree: &Tree, line: &GrowLine) -> Result<Growth, ErrorWord>
    ensures asked { AsksGrowth tree.now line.now result }
    ensures within { IfOk result (λ growth. growth.arena < length tree.now) }
{
    let Some(arena) = tree.find(&line.arena) else {
        return Err(ErrorWord::NoArena);
    };
    if tree.arena(arena).source.is_some() {
        return Err(ErrorWord::NoArena);
    }
    match Range::new(line.base.get(), line.len.get()) {
        Some(range) => Ok(Growth { arena, range }),
        None => Err(ErrorWord::Range),
    }
}

/// What an operator is told of a root that was to grow.
pub fn grow_outcome(grown: Result<(), GrowFault>) -> Result<(), ErrorWord>
    ensures { result ≡ spec.grow_outcome grown }
{
    match grown {
        Ok(()) => Ok(()),
        Err(fault) => Err(grow_word(fault)),
    }
}

/// The word of a root that didn't grow.
pub fn grow_word(fault: GrowFault) -> ErrorWord
    ensures { result ≡ spec.grow_word fault }
{
    match fault {
        GrowFault::NoArena | GrowFault::NotRoot => ErrorWord::NoArena,
        GrowFault::Overlaps | GrowFault::NotAligned => ErrorWord::Range,
        GrowFault::TooMany => ErrorWord::Many,
        GrowFault::NoMemory => ErrorWord::Memory,
    }
}
