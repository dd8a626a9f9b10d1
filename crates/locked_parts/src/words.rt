//! What parts answer, as plain words: a segment by its range, a refusal by its own reason.
ghost use Rattle.std.specs.Prelude.{◌≡◌};
ghost use Rattle.locked_parts.specs.Words.{given_word, carve_word, free_word, span_word, put_word};
ghost use Rattle.locked_parts.specs.Words.{add_word, full_word, empty_word};

use deed_core::{Deed, Range, Segment};
use magazine_layer::{EmptyFault, FullFault};
use slab_layer::{AddFault, PutFault};
use tag_arena::{ArenaFault, SpanFault};

/// What a part answered.
#[derive(Clone, Copy, PartialEq, Eq, Debug)]
pub enum Word {
    /// A segment of this range came out.
    Gave(Range),
    /// It was done, and nothing came out.
    Done,
    /// The segment was refused.
    Refused,
    /// No arena of this quantum takes the request.
    BadRequest,
    /// No free range serves it.
    NoFit,
    /// Out of memory.
    NoMemory,
    /// The span overlaps one that is there.
    Overlaps,
    /// It isn't in whole quanta.
    NotAligned,
    /// It isn't of a slab's size.
    WrongSize,
    /// The segment is no chunk of a slab that is there.
    NotMine,
    /// It is one that is at home.
    AtHome,
    /// The depot's magazines have this size, and the CPU's another.
    OldSize(usize),
    /// The depot has no full magazine.
    NoneFull,
    /// It has no empty one.
    NoneEmpty,
    /// The CPU's magazines aren't both full.
    NotFull,
}

/// Of a part that may give a segment.
pub(crate) fn word_of_given<D: Deed>(given: &Option<Segment<D>>) -> Word
    ensures { result ≡ given_word given.now }
{
    match given {
        Some(segment) => Word::Gave(segment.range()),
        None => Word::Done,
    }
}

/// Of a carve.
pub(crate) fn word_of_carve<D: Deed>(carved: &Result<Segment<D>, ArenaFault>) -> Word
    ensures { result ≡ carve_word carved.now }
{
    match carved {
        Ok(segment) => Word::Gave(segment.range()),
        Err(ArenaFault::BadRequest) => Word::BadRequest,
        Err(ArenaFault::NoFit) => Word::NoFit,
        Err(ArenaFault::NoMemory) => Word::NoMemory,
    }
}

/// Of a free.
pub(crate) fn word_of_free<D: Deed>(freed: &Result<Option<Segment<D>>, Segment<D>>) -> Word
    ensures { result ≡ free_word freed.now }
{
    match freed {
        Ok(whole) => word_of_given(whole),
        Err(_) => Word::Refused,
    }
}

/// Of a span that is added, and its first units carved.
pub(crate) fn word_of_span<D: Deed>(carved: &Result<Segment<D>, SpanFault<Segment<D>>>) -> Word
    ensures { result ≡ span_word carved.now }
{
    match carved {
        Ok(segment) => Word::Gave(segment.range()),
        Err(SpanFault::Overlaps(_)) => Word::Overlaps,
        Err(SpanFault::NotAligned(_)) => Word::NotAligned,
        Err(SpanFault::NoMemory(_)) => Word::NoMemory,
    }
}

/// Of a chunk that is put back.
pub(crate) fn word_of_put<D: Deed>(put: &Result<(), PutFault<Segment<D>>>) -> Word
    ensures { result ≡ put_word put.now }
{
    match put {
        Ok(()) => Word::Done,
        Err(PutFault::NotMine(_)) => Word::NotMine,
        Err(PutFault::AtHome(_)) => Word::AtHome,
    }
}

/// Of a slab that is made, and its first chunk taken.
pub(crate) fn word_of_add<D: Deed>(added: &Result<Segment<D>, AddFault<Segment<D>>>) -> Word
    ensures { result ≡ add_word added.now }
{
    match added {
        Ok(segment) => Word::Gave(segment.range()),
        Err(AddFault::WrongSize(_)) => Word::WrongSize,
        Err(AddFault::Overlaps(_)) => Word::Overlaps,
        Err(AddFault::NoMemory(_)) => Word::NoMemory,
    }
}

/// Of an exchange for a full magazine.
pub(crate) fn word_of_full(swapped: &Result<(), FullFault>) -> Word
    ensures { result ≡ full_word swapped.now }
{
    match swapped {
        Ok(()) => Word::Done,
        Err(FullFault::OldSize(size)) => Word::OldSize(*size),
        Err(FullFault::NoneFull) => Word::NoneFull,
    }
}

/// Of one for an empty magazine.
pub(crate) fn word_of_empty(swapped: &Result<(), EmptyFault>) -> Word
    ensures { result ≡ empty_word swapped.now }
{
    match swapped {
        Ok(()) => Word::Done,
        Err(EmptyFault::OldSize(size)) => Word::OldSize(*size),
        Err(EmptyFault::NoneEmpty) => Word::NoneEmpty,
    }
}
