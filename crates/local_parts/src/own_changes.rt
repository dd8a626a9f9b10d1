//! What one of a CPU's caches does, by itself or with its depot.
ghost use Rattle.std.specs.Prelude.{◌≡◌, []};
ghost use Rattle.stock.specs.Spaces.{HasCache};
ghost use Rattle.stock.specs.Steps.{HasQuantum};
ghost use Rattle.arena_tree.specs.Tags.{wording_of};
ghost use Rattle.local_parts.specs.OwnSteps.{fresh_word};
ghost use Rattle.local_parts.specs.OwnChanges.{OwnPushes, OwnChanges, EndsEmpty};
ghost use Rattle.local_parts.specs.OwnChanges.{OwnSwapsFull, OwnSwapsEmpty, OwnSwapsFresh};

use arena_tree::{ChangeFault, FreshFault, PartFault};
use deed_core::{Deed, Segment};
use magazine_layer::{EmptyFault, FullFault, Magazine, PutFullFault, is_magazine_size, two_empty};
use std::alloc::Global;
use stock::{OwnCache, Stock};

/// Keeps a round of this cache's size; another, or one for which there is no place, comes back.
pub(crate) fn push_own<D: Deed>(
    own: &mut OwnCache<D>,
    segment: Segment<D>,
) -> Result<(), Segment<D>>
    ensures { OwnPushes segment result own.old own.new }
{
    if !own.takes(&segment) {
        return Err(segment);
    }
    own.push(segment)
}

/// Changes over to two magazines of this size, with all rounds, where it is greater.
pub(crate) fn change_own<D: Deed>(
    alloc: Global,
    own: &mut OwnCache<D>,
    size: usize,
) -> Result<(), ChangeFault>
    ensures { OwnChanges size result own.old own.new }
{
    if !is_magazine_size(size) || size <= own.size() {
        return Err(ChangeFault::NotGreater);
    }
    let Ok((loaded, previous)) = two_empty(alloc, size) else {
        return Err(ChangeFault::NoMemory);
    };
    own.change(loaded, previous);
    Ok(())
}

/// Takes a full magazine of the depot for an empty one, where both of the CPU's are empty.
pub(crate) fn swap_full_own<D: Deed>(
    stock: &mut Stock<D>,
    own: &mut OwnCache<D>,
) -> Result<(), PartFault<FullFault>>
    requires has { HasCache stock.old own.old.arena own.old.cache }
    requires quantum { HasQuantum stock.old own.old.arena own.old.quantum }
    ensures { OwnSwapsFull result stock.old stock.new own.old own.new }
{
    if !own.is_empty() {
        return Err(PartFault::Refused(FullFault::NoneFull));
    }
    let swapped = own.swap_full(stock);
    // For its clause, here and below: what is always so of a stock.
    let _ = stock.count();
    PartFault::wrap(swapped)
}

/// Takes an empty magazine of the depot for a full one, where both of the CPU's are full.
pub(crate) fn swap_empty_own<D: Deed>(
    stock: &mut Stock<D>,
    own: &mut OwnCache<D>,
) -> Result<(), PartFault<EmptyFault>>
    requires has { HasCache stock.old own.old.arena own.old.cache }
    requires quantum { HasQuantum stock.old own.old.arena own.old.quantum }
    ensures { OwnSwapsEmpty result stock.old stock.new own.old own.new }
{
    if !own.is_full() {
        return Err(PartFault::Refused(EmptyFault::NoneEmpty));
    }
    let swapped = own.swap_empty(stock);
    let _ = stock.count();
    PartFault::wrap(swapped)
}

/// Takes a magazine that is made for it for a full one, where both of the CPU's are full.
pub(crate) fn swap_fresh_own<D: Deed>(
    alloc: Global,
    stock: &mut Stock<D>,
    own: &mut OwnCache<D>,
) -> Result<(), PartFault<FreshFault>>
    requires has { HasCache stock.old own.old.arena own.old.cache }
    requires quantum { HasQuantum stock.old own.old.arena own.old.quantum }
    ensures { OwnSwapsFresh result stock.old stock.new own.old own.new }
{
    if !own.is_full() {
        return Err(PartFault::Refused(FreshFault::NotFull));
    }
    let Ok(magazine) = Magazine::new(alloc, own.size()) else {
        return Err(PartFault::Refused(FreshFault::NoMemory));
    };
    let swapped = own.swap_fresh(stock, magazine);
    let _ = stock.count();
    fresh_in_words(swapped)
}

/// The magazine that comes back with a refusal is empty, and ends here.
fn fresh_in_words<D: Deed>(
    swapped: Result<(), PutFullFault<Magazine<D>>>,
) -> Result<(), PartFault<FreshFault>>
    requires { EndsEmpty swapped }
    ensures { result ≡ wording_of fresh_word swapped }
{
    match swapped {
        Ok(()) => Ok(()),
        Err(PutFullFault::OldSize(size, magazine)) => {
            end_empty(magazine);
            Err(PartFault::Refused(FreshFault::OldSize(size)))
        }
        Err(PutFullFault::NoMemory(magazine)) => {
            end_empty(magazine);
            Err(PartFault::Refused(FreshFault::NoMemory))
        }
    }
}

/// Ends a magazine without rounds.
fn end_empty<D: Deed>(magazine: Magazine<D>)
    requires { magazine.rounds ≡ [] }
{
    match magazine.discard() {
        Ok(()) => {}
        Err(_) => unreachable!(),
    }
}
