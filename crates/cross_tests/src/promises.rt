//! What the layers above reckon with, cited clause by clause. Each function hands on what one call
//! or law of the base promises, by a contract that nothing else carries: a clause that is lost, or
//! says less, is missed here. The tests run most of them.
mod arena_calls;
mod laws;
mod round_calls;
mod slab_calls;
