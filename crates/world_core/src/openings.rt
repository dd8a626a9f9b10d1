//! A world is made of a setup: all that can fail comes before there is a segment.
ghost use Rattle.std.specs.Prelude.{◌≡◌, ◌+◌, ◌<◌, ◌≤◌, ◌++◌, All, true, map, IfOk, None};
ghost use Rattle.std.specs.Prelude.{replicate, false, vec_len, vec_capacity};
ghost use Rattle.lease_terms.specs.Names.{is_name};
ghost use Rattle.lease_proto.specs.declared.limits.TheConstants.{MOST_CPUS};
ghost use Rattle.world_core.specs.Setups.{IsNewWorld};

use crate::cpu_caches::{FIRST_MAGAZINE_SIZE, OwnCaches};
use crate::parts::WorldParts;
use crate::worlds::World;
use arena_tree::{Setup, Tree};
use deed_core::{PlainDeed, Range};
use lease_book::Book;
use lease_terms::ArenaName;
use std::alloc::{AllocError, Global};
use stock::plain_stock;

impl World<PlainDeed> {
    /// The world of a setup: all its spans are free, and so many CPUs, 1 to `MOST_CPUS`, have
    /// nothing to do, each with empty caches of its own. Nothing was said or leased yet, and there
    /// is no client: `add_client` adds one.
    pub fn new(alloc: Global, setup: &Setup, cpus: usize) -> Result<World<PlainDeed>, AllocError>
        requires some { 0 < cpus }
        requires few { cpus ≤ MOST_CPUS }
        ensures { IfOk result (IsNewWorld setup.now cpus) }
    {
        let names = names_of(alloc, setup.tree())?;
        let mut tasks = Vec::with_capacity(alloc, cpus)?;
        let failed = vec![in alloc; false; cpus]?;
        let mut hands = Vec::with_capacity(alloc, cpus)?;
        let Ok(own) = OwnCaches::of(alloc, setup.tree(), cpus) else {
            hands.destroy_empty();
            return Err(AllocError);
        };
        let Ok(stock) = plain_stock(alloc, setup, FIRST_MAGAZINE_SIZE) else {
            own.close();
            hands.destroy_empty();
            return Err(AllocError);
        };
        let OwnCaches { owners, caches } = own;
        // For its clause: what is always so of a stock.
        let _ = stock.count();
        fill_empty(&mut tasks, cpus);
        fill_empty(&mut hands, cpus);
        let mark = PlainDeed::new(0, Range::new(0, 1).unwrap());
        Ok(World {
            parts: WorldParts {
                alloc,
                stock,
                names,
                hands,
                tasks,
                failed,
                owners,
                caches,
                book: Book::new(alloc, mark),
                log: Vec::new(alloc),
                clients: Vec::new(alloc),
                requests: Vec::new(alloc),
                replies: Vec::new(alloc),
            },
        })
    }
}

/// The names of the arenas.
fn names_of(alloc: Global, tree: &Tree) -> Result<Vec<ArenaName>, AllocError>
    ensures value { IfOk result (λ names. names.items ≡ map (λ x. x.name) tree.now) }
    ensures names { IfOk result (λ names. All (λ name. is_name name ≡ true) names.items) }
{
    let arenas = tree.arenas();
    let mut names = Vec::with_capacity(alloc, arenas.len())?;
    for arena in arenas {
        // For its clause: a name has a byte.
        let _ = arena.name.as_slice();
        names.push_reserved(arena.name);
    }
    Ok(names)
}

/// Adds so many that are empty: hands, or CPUs that serve nothing.
fn fill_empty<T>(list: &mut Vec<Option<T>>, count: usize)
    requires room { vec_len list.old + count ≤ vec_capacity list.old }
    ensures { list.new.items ≡ list.old.items ++ replicate count None }
{
    for _ in 0..count {
        list.push_reserved(None);
    }
}
