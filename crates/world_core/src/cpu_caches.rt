//! What CPUs get of their own when a world is made: a cache for each quantum cache.
ghost use Rattle.std.specs.Prelude.{◌≡◌, ◌<◌, [], ◌++◌, All, length, replicate, IfOk, OnOk};
ghost use Rattle.world_core.specs.Setups.{own_row, own_rows, own_caches, own_owners};
ghost use Rattle.stock.specs.OwnCaches.{HasNoRound};

use arena_tree::Tree;
use deed_core::Deed;
use std::alloc::{AllocError, Global};
use stock::OwnCache;

/// The rounds of the first magazines, of CPUs and of depots.
pub(crate) const FIRST_MAGAZINE_SIZE: usize = 3;

/// The caches that CPUs have of their own, and the CPU of each.
pub(crate) struct OwnCaches<D: Deed> {
    pub(crate) owners: Vec<usize>,
    pub(crate) caches: Vec<OwnCache<D>>,
}

impl<D: Deed> OwnCaches<D> {
    /// Those that so many CPUs begin with. Out of memory, what was made is ended.
    pub(crate) fn of(alloc: Global, tree: &Tree, cpus: usize) -> Result<OwnCaches<D>, AllocError>
        ensures owners { IfOk result (λ own. own.owners.items ≡ own_owners cpus tree.now) }
        ensures caches { IfOk result (λ own. own.caches.items ≡ own_caches cpus tree.now) }
        ensures empty { IfOk result (λ own. All HasNoRound own.caches.items) }
    {
        let mut own = OwnCaches {
            owners: Vec::new(alloc),
            caches: Vec::new(alloc),
        };
        match own.add_cpus(alloc, tree, cpus) {
            Ok(()) => Ok(own),
            Err(error) => {
                own.close();
                Err(error)
            }
        }
    }

    /// Gives so many CPUs theirs, before there are any.
    fn add_cpus(&mut self, alloc: Global, tree: &Tree, cpus: usize) -> Result<(), AllocError>
        requires owners { self.old.owners.items ≡ [] }
        requires caches { self.old.caches.items ≡ [] }
        ensures owners { OnOk result (self.new.owners.items ≡ own_owners cpus tree.now) }
        ensures caches { OnOk result (self.new.caches.items ≡ own_caches cpus tree.now) }
        ensures empty { All HasNoRound self.new.caches.items }
    {
        for cpu in 0..cpus {
            self.add_cpu(alloc, tree, cpu)?;
        }
        Ok(())
    }

    /// Gives a CPU one for each quantum cache of each arena.
    fn add_cpu(&mut self, alloc: Global, tree: &Tree, cpu: usize) -> Result<(), AllocError>
        ensures owners { OnOk result (self.new.owners.items
            ≡ self.old.owners.items ++ replicate (length (own_rows 0 tree.now)) cpu) }
        ensures caches { OnOk result
            (self.new.caches.items ≡ self.old.caches.items ++ own_rows 0 tree.now) }
        ensures empty { All HasNoRound self.old.caches.items
            → All HasNoRound self.new.caches.items }
    {
        for index in 0..tree.len() {
            let arena = tree.arena(index as u32);
            let count = arena.qcache_max / arena.quantum;
            self.add_row(alloc, cpu, index, arena.quantum, count)?;
        }
        Ok(())
    }

    /// Gives a CPU one for each of the first so many quantum caches of an arena.
    fn add_row(
        &mut self,
        alloc: Global,
        cpu: usize,
        arena: usize,
        quantum: u64,
        count: u64,
    ) -> Result<(), AllocError>
        requires some { 0 < quantum }
        ensures owners { OnOk result
            (self.new.owners.items ≡ self.old.owners.items ++ replicate count cpu) }
        ensures caches { OnOk result
            (self.new.caches.items ≡ self.old.caches.items ++ own_row arena quantum count) }
        ensures empty { All HasNoRound self.old.caches.items
            → All HasNoRound self.new.caches.items }
    {
        for cache in 0..count {
            self.owners.push(cpu)?;
            self.caches.reserve(1)?;
            let own = OwnCache::new(alloc, arena, cache as usize, quantum, FIRST_MAGAZINE_SIZE)?;
            self.caches.push_reserved(own);
        }
        Ok(())
    }

    /// Ends those of which none has a round.
    pub(crate) fn close(self)
        requires { All HasNoRound self.caches.items }
    {
        let OwnCaches {
            owners: _,
            mut caches,
        } = self;
        while let Some(own) = caches.pop() {
            match own.close() {
                Ok(()) => {}
                Err(_) => unreachable!(),
            }
        }
        caches.destroy_empty();
    }
}
