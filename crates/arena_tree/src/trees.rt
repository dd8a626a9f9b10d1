//! The tree of arenas: their names, where each imports from, and how each carves.
ghost use Rattle.std.specs.Prelude.{◌≡◌, ◌≢◌, ◌<◌, ◌≤◌, List, [], ◌∷◌, ◌++◌, length, position};
ghost use Rattle.std.specs.Prelude.{slice_get, Some, IfSome, IfOk, IfErr, OnOk, OnErr};
ghost use Rattle.std.specs.Str.{bytes_eq};
ghost use Rattle.arena_tree.specs.Chains.{IsChain, quantum_in};
ghost use Rattle.arena_tree.specs.Trees.{index_in, level_of, nodes_of, ChainFrom, IsArena, IsTree};
ghost use Rattle.arena_tree.specs.Stored.{IsNewChain};
ghost use Rattle.arena_tree.specs.Setups.{BecomesRoot, BecomesChild, RefusesRoot, RefusesChild};
ghost use Rattle.arena_tree.specs.Setups.{AddsRoot, AddsChild};

use crate::levels::Level;
use crate::limits::{LONGEST_CHAIN, MOST_ARENAS};
use crate::settings::{NewChild, NewRoot};
use crate::setup_faults::SetupFault;
use crate::sizes::{slab_size, whole_range};
use deed_core::is_power_of_two;
use lease_terms::ArenaName;
use std::alloc::{AllocError, Global};
use std::marker::Model;
use tag_arena::Policy;

/// An arena of a tree. Its number is its index, in order of coming.
#[derive(Clone, Copy, Debug, PartialEq, Eq)]
pub struct TreeArena {
    pub name: ArenaName,
    /// The number of the arena that it imports from; none where it owns its spans.
    pub source: Option<u32>,
    pub quantum: u64,
    pub policy: Policy,
    /// The greatest size that has a cache, or 0 for none.
    pub qcache_max: u64,
    /// The size of each slab of its caches, or 0 where it has none.
    pub slab_size: u64,
    /// The least that it imports at a time; 0 where it has no source.
    pub import_min: u64,
}

/// The arenas of a system. A contract sees them as a list.
#[derive(Drop)]
pub struct Tree {
    alloc: Global,
    arenas: Vec<TreeArena>,
    // Of each arena.
    chains: Vec<Vec<Level>>,
}

impl Model for Tree {
    ghost use Rattle.std.specs.Prelude.{List};
    ghost use Rattle.arena_tree.specs.declared.trees.TreeArena.{TreeArena};
    ghost use Rattle.arena_tree.specs.Trees.{IsTree};
    ghost use Rattle.arena_tree.specs.Stored.{AreChains};

    ghost Value = { List TreeArena };

    ghost view = { λ t. t.arenas.items };

    ghost invariant = { λ t. IsTree t.arenas.items × AreChains t.arenas.items t.chains.items };
}

impl Tree {
    /// No arena.
    pub fn new(alloc: Global) -> Tree
        ensures { result ≡ [] }
    {
        Tree {
            alloc,
            arenas: Vec::new(alloc),
            chains: Vec::new(alloc),
        }
    }

    /// How many arenas there are, at most `MOST_ARENAS`.
    pub fn len(&self) -> usize
        ensures value { result ≡ length self.now }
        ensures tree { IsTree self.now }
    {
        self.arenas.len()
    }

    /// The arenas, each at its number.
    pub fn arenas(&self) -> &[TreeArena]
        ensures value { result.now ≡ self.now }
        ensures tree { IsTree self.now }
    {
        &self.arenas
    }

    /// The number of the arena of this name.
    pub fn find(&self, name: &ArenaName) -> Option<u32>
        ensures index { result ≡ index_in name.now self.now }
        ensures within { IfSome result (λ id. id < length self.now) }
    {
        let text = name.as_slice();
        match position_of(&self.arenas, text) {
            Some(index) => Some(index as u32),
            None => None,
        }
    }

    /// The arena of this number.
    pub fn arena(&self, id: u32) -> &TreeArena
        requires { id < length self.now }
        ensures here { slice_get self.now id ≡ Some result.now }
        ensures arena { IsArena self.now id result.now }
    {
        &self.arenas[id as usize]
    }

    /// The quantum of the arena of this number, in units.
    pub fn quantum(&self, id: u32) -> u64
        requires { id < length self.now }
        ensures value { quantum_in (nodes_of self.now) id ≡ result }
        ensures some { 0 < result }
    {
        self.arena(id).quantum
    }

    /// The arena of this number, its source, that one's source, and so on: `LONGEST_CHAIN` at most.
    pub fn chain(&self, id: u32) -> &[Level]
        requires { id < length self.now }
        ensures chain { ChainFrom self.now (Some id) result.now }
        ensures steps { IsChain (nodes_of self.now) result.now }
        ensures short { length result.now ≤ LONGEST_CHAIN }
    {
        self.chains[id as usize].as_slice()
    }

    /// Adds an arena with one owned span, which isn't kept here.
    pub fn add_root(&mut self, root: &NewRoot) -> Result<(), SetupFault>
        ensures ok { OnOk result (AddsRoot root.now self.old self.new) }
        ensures refused { IfErr result (RefusesRoot self.old root.now) }
        ensures unchanged { OnErr result (self.new ≡ self.old) }
    {
        let arena = self.judge_root(root)?;
        let level = level(self.arenas.len() as u32, &arena);
        let chain = chain_of(self.alloc, level, &[])?;
        self.put(arena, chain)?;
        Ok(())
    }

    /// Adds an arena that imports.
    pub fn add_child(&mut self, child: &NewChild) -> Result<(), SetupFault>
        ensures ok { OnOk result (AddsChild child.now self.old self.new) }
        ensures refused { IfErr result (RefusesChild self.old child.now) }
        ensures unchanged { OnErr result (self.new ≡ self.old) }
    {
        let (source, arena) = self.judge_child(child)?;
        let level = level(self.arenas.len() as u32, &arena);
        let chain = chain_of(self.alloc, level, self.chain(source))?;
        self.put(arena, chain)?;
        Ok(())
    }

    /// The arena that a root would become, or why it can't. Takes no memory, and asks for none.
    pub fn judge_root(&self, root: &NewRoot) -> Result<TreeArena, SetupFault>
        ensures ok { IfOk result (BecomesRoot self.now root.now) }
        ensures refused { IfErr result (RefusesRoot self.now root.now) }
        ensures judged { IfErr result (λ fault. fault ≢ SetupFault.NoMemory) }
    {
        if self.find(&root.name).is_some() {
            return Err(SetupFault::NameTaken);
        }
        if self.arenas.len() >= MOST_ARENAS {
            return Err(SetupFault::TooMany);
        }
        if !is_power_of_two(root.quantum) {
            return Err(SetupFault::BadQuantum);
        }
        let Some(slab_size) = slab_size(root.quantum, root.qcache_max) else {
            return Err(SetupFault::BadCache);
        };
        if whole_range(root.base, root.len, root.quantum).is_none() {
            return Err(SetupFault::BadRange);
        }
        Ok(TreeArena {
            name: root.name,
            source: None,
            quantum: root.quantum,
            policy: root.policy,
            qcache_max: root.qcache_max,
            slab_size,
            import_min: 0,
        })
    }

    /// The number of a child's source and the arena that it would become, or why it can't. Takes no
    /// memory, and asks for none.
    pub fn judge_child(&self, child: &NewChild) -> Result<(u32, TreeArena), SetupFault>
        ensures ok { IfOk result (λ r. BecomesChild self.now child.now r.0 r.1) }
        ensures refused { IfErr result (RefusesChild self.now child.now) }
        ensures judged { IfErr result (λ fault. fault ≢ SetupFault.NoMemory) }
    {
        if self.find(&child.name).is_some() {
            return Err(SetupFault::NameTaken);
        }
        if self.arenas.len() >= MOST_ARENAS {
            return Err(SetupFault::TooMany);
        }
        let Some(source) = self.find(&child.source) else {
            return Err(SetupFault::NoArena);
        };
        if self.chain(source).len() >= LONGEST_CHAIN {
            return Err(SetupFault::ChainTooLong);
        }
        if !is_power_of_two(child.quantum) {
            return Err(SetupFault::BadQuantum);
        }
        if child.quantum > self.arena(source).quantum {
            return Err(SetupFault::BadQuantum);
        }
        let Some(slab_size) = slab_size(child.quantum, child.qcache_max) else {
            return Err(SetupFault::BadCache);
        };
        let arena = TreeArena {
            name: child.name,
            source: Some(source),
            quantum: child.quantum,
            policy: child.policy,
            qcache_max: child.qcache_max,
            slab_size,
            import_min: child.import_min,
        };
        Ok((source, arena))
    }

    /// Adds an arena that nothing speaks against, with its chain.
    fn put(&mut self, arena: TreeArena, chain: Vec<Level>) -> Result<(), AllocError>
        requires few { length self.old < MOST_ARENAS }
        requires name { index_in arena.name self.old ≡ None }
        requires arena { IsArena self.old (length self.old) arena }
        requires chain { IsNewChain self.old arena chain.items }
        ensures ok { OnOk result (self.new ≡ self.old ++ arena ∷ []) }
        ensures unchanged { OnErr result (self.new ≡ self.old) }
    {
        self.arenas.reserve(1)?;
        self.chains.reserve(1)?;
        self.arenas.push_reserved(arena);
        self.chains.push_reserved(chain);
        Ok(())
    }
}

/// The index of the arena of this name.
fn position_of(arenas: &[TreeArena], name: &[u8]) -> Option<usize>
    ensures position { result ≡ position (λ x. bytes_eq x.name name.now) arenas.now }
    ensures within { IfSome result (λ k. k < length arenas.now) }
{
    arenas
        .iter()
        .position(|arena| arena.name.as_slice() == name)
}

/// What lists of steps need of an arena.
fn level(id: u32, arena: &TreeArena) -> Level
    ensures { result ≡ level_of id arena.now }
{
    Level {
        id,
        quantum: arena.quantum,
        import_min: arena.import_min,
        qcache_max: arena.qcache_max,
        slab_size: arena.slab_size,
    }
}

/// The chain of an arena, with its source's chain.
fn chain_of(alloc: Global, level: Level, up: &[Level]) -> Result<Vec<Level>, AllocError>
    ensures { IfOk result (λ chain. chain.items ≡ level ∷ up.now) }
{
    let mut chain = Vec::new(alloc);
    chain.push(level)?;
    chain.extend_from_slice(up)?;
    Ok(chain)
}
