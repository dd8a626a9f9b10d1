//! How a system is made.
ghost use Rattle.std.specs.Prelude.{◌≡◌, ◌+◌, ◌*◌, ◌<◌, ◌≤◌, ◌++◌, [], ◌∷◌, map, length};
ghost use Rattle.std.specs.Prelude.{IfOk, IfErr, OnOk, vec_len, vec_capacity};
ghost use Rattle.arena_tree.specs.declared.limits.TheConstants.{MOST_ARENAS, MOST_SPANS};
ghost use Rattle.arena_tree.specs.declared.limits.TheConstants.{MOST_ROOTS};
ghost use Rattle.lease_threads.specs.Openings.{IsSystemOf, roots_of, roots_of_first};
ghost use Rattle.locked_parts.specs.News.{AreMadeAsSet, StandAsSet, locked_of};

use crate::systems::System;
use arena_tree::{MOST_ROOTS, Setup, Tree};
use deed_core::Range;
use deed_table::{Ground, Name, Opener, Root};
use lease_book::Book;
use locked_parts::{LockedArena, LockedParts, NewArena};
use shared_book::SharedBook;
use std::alloc::{AllocError, Global};
use std::marker::Model;

impl<N: Name> System<N> {
    /// The arenas of a setup, with all units free and no lease. Out of memory the setup comes back
    /// as it was. The ground is used up, also where no system is made.
    pub fn new(alloc: Global, ground: Ground, setup: Setup) -> Result<System<N>, Setup>
        requires { ground ≡ N.table }
        ensures made { IfOk result (IsSystemOf setup) }
        ensures handed_back { IfErr result (λ same. same ≡ setup) }
    {
        let Ok(room) = Room::new(alloc, setup.tree().len()) else {
            return Err(setup);
        };
        match open_all(alloc, &setup, ground.start()) {
            Ok((made, book)) => Ok(room.fill(alloc, setup.into_tree(), made, book)),
            Err(AllocError) => {
                room.end();
                Err(setup)
            }
        }
    }
}

/// Opens the arenas, each with the spans that it owns, and the book.
fn open_all<N: Name>(
    alloc: Global,
    setup: &Setup,
    mut rest: Opener<N>,
) -> Result<(Vec<NewArena<N>>, SharedBook<N>), AllocError>
    requires { (rest.first ≡ 0) × (MOST_ROOTS < rest.left) }
    ensures count { IfOk result (λ r. vec_len r.0 ≡ length setup.now.arenas) }
    ensures set_up { IfOk result (λ r. AreMadeAsSet setup.now.arenas r.0.items) }
    ensures roots { IfOk result (λ r. roots_of r.0.items
        ≡ roots_of_first setup.now.spans (length setup.now.arenas)) }
{
    let mut numbers = rest.share(u64::from(MOST_ROOTS))?;
    let mut made = Vec::with_capacity(alloc, setup.tree().len())?;
    if open_each(alloc, setup, &mut numbers, &mut made).is_err() {
        end_all(made);
        return Err(AllocError);
    }
    match open_book(alloc, &mut rest) {
        Ok(book) => Ok((made, book)),
        Err(refused) => {
            end_all(made);
            Err(refused)
        }
    }
}

/// Opens each arena.
fn open_each<N: Name>(
    alloc: Global,
    setup: &Setup,
    numbers: &mut Opener<N>,
    made: &mut Vec<NewArena<N>>,
) -> Result<(), AllocError>
    requires none { made.old.items ≡ [] }
    requires room { length setup.now.arenas ≤ vec_capacity made.old }
    requires numbers { (numbers.old.first ≡ 0) × (MOST_ARENAS * MOST_SPANS ≤ numbers.old.left) }
    ensures count { OnOk result (vec_len made.new ≡ length setup.now.arenas) }
    ensures set_up { OnOk result (AreMadeAsSet setup.now.arenas made.new.items) }
    ensures roots { OnOk result (roots_of made.new.items
        ≡ roots_of_first setup.now.spans (length setup.now.arenas)) }
{
    for id in 0..setup.tree().len() as u32 {
        let opened = NewArena::open(alloc, setup.tree(), id, setup.spans(), numbers)?;
        made.push_reserved(opened);
    }
    Ok(())
}

/// Ends what was opened.
fn end_all<N: Name>(mut made: Vec<NewArena<N>>) {
    while let Some(arena) = made.pop() {
        arena.end();
    }
    made.destroy_empty();
}

/// The book, with a mark of its own.
fn open_book<N: Name>(alloc: Global, rest: &mut Opener<N>) -> Result<SharedBook<N>, AllocError>
    requires { (rest.old.first ≡ MOST_ROOTS) × (0 < rest.old.left) }
{
    let (mark, deed) = rest.open_root(Range::new(0, 1).unwrap())?;
    Ok(SharedBook::new(Book::new(alloc, deed), mark))
}

/// Room for so many arenas of a system, for the roots of each, and for what the end tells of each.
/// A contract sees how many.
struct Room<N: Name> {
    count: usize,
    arenas: Vec<LockedArena<N>>,
    roots: Vec<Vec<Root<N>>>,
    told: Vec<Vec<Range>>,
}

impl<N: Name> Model for Room<N> {
    ghost use Rattle.std.specs.Prelude.{◌≡◌, ◌≤◌, ℕ, vec_len, vec_capacity};

    ghost Value = { ℕ };

    ghost view = { λ r. r.count };

    ghost invariant = { λ r. (vec_len r.arenas ≡ 0) × (r.count ≤ vec_capacity r.arenas)
        × (vec_len r.roots ≡ 0) × (r.count ≤ vec_capacity r.roots)
        × (vec_len r.told ≡ 0) × (r.count ≤ vec_capacity r.told) };
}

impl<N: Name> Room<N> {
    /// Room for so many arenas.
    fn new(alloc: Global, count: usize) -> Result<Room<N>, AllocError>
        ensures { IfOk result (λ room. room ≡ count) }
    {
        let told = Vec::with_capacity(alloc, count)?;
        let arenas = Vec::with_capacity(alloc, count)?;
        let Ok(roots) = Vec::with_capacity(alloc, count) else {
            arenas.destroy_empty();
            return Err(AllocError);
        };
        Ok(Room {
            count,
            arenas,
            roots,
            told,
        })
    }

    /// The system of these arenas, each of which is as the tree has it, with this book.
    fn fill(
        self,
        alloc: Global,
        tree: Tree,
        made: Vec<NewArena<N>>,
        book: SharedBook<N>,
    ) -> System<N>
        requires room { vec_len made ≤ self }
        requires count { vec_len made ≡ length tree }
        requires set_up { AreMadeAsSet tree made.items }
        ensures arenas { result.arenas ≡ tree }
        ensures roots { map (λ r. r.items) result.roots ≡ roots_of made.items }
    {
        let Room {
            count: _,
            arenas,
            mut roots,
            told,
        } = self;
        System {
            parts: lock_parts(alloc, tree, made, arenas, &mut roots),
            roots,
            told: Some(told),
            book,
        }
    }

    /// Lets the room go.
    fn end(self) {
        let Room {
            count: _,
            arenas,
            roots,
            told: _,
        } = self;
        arenas.destroy_empty();
        roots.destroy_empty();
    }
}

/// The arenas of the tree under their locks, each in its place, and its roots beside it.
fn lock_parts<N: Name>(
    alloc: Global,
    tree: Tree,
    made: Vec<NewArena<N>>,
    mut arenas: Vec<LockedArena<N>>,
    roots: &mut Vec<Vec<Root<N>>>,
) -> LockedParts<N>
    requires none { (arenas.items ≡ []) × (roots.old.items ≡ []) }
    requires arenas { vec_len made ≤ vec_capacity arenas }
    requires roots { vec_len made ≤ vec_capacity roots.old }
    requires count { length made.items ≡ length tree }
    requires set_up { AreMadeAsSet tree made.items }
    ensures arenas { result.arenas ≡ tree }
    ensures stand { StandAsSet result.arenas result.stand }
    ensures roots { map (λ r. r.items) roots.new.items ≡ roots_of made.items }
    ensures count { vec_len roots.new ≡ vec_len made }
{
    lock_all(made, &mut arenas, roots);
    LockedParts::new(alloc, tree, arenas)
}

/// Puts each arena under its lock behind others, and its roots beside it.
fn lock_all<N: Name>(
    mut made: Vec<NewArena<N>>,
    arenas: &mut Vec<LockedArena<N>>,
    roots: &mut Vec<Vec<Root<N>>>,
)
    requires arenas { vec_len arenas.old + vec_len made ≤ vec_capacity arenas.old }
    requires roots { vec_len roots.old + vec_len made ≤ vec_capacity roots.old }
    ensures stand { arenas.new.items ≡ arenas.old.items ++ map locked_of made.items }
    ensures roots { map (λ r. r.items) roots.new.items
        ≡ map (λ r. r.items) roots.old.items ++ roots_of made.items }
    ensures count { vec_len roots.new ≡ vec_len roots.old + vec_len made }
{
    while !made.is_empty() {
        let (locked, more) = lock_first(&mut made);
        arenas.push_reserved(locked);
        roots.push_reserved(more);
    }
    made.destroy_empty();
}

/// Puts the first of the arenas under its lock, and hands out its roots.
#[tactic(auto, using(crate::proofs::Roots::first_locked, crate::proofs::Roots::first_stands))]
fn lock_first<N: Name>(made: &mut Vec<NewArena<N>>) -> (LockedArena<N>, Vec<Root<N>>)
    requires { 0 < vec_len made.old }
    ensures stand { map locked_of made.old.items ≡ result.0 ∷ map locked_of made.new.items }
    ensures roots { roots_of made.old.items ≡ result.1.items ∷ roots_of made.new.items }
    ensures len { vec_len made.new + 1 ≡ vec_len made.old }
{
    made.remove(0).lock()
}
