//! A world's end: segments go back into the stock. Nothing here takes memory.
ghost use Rattle.std.specs.Prelude.{◌≡◌, List, ◌∷◌, ◌++◌, []};
ghost use Rattle.std.specs.Option.{option_to_list};
ghost use Rattle.deed_core.specs.Tag.{Tag};
ghost use Rattle.lease_book.specs.BookState.{leased_segments};
ghost use Rattle.stock.specs.Accounts.{Accounts};
ghost use Rattle.stock.specs.OwnCaches.{own_rounds, all_own_rounds};
ghost use Rattle.world_core.specs.WorldState.{in_hands};

use crate::parts::WorldParts;
use crate::worlds::World;
use deed_core::{PlainDeed, Segment};
use lease_book::Book;
use stock::{OwnCache, Stock, close_plain_stock};

impl World<PlainDeed> {
    /// Ends the world: all that hands, CPUs' caches and leases have goes home, and so does all that
    /// lies in depots and slabs; spans go back to where they were imported from; and the deeds of
    /// all owned spans and the book's mark are closed. It takes no memory.
    pub fn end(self) {
        let World { parts } = self;
        let WorldParts {
            alloc: _,
            mut stock,
            names: _,
            hands,
            tasks: _,
            failed: _,
            owners: _,
            caches,
            mut book,
            log: _,
            clients: _,
            requests: _,
            replies: _,
        } = parts;
        empty_hands(&mut stock, hands);
        end_leases(&mut stock, &mut book);
        end_caches(&mut stock, caches);
        close_plain_stock(stock);
        match book.close() {
            Ok(mark) => {
                let _ = mark.close();
            }
            Err(_) => unreachable!(),
        }
    }
}

/// Takes back what hands have.
pub(crate) fn empty_hands(stock: &mut Stock<PlainDeed>, mut hands: Vec<Option<Segment<PlainDeed>>>)
    requires { (others : List Tag) × Accounts stock.old (in_hands hands.items ++ others) }
    ensures { (others : List Tag) → Accounts stock.old (in_hands hands.items ++ others)
        → Accounts stock.new others }
{
    while let Some(hand) = hands.pop() {
        empty_hand(stock, hand);
    }
    hands.destroy_empty();
}

/// Takes back what a hand has.
fn empty_hand(stock: &mut Stock<PlainDeed>, hand: Option<Segment<PlainDeed>>)
    requires { (others : List Tag) × Accounts stock.old (option_to_list hand ++ others) }
    ensures { (others : List Tag) → Accounts stock.old (option_to_list hand ++ others)
        → Accounts stock.new others }
{
    match hand {
        Some(segment) => put_home(stock, segment),
        None => {}
    }
}

/// Ends every lease, and takes its segment back.
pub(crate) fn end_leases(stock: &mut Stock<PlainDeed>, book: &mut Book<PlainDeed>)
    requires { (others : List Tag) × Accounts stock.old (leased_segments book.old ++ others) }
    ensures none { leased_segments book.new ≡ [] }
    ensures out { (others : List Tag) → Accounts stock.old (leased_segments book.old ++ others)
        → Accounts stock.new others }
{
    while let Some((_, segment)) = book.take_lease() {
        put_home(stock, segment);
    }
}

/// Ends CPUs' own caches, and takes their rounds back.
pub(crate) fn end_caches(stock: &mut Stock<PlainDeed>, mut caches: Vec<OwnCache<PlainDeed>>)
    requires { (others : List Tag) × Accounts stock.old (all_own_rounds caches.items ++ others) }
    ensures { (others : List Tag) → Accounts stock.old (all_own_rounds caches.items ++ others)
        → Accounts stock.new others }
{
    while let Some(own) = caches.pop() {
        end_cache(stock, own);
    }
    caches.destroy_empty();
}

/// Ends a CPU's own cache, and takes its rounds back.
fn end_cache(stock: &mut Stock<PlainDeed>, mut own: OwnCache<PlainDeed>)
    requires { (others : List Tag) × Accounts stock.old (own_rounds own ++ others) }
    ensures { (others : List Tag) → Accounts stock.old (own_rounds own ++ others)
        → Accounts stock.new others }
{
    while let Some(round) = own.pop() {
        put_home(stock, round);
    }
    match own.close() {
        Ok(()) => {}
        Err(_) => unreachable!(),
    }
}

/// Takes a segment back that is out.
fn put_home(stock: &mut Stock<PlainDeed>, segment: Segment<PlainDeed>)
    requires { (rest : List Tag) × Accounts stock.old (segment ∷ rest) }
    ensures { (rest : List Tag) → Accounts stock.old (segment ∷ rest)
        → Accounts stock.new rest }
{
    match stock.put_back(segment) {
        Ok(()) => {}
        Err(_) => unreachable!(),
    }
}
