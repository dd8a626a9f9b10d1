//! A stock over plain deeds, for one thread.
ghost use Rattle.std.specs.Prelude.{◌≡◌, ◌<◌, IfOk, [], All, length};
ghost use Rattle.magazine_layer.specs.Magazines.{IsSize};
ghost use Rattle.stock.specs.Accounts.{Accounts};
ghost use Rattle.stock.specs.Endings.{IsReaped, IsTakenOut, IsTakenOutAt, OthersAreSame};
ghost use Rattle.stock.specs.Setups.{IsSetUpFrom, numbered_deeds};
ghost use Rattle.stock.specs.Spaces.{plans_of};

use crate::growing::number_of;
use crate::stocks::Stock;
use arena_tree::{MOST_ARENAS, Setup};
use deed_core::PlainDeed;
use std::alloc::{AllocError, Global};

/// The stock of a setup, of which each owned span is a root of its own, numbered by its arena and
/// its place among the arena's spans. Its magazines take `rounds` rounds.
pub fn plain_stock(
    alloc: Global,
    setup: &Setup,
    rounds: usize,
) -> Result<Stock<PlainDeed>, AllocError>
    requires rounds { IsSize rounds }
    ensures set_up { IfOk result
        (IsSetUpFrom setup.now (numbered_deeds setup.now.spans) rounds) }
    ensures nothing_out { IfOk result (λ spaces. Accounts spaces []) }
{
    let deeds = plain_deeds(alloc, setup)?;
    match Stock::of(alloc, setup, rounds, deeds) {
        Ok(stock) => Ok(stock),
        Err(deeds) => {
            close_all(deeds);
            Err(AllocError)
        }
    }
}

/// A plain deed of each span of the setup, each of a root of its own.
fn plain_deeds(alloc: Global, setup: &Setup) -> Result<Vec<PlainDeed>, AllocError>
    ensures { IfOk result (λ deeds. deeds.items ≡ numbered_deeds setup.now.spans) }
{
    // For its clause: what is so of every tree.
    let _ = setup.tree();
    let spans = setup.spans();
    let mut deeds = Vec::with_capacity(alloc, spans.len())?;
    let mut owned = [0; MOST_ARENAS];
    for span in spans {
        let arena = span.arena as usize;
        let place: usize = owned[arena];
        deeds.push_reserved(PlainDeed::new(number_of(arena, place), span.range));
        owned[arena] = place + 1;
    }
    Ok(deeds)
}

/// Ends deeds that no stock took.
fn close_all(mut deeds: Vec<PlainDeed>) {
    while let Some(deed) = deeds.pop() {
        let _ = deed.close();
    }
    deeds.destroy_empty();
}

/// Ends a stock of which nothing is out: all that lies in its caches goes home, its owned spans are
/// taken out, and their deeds closed. It takes no memory.
pub fn close_plain_stock(stock: Stock<PlainDeed>)
    requires { Accounts stock [] }
{
    let mut stock = stock;
    match stock.reap_all() {
        Ok(()) => {}
        Err(_) => unreachable!(),
    }
    close_owned(&mut stock);
    match stock.close() {
        Ok(()) => {}
        Err(_) => unreachable!(),
    }
}

/// Takes out each owned span that is wholly free, and closes its deed.
fn close_owned(stock: &mut Stock<PlainDeed>)
    requires balanced { Accounts stock.old [] }
    requires reaped { All IsReaped stock.old }
    ensures balanced { Accounts stock.new [] }
    ensures reaped { All IsReaped stock.new }
    ensures taken { All IsTakenOut stock.new }
{
    for arena in 0..stock.count() {
        close_owned_by(stock, arena);
    }
}

/// The same of one arena.
fn close_owned_by(stock: &mut Stock<PlainDeed>, arena: usize)
    requires within { arena < length stock.old }
    requires balanced { Accounts stock.old [] }
    requires reaped { All IsReaped stock.old }
    ensures balanced { Accounts stock.new [] }
    ensures reaped { All IsReaped stock.new }
    ensures taken { IsTakenOutAt stock.new arena }
    ensures others { OthersAreSame arena stock.old stock.new }
    ensures fixed { plans_of stock.new ≡ plans_of stock.old }
{
    while let Some(deed) = stock.remove_owned(arena) {
        let _ = deed.close();
    }
}
