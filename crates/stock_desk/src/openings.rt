//! A supply, as a setup has it.
ghost use Rattle.std.specs.Prelude.{◌≡◌, [], ◌∷◌, IfOk};
ghost use Rattle.lease_book.specs.BookState.{BookState, IsHistory};
ghost use Rattle.lease_machine.specs.Picture.{IsPicture, fresh_cpu};
ghost use Rattle.stock_desk.specs.Openings.{IsOpenedFrom, OpenedIsPicture};
ghost use Rattle.stock_desk.specs.Supplies.{picture_with};

use crate::cpus::{Cpu, FIRST_ROUNDS};
use crate::supplies::Supply;
use arena_tree::Setup;
use deed_core::PlainDeed;
use lease_proto::CpuNumber;
use local_parts::CpuCaches;
use std::alloc::{AllocError, Global};
use stock::{Stock, close_plain_stock, plain_stock};

/// The arenas of a setup with their caches and spans, all free, and the first CPU, selected. It
/// fails only when out of memory, and then what was made is closed.
pub(crate) fn open_supply(alloc: Global, setup: Setup) -> Result<Supply, AllocError>
    ensures opened { IfOk result (λ supply. (b : BookState) → IsHistory [] b
        → IsOpenedFrom setup (picture_with b supply)) }
    ensures picture { IfOk result (λ supply. (b : BookState) → IsHistory [] b
        → IsPicture (picture_with b supply)) }
{
    // For its clause: what is so of every tree.
    let _ = setup.tree();
    let stock = plain_stock(alloc, &setup, FIRST_ROUNDS)?;
    // For its clause: what is always so of a stock.
    let _ = stock.count();
    match first_cpu(alloc, &stock) {
        Ok(cpus) => Ok(Supply {
            alloc,
            tree: setup.into_tree(),
            stock,
            cpus,
            selected: CpuNumber::FIRST,
        }),
        Err(error) => {
            close_plain_stock(stock);
            Err(error)
        }
    }
}

/// The first CPU alone.
fn first_cpu(alloc: Global, stock: &Stock<PlainDeed>) -> Result<Vec<Cpu>, AllocError>
    ensures { IfOk result (λ cpus. cpus.items ≡ fresh_cpu 0 stock.now ∷ []) }
{
    let mut cpus = Vec::with_capacity(alloc, 1)?;
    match CpuCaches::new(alloc, stock, FIRST_ROUNDS) {
        Ok(caches) => {
            let number = CpuNumber::FIRST;
            cpus.push_reserved(Cpu { number, caches });
            Ok(cpus)
        }
        Err(error) => {
            cpus.destroy_empty();
            Err(error)
        }
    }
}

/// What follows for what a setup opens. The function does nothing: its contract is the law.
pub fn opening_law()
    ensures { OpenedIsPicture }
{}
