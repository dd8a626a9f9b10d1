//! What CPUs carve, free, and give to arenas that import.
ghost use Rattle.std.specs.Prelude.{◌↔◌, IsTrue};
ghost use Rattle.world_core.specs.IsWorld.{IsWorld};
ghost use Rattle.world_core.specs.Events.{EndsAs, IsReady};

use crate::events::{EventFault, Outcome, WorldEvent};
use crate::hands::{put, put_answer, take};
use crate::parts::WorldParts;
use deed_core::{Deed, Request};
use tag_arena::{ArenaFault, SpanFault};

impl<D: Deed> WorldParts<D> {
    /// A CPU with an empty hand carves.
    pub(crate) fn carve(&mut self, cpu: usize, arena: usize, request: &Request) -> Outcome
        requires world { IsWorld self.old }
        ensures { EndsAs (WorldEvent.Carves cpu arena request.now) result self.old self.new }
    {
        if !self.has_empty_hand(cpu) {
            return Outcome::NotEnabled;
        }
        if arena >= self.stock.count() {
            return Outcome::NotEnabled;
        }
        let carved = self.stock.carve(arena, request);
        // For its clause, here and below: what is always so of a stock.
        let _ = self.stock.count();
        match carved {
            Ok(segment) => {
                put(&mut self.hands, cpu, segment);
                return Outcome::Done;
            }
            Err(fault) => match fault {
                ArenaFault::BadRequest => return Outcome::Refused(EventFault::BadRequest),
                ArenaFault::NoFit => return Outcome::Refused(EventFault::NoFit),
                ArenaFault::NoMemory => return Outcome::NoMemory,
            },
        }
    }

    /// A CPU frees its hand's segment.
    pub(crate) fn free(&mut self, cpu: usize) -> Outcome
        requires world { IsWorld self.old }
        ensures { EndsAs (WorldEvent.Frees cpu) result self.old self.new }
    {
        let Some(seen) = self.direct_in_hand(cpu) else {
            return Outcome::NotEnabled;
        };
        let segment = take(&mut self.hands, cpu);
        let freed = self.stock.free(segment);
        let _ = self.stock.count();
        match freed {
            Ok(back) => {
                put_answer(&mut self.hands, cpu, back);
                return Outcome::Done;
            }
            Err(_) => unreachable!(),
        }
    }

    /// Whether the arena can import its hand's segment for the request.
    fn can_import(&self, cpu: usize, child: usize, size: u64) -> bool
        requires world { IsWorld self.now }
        ensures { IsTrue result ↔ IsReady (WorldEvent.AddCarves cpu child size) self.now }
    {
        let Some(span) = self.direct_in_hand(cpu) else {
            return false;
        };
        if child >= self.stock.count() {
            return false;
        }
        let Some(source) = self.stock.source(child) else {
            return false;
        };
        if source != span.arena() {
            return false;
        }
        let quantum = self.quantum(child);
        let request = Request::plain(size);
        let Some(units) = request.units(quantum) else {
            return false;
        };
        if !request.is_good(quantum) || units > span.len() {
            return false;
        }
        true
    }

    /// A CPU gives its hand's segment to an arena that imports from its source.
    pub(crate) fn add_carve(&mut self, cpu: usize, child: usize, size: u64) -> Outcome
        requires world { IsWorld self.old }
        ensures { EndsAs (WorldEvent.AddCarves cpu child size) result self.old self.new }
    {
        if !self.can_import(cpu, child, size) {
            return Outcome::NotEnabled;
        }
        let span = take(&mut self.hands, cpu);
        let imported = self.stock.add_carve(child, span, &Request::plain(size));
        let _ = self.stock.count();
        match imported {
            Ok(segment) => {
                put(&mut self.hands, cpu, segment);
                return Outcome::Done;
            }
            Err(fault) => match fault {
                SpanFault::NoMemory(span) => {
                    put(&mut self.hands, cpu, span);
                    return Outcome::NoMemory;
                }
                _ => unreachable!(),
            },
        }
    }
}
