//! A server as who watches it over HTTP sees it.
ghost use Rattle.std.specs.Prelude.{◌≡◌, ◌≤◌};
ghost use Rattle.lease_watch.specs.Metrics.{version_text};
ghost use Rattle.vmemd.specs.Running.{Attends, BothWork, console_streams};
ghost use Rattle.vmemd_setup.specs.declared.commands.TheConstants.{MOST_WORKERS, VERSION};
ghost use Rattle.vmemd.specs.declared.watching.TheConstants.{NUMBERS};

use crate::attending::Attended;
use crate::hosts::Host;
use crate::listeners::Listener;
use crate::looking::{arenas_of, push_rows};
use crate::running::{Console, Site, serve_planned};
use deed_table::Name;
use lease_book::MOST_LEASES;
use lease_http::{View, serve_scrapes};
use lease_terms::ArenaName;
use lease_watch::{LeaseRow, Seen, Version, Work};
use std::alloc::{AllocError, Global};
use std::hash::RandomState;
use std::io::{Read, Write};
use std::sync::Wait;
use std::sync::atomic::{AtomicBool, Ordering};
use std::thread;
use std::time::{Clock, Instant};
use vmemd_setup::RunFault;

/// The version's numbers.
pub(crate) const NUMBERS: Version = Version {
    major: 0,
    minor: 1,
    patch: 0,
};

/// What `--version` tells is what who watches is told.
pub fn version_law()
    ensures { VERSION.now ≡ version_text NUMBERS }
{}

/// Where a server is watched, and the keys of the names of what asks.
#[derive(Drop)]
pub struct Watching {
    pub listener: Listener,
    pub keys: RandomState,
}

/// What is watched of a server.
#[derive(Drop)]
struct Watched<'a, N: Name, R: Wait> {
    rt: &'a R,
    site: &'a Site<'a, N>,
    since: Option<Instant>,
    over: AtomicBool,
}

impl<N: Name, R: Wait + Clock> Watched<'_, N, R> {
    /// Seconds since it was first watched; 0 where the clock can't be read.
    fn uptime(&self) -> u64 {
        let Some(since) = self.since else {
            return 0;
        };
        match since.elapsed(self.rt) {
            Ok(passed) => passed.as_secs(),
            Err(_) => 0,
        }
    }
}

impl<N: Name, R: Wait + Clock> View for Watched<'_, N, R> {
    ghost use Rattle.std.specs.Prelude.{⊤, is_some};
    ghost use Rattle.arena_tree.specs.Trees.{index_in};
    ghost use Rattle.vmemd.specs.Watching.{MayCount, MayHave, MaySee};

    // (of counts, which are what threads make them, and of the time no clause says anything)
    ghost may_see = { λ w seen. MaySee w.site.now.system.now.arenas seen };

    // (nor does a flag say what other threads make it)
    ghost may_serve = { λ _ _. ⊤ };

    ghost may_count = { λ _ count. MayCount count };

    ghost knows = { λ w name. is_some (index_in name w.site.now.system.now.arenas) };

    ghost may_have = { λ w place rows. MayHave w.site.now.system.now.arenas place rows };

    fn see(&self, alloc: Global) -> Result<Seen, AllocError> {
        let site = self.site;
        let arenas = arenas_of(self.rt, alloc, site.system)?;
        let book = site.system.book_sums(self.rt);
        let done = site.door.counts.sums();
        let counts = done.words;
        Ok(Seen {
            version: NUMBERS,
            uptime: self.uptime(),
            clients: book.clients as u64,
            leases: book.leases as u64,
            connections: site.door.roll.counts(self.rt),
            cpu_waits: done.waits,
            counts,
            lately: Work {
                seconds: 0,
                lines: 0,
                refused: 0,
            },
            arenas,
        })
    }

    fn has_arena(&self, name: &ArenaName) -> bool {
        self.site.system.tree().find(name).is_some()
    }

    fn clients(&self) -> usize {
        self.site.system.book_sums(self.rt).clients
    }

    fn leases_at(&self, place: usize, rows: &mut Vec<LeaseRow>) -> Result<(), AllocError> {
        let system = self.site.system;
        let mut leases = Vec::with_capacity(*rows.allocator(), MOST_LEASES)?;
        match system.leases_at(self.rt, place, &mut leases) {
            Some(of) => push_rows(system.tree().arenas(), of.client, leases.as_slice(), rows),
            None => Ok(()),
        }
    }

    fn serves(&self) -> bool {
        !self.site.signals.flag().load(Ordering::SeqCst)
    }

    fn is_over(&self) -> bool {
        self.over.load(Ordering::SeqCst)
    }
}

/// Serves connections as planned, and beside them who watches, until the input has ended and all
/// connections with it.
pub(crate) fn serve_watched<'a, N: Name + Send + Sync, R: Host, I: Read + Drop, W: Write + Drop>(
    rt: &'a R,
    site: &'a Site<'a, N>,
    watching: &Watching,
    console: Console<I, W>,
) -> Attended<I, W>
    requires workers { (1 ≤ site.now.plan.workers) × (site.now.plan.workers ≤ MOST_WORKERS) }
    requires works { BothWork (console_streams I.remaining W.contents console) }
    ensures { Attends site.now.system.now.arenas (console_streams I.remaining W.contents console)
        (console_streams I.remaining W.contents result.console) result.ended }
{
    let watched = Watched {
        rt,
        site,
        since: Instant::now(rt).ok(),
        over: AtomicBool::new(false),
    };
    let view = &watched;
    let keys = watching.keys;
    thread::scope(
        thread::scope_env(),
        rt,
        move |scope| -> Attended<I, W>
            requires workers { (1 ≤ site.now.plan.workers)
                × (site.now.plan.workers ≤ MOST_WORKERS) }
            requires works { BothWork (console_streams I.remaining W.contents console) }
            ensures { Attends site.entry.now.system.now.arenas
                (console_streams I.remaining W.contents console)
                (console_streams I.remaining W.contents result.console) result.ended }
        {
            let started = scope
                .spawn(move || serve_scrapes(rt, watching.listener.socket(), view, keys))
                .is_ok();
            let ran = if started {
                serve_planned(rt, site, console)
            } else {
                Attended::unserved(console)
            };
            view.over.store(true, Ordering::SeqCst);
            watching.listener.close();
            ran
        },
    )
}
