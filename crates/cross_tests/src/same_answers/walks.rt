//! Random calls of two arenas, of which one imports from the other, each by both bodies.
use super::bodies::{Bodies, Twins};
use super::chances::Chances;
use deed_core::Request;
use std::alloc::AllocGlobal;
use std::process::Abort;
use tag_arena::Policy;

/// No walk has more spans.
const MOST_SPANS: usize = 32;

/// Two arenas with what is out of them, of each at most so many segments.
pub(super) struct Walk {
    most: u32,
    pub(super) source: Bodies,
    child: Bodies,
    leased: Vec<Twins>,
    lent: Vec<Twins>,
}

impl Walk {
    pub(super) fn new(
        rt: &(impl Abort + AllocGlobal),
        policy: Policy,
        quantum: u64,
        most: u32,
    ) -> Walk {
        Walk {
            most,
            source: Bodies::new(rt, 1, quantum, policy),
            child: Bodies::new(rt, 2, quantum, policy),
            leased: Vec::with_capacity(rt.alloc(), most as usize).expect(rt, "room"),
            lent: Vec::with_capacity(rt.alloc(), most as usize).expect(rt, "room"),
        }
    }

    /// Leases from the source.
    pub(super) fn lease(&mut self, rt: &impl Abort, request: &Request) {
        if self.leased.len() >= self.leased.capacity() {
            return;
        }
        if let Ok(twins) = self.source.carve(rt, request) {
            self.leased.push_reserved(twins);
        }
    }

    /// Frees the lease of the source that begins at `base`.
    pub(super) fn free_at(&mut self, rt: &impl Abort, base: u64) {
        let found = self.leased.iter().position(|it| it.range().base() == base);
        let at = found.expect(rt, "a lease at the base");
        let twins = self.leased.remove(at);
        self.free(rt, twins);
    }

    /// Frees what the source carved.
    fn free(&mut self, rt: &impl Abort, twins: Twins) {
        free_carved(rt, &mut self.source, twins);
    }

    /// Leases from the child.
    fn lease_of_child(&mut self, rt: &impl Abort, request: &Request) {
        if self.lent.len() >= self.lent.capacity() {
            return;
        }
        if let Ok(twins) = self.child.carve(rt, request) {
            self.lent.push_reserved(twins);
        }
    }

    /// Frees what the child carved, and what it imported where that is whole again.
    fn free_of_child(&mut self, rt: &impl Abort, twins: Twins) {
        free_lent(rt, &mut self.source, &mut self.child, twins);
    }

    /// The child imports up to 32 units, and leases up to 8 of them.
    fn import(&mut self, rt: &impl Abort, chances: &mut Chances) {
        if self.lent.len() >= self.lent.capacity() {
            return;
        }
        let Ok(span) = self
            .source
            .carve(rt, &Request::plain(8 + chances.below(25)))
        else {
            return;
        };
        let request = Request::plain(1 + chances.below(8));
        match self.child.import(rt, span, &request) {
            Ok(first) => self.lent.push_reserved(first),
            Err(span) => self.free(rt, span),
        }
    }

    /// Offers a segment of the child to the source, which refuses it.
    fn free_at_another(&mut self, rt: &impl Abort, at: usize) {
        if at >= self.lent.len() {
            return;
        }
        let twins = self.lent.swap_remove(at);
        match self.source.free(rt, twins) {
            Err(twins) => self.free_of_child(rt, twins),
            Ok(_span) => panic!(rt; "another arena's segment is freed"),
        }
    }

    /// Takes out the lowest free span, and adds it again as the newest.
    fn turn_span(&mut self, rt: &impl Abort) {
        if let Some((root, range)) = self.source.remove(rt) {
            self.source.add(rt, root, range);
            self.source.add(rt, root, range);
        }
    }

    /// A place among the segments that are out, or past them.
    fn place(&self, chances: &mut Chances) -> usize {
        chances.below(1 + u64::from(self.most)) as usize
    }

    /// A random call.
    pub(super) fn step(&mut self, rt: &impl Abort, chances: &mut Chances) {
        match chances.below(16) {
            0..=4 => self.lease(rt, &chances.request()),
            5..=6 => self.lease_of_child(rt, &chances.request()),
            7..=11 => {
                let at = self.place(chances);
                if at < self.leased.len() {
                    let twins = self.leased.swap_remove(at);
                    self.free(rt, twins);
                }
            }
            12..=13 => {
                let at = self.place(chances);
                if at < self.lent.len() {
                    let twins = self.lent.swap_remove(at);
                    self.free_of_child(rt, twins);
                }
            }
            14 => self.import(rt, chances),
            _ => self.rarely(rt, chances),
        }
    }

    /// A call of another kind.
    fn rarely(&mut self, rt: &impl Abort, chances: &mut Chances) {
        match chances.below(4) {
            0 => self.turn_span(rt),
            1 => {
                let at = self.place(chances);
                self.free_at_another(rt, at);
            }
            _ => {
                self.source.report(rt);
                self.child.report(rt);
            }
        }
    }

    /// Frees all, and ends both arenas.
    pub(super) fn end(self, rt: &impl Abort) {
        let Walk {
            most: _,
            mut source,
            mut child,
            leased,
            lent,
        } = self;
        free_all_lent(rt, &mut source, &mut child, lent);
        free_all_carved(rt, &mut source, leased);
        for _ in 0..MOST_SPANS {
            let _ = source.remove(rt);
        }
        child.close(rt);
        source.close(rt);
    }
}

/// Frees what the source carved.
fn free_carved(rt: &impl Abort, source: &mut Bodies, twins: Twins) {
    match source.free(rt, twins) {
        Ok(None) => {}
        Ok(Some(_span)) => panic!(rt; "the source imports nothing"),
        Err(_twins) => panic!(rt; "the source carved it"),
    }
}

/// Frees what the child carved, and what it imported where that is whole again.
fn free_lent(rt: &impl Abort, source: &mut Bodies, child: &mut Bodies, twins: Twins) {
    match child.free(rt, twins) {
        Ok(None) => {}
        Ok(Some(span)) => free_carved(rt, source, span),
        Err(_twins) => panic!(rt; "the child carved it"),
    }
}

fn free_all_carved(rt: &impl Abort, source: &mut Bodies, mut held: Vec<Twins>) {
    while let Some(twins) = held.pop() {
        free_carved(rt, source, twins);
    }
    held.destroy_empty();
}

fn free_all_lent(rt: &impl Abort, source: &mut Bodies, child: &mut Bodies, mut held: Vec<Twins>) {
    while let Some(twins) = held.pop() {
        free_lent(rt, source, child, twins);
    }
    held.destroy_empty();
}
