//! The two bodies of one arena, and each call of both.
use crate::arenas::{check_import, span_back};
use deed_core::{Deed, PlainDeed, Range, Request, Segment, is_power_of_two};
use plain_arena::PlainArena;
use std::alloc::AllocGlobal;
use std::process::Abort;
use tag_arena::{Arena, ArenaFault, ArenaReport, Policy};

/// A segment of each body, of the same units.
pub(super) struct Twins {
    fast: Segment<PlainDeed>,
    plain: Segment<PlainDeed>,
}

impl Twins {
    /// Both must be of the same root, range, arena and route.
    fn new(rt: &impl Abort, fast: Segment<PlainDeed>, plain: Segment<PlainDeed>) -> Twins {
        assert_eq!(rt; fast.range(), plain.range());
        assert_eq!(rt; fast.root(), plain.root());
        assert_eq!(rt; fast.arena(), plain.arena());
        assert_eq!(rt; fast.route(), plain.route());
        Twins { fast, plain }
    }

    pub(super) fn range(&self) -> Range {
        self.fast.range()
    }
}

/// An arena of plain deeds, by two bodies.
pub(super) struct Bodies {
    fast: Arena<PlainDeed>,
    plain: PlainArena<PlainDeed>,
}

impl Bodies {
    pub(super) fn new(
        rt: &(impl Abort + AllocGlobal),
        id: u32,
        quantum: u64,
        policy: Policy,
    ) -> Bodies {
        assert!(rt; is_power_of_two(quantum));
        Bodies {
            fast: Arena::new(rt.alloc(), id, quantum, policy),
            plain: PlainArena::new(rt.alloc(), id, quantum, policy),
        }
    }

    /// Both report the same.
    pub(super) fn report(&self, rt: &impl Abort) -> ArenaReport {
        let report = self.fast.report();
        assert_eq!(rt; report, self.plain.report());
        assert_eq!(rt; self.fast.id(), self.plain.id());
        assert_eq!(rt; self.fast.quantum(), self.plain.quantum());
        assert_eq!(rt; self.fast.policy(), self.plain.policy());
        report
    }

    /// Adds a span, which both take or both refuse.
    pub(super) fn add(&mut self, rt: &impl Abort, root: u32, range: Range) {
        let fast = self.fast.add_span(PlainDeed::new(root, range));
        let plain = self.plain.add_span(PlainDeed::new(root, range));
        match (fast, plain) {
            (Ok(()), Ok(())) => {}
            (Err(fast), Err(plain)) => {
                let (one, fast_why) = span_back(fast);
                let (other, plain_why) = span_back(plain);
                assert_eq!(rt; (one.close(), fast_why), (other.close(), plain_why));
            }
            _ => panic!(rt; "one body takes the span"),
        }
    }

    /// Carves for a request.
    pub(super) fn carve(
        &mut self,
        rt: &impl Abort,
        request: &Request,
    ) -> Result<Twins, ArenaFault> {
        match (self.fast.xalloc(request), self.plain.xalloc(request)) {
            (Ok(fast), Ok(plain)) => Ok(Twins::new(rt, fast, plain)),
            (Err(fast), Err(plain)) => {
                assert_eq!(rt; fast, plain);
                Err(fast)
            }
            _ => panic!(rt; "one body grants"),
        }
    }

    /// Frees what both carved, or what neither did, which comes back.
    pub(super) fn free(&mut self, rt: &impl Abort, twins: Twins) -> Result<Option<Twins>, Twins> {
        let Twins { fast, plain } = twins;
        match (self.fast.free(fast), self.plain.free(plain)) {
            (Ok(None), Ok(None)) => Ok(None),
            (Ok(Some(fast)), Ok(Some(plain))) => Ok(Some(Twins::new(rt, fast, plain))),
            (Err(fast), Err(plain)) => Err(Twins::new(rt, fast, plain)),
            _ => panic!(rt; "one body frees"),
        }
    }

    /// Imports a span, of which it carves the first units for a request without constraints.
    pub(super) fn import(
        &mut self,
        rt: &impl Abort,
        span: Twins,
        request: &Request,
    ) -> Result<Twins, Twins> {
        let Twins { fast, plain } = span;
        check_import(rt, self.fast.quantum(), &fast, request);
        check_import(rt, self.plain.quantum(), &plain, request);
        let fast = self.fast.add_span_and_carve(fast, request);
        let plain = self.plain.add_span_and_carve(plain, request);
        match (fast, plain) {
            (Ok(fast), Ok(plain)) => Ok(Twins::new(rt, fast, plain)),
            (Err(fast), Err(plain)) => {
                let (fast, fast_why) = span_back(fast);
                let (plain, plain_why) = span_back(plain);
                assert_eq!(rt; fast_why, plain_why);
                Err(Twins::new(rt, fast, plain))
            }
            _ => panic!(rt; "one body imports"),
        }
    }

    /// Takes out the lowest owned span that is wholly free, and ends its deed.
    pub(super) fn remove(&mut self, rt: &impl Abort) -> Option<(u32, Range)> {
        match (self.fast.remove_owned(), self.plain.remove_owned()) {
            (None, None) => None,
            (Some(fast), Some(plain)) => {
                let root = fast.root();
                assert_eq!(rt; root, plain.root());
                let range = fast.close();
                assert_eq!(rt; range, plain.close());
                Some((root, range))
            }
            _ => panic!(rt; "one body has a free span"),
        }
    }

    /// Ends both, which hold no deed.
    pub(super) fn close(self, rt: &impl Abort) {
        let Bodies { fast, plain } = self;
        match (fast.close(), plain.close()) {
            (Ok(()), Ok(())) => {}
            _ => panic!(rt; "the arena holds no deed"),
        }
    }
}
