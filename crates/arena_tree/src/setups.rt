//! Setups: a tree of arenas, and the spans that its roots own.
ghost use Rattle.std.specs.Prelude.{◌≡◌, ◌≢◌, ◌==◌, ◌↔◌, [], Any, IsTrue, MatchBool, IfOk, IfErr};
ghost use Rattle.std.specs.Prelude.{OnOk, OnErr};
ghost use Rattle.arena_tree.specs.Settings.{IsSetup, Clash, HasNoClash, BecomesSpan, CanSet};
ghost use Rattle.arena_tree.specs.Settings.{RefusesNewSpan, TakesSetting, RefusesSetting};
ghost use Rattle.arena_tree.specs.Settings.{span_count};
ghost use Rattle.arena_tree.specs.Trees.{IsTree};
ghost use Rattle.arena_tree.specs.declared.settings.Setting.TheVariants.{Root, Child, Span};

use crate::limits::MOST_SPANS;
use crate::settings::{NewChild, NewRoot, NewSpan, Setting};
use crate::setup_faults::SetupFault;
use crate::sizes::whole_range;
use crate::trees::Tree;
use deed_core::Range;
use std::alloc::Global;
use std::marker::Model;

/// A span that a root owns.
#[derive(Clone, Copy, Debug, PartialEq, Eq)]
pub struct OwnedSpan {
    /// The root's number.
    pub arena: u32,
    pub range: Range,
}

/// What a system is made from: its arenas, and its owned spans in order of coming. A contract sees
/// both lists.
#[derive(Drop)]
pub struct Setup {
    tree: Tree,
    spans: Vec<OwnedSpan>,
}

impl Model for Setup {
    ghost use Rattle.arena_tree.specs.Settings.{SetupState, IsSetup};

    ghost Value = { SetupState };

    ghost view = { λ s. record { arenas = s.tree; spans = s.spans.items } };

    ghost invariant = { λ s. IsSetup (record { arenas = s.tree; spans = s.spans.items }) };
}

impl Setup {
    /// No arena.
    pub fn new(alloc: Global) -> Setup
        ensures { result ≡ record { arenas = []; spans = [] } }
    {
        Setup {
            tree: Tree::new(alloc),
            spans: Vec::new(alloc),
        }
    }

    /// The arenas.
    pub fn tree(&self) -> &Tree
        ensures value { result.now ≡ self.now.arenas }
        ensures tree { IsTree self.now.arenas }
        ensures setup { IsSetup self.now }
    {
        // For its clause: the type keeps a tree as it should be.
        let _ = self.tree.len();
        &self.tree
    }

    /// The owned spans, in order of coming. A span's index is a number that no other span has.
    pub fn spans(&self) -> &[OwnedSpan]
        ensures value { result.now ≡ self.now.spans }
        ensures setup { IsSetup self.now }
    {
        &self.spans
    }

    /// The same without its spans.
    pub fn into_tree(self) -> Tree
        ensures { result ≡ self.arenas }
    {
        let Setup { tree, spans: _ } = self;
        tree
    }

    /// Adds what is asked for, or says why not and stays as it was. A span costs a look at all
    /// spans that are there, an arena one at all names.
    pub fn add(&mut self, setting: &Setting) -> Result<(), SetupFault>
        ensures ok { OnOk result (TakesSetting self.old setting.now self.new) }
        ensures refused { IfErr result (RefusesSetting self.old setting.now) }
        ensures unchanged { OnErr result (self.new ≡ self.old) }
    {
        match setting {
            Setting::Root(root) => self.add_root(root),
            Setting::Child(child) => self.add_child(child),
            Setting::Span(span) => self.add_span(span),
        }
    }

    /// Whether what is asked for can be added, or why it can't. Takes no memory, and asks for none.
    pub fn judge(&self, setting: &Setting) -> Result<(), SetupFault>
        ensures ok { OnOk result (CanSet self.now setting.now) }
        ensures refused { IfErr result (RefusesSetting self.now setting.now) }
        ensures judged { IfErr result (λ fault. fault ≢ SetupFault.NoMemory) }
    {
        match setting {
            Setting::Root(root) => {
                self.tree.judge_root(root)?;
                Ok(())
            }
            Setting::Child(child) => {
                self.tree.judge_child(child)?;
                Ok(())
            }
            Setting::Span(span) => {
                self.judge_span(span)?;
                Ok(())
            }
        }
    }

    /// Adds a root, and its range as the first of its spans.
    fn add_root(&mut self, root: &NewRoot) -> Result<(), SetupFault>
        ensures ok { OnOk result (TakesSetting self.old (Root root.now) self.new) }
        ensures refused { IfErr result (RefusesSetting self.old (Root root.now)) }
        ensures unchanged { OnErr result (self.new ≡ self.old) }
    {
        self.tree.judge_root(root)?;
        let range = Range::new(root.base, root.len).unwrap();
        self.spans.reserve(1)?;
        let arena = self.tree.len() as u32;
        self.tree.add_root(root)?;
        self.spans.push_reserved(OwnedSpan { arena, range });
        Ok(())
    }

    /// Adds an arena that imports its spans, and so owns none.
    fn add_child(&mut self, child: &NewChild) -> Result<(), SetupFault>
        ensures ok { OnOk result (TakesSetting self.old (Child child.now) self.new) }
        ensures refused { IfErr result (RefusesSetting self.old (Child child.now)) }
        ensures unchanged { OnErr result (self.new ≡ self.old) }
    {
        self.tree.add_child(child)
    }

    /// Adds a further span to a root that is there.
    fn add_span(&mut self, span: &NewSpan) -> Result<(), SetupFault>
        ensures ok { OnOk result (TakesSetting self.old (Span span.now) self.new) }
        ensures refused { IfErr result (RefusesSetting self.old (Span span.now)) }
        ensures unchanged { OnErr result (self.new ≡ self.old) }
    {
        let owned = self.judge_span(span)?;
        self.spans.reserve(1)?;
        self.spans.push_reserved(owned);
        Ok(())
    }

    /// What a root would own for a span, or why it can't. Takes no memory, and asks for none.
    pub fn judge_span(&self, span: &NewSpan) -> Result<OwnedSpan, SetupFault>
        ensures ok { IfOk result (BecomesSpan self.now span.now) }
        ensures refused { IfErr result (RefusesNewSpan self.now span.now) }
        ensures judged { IfErr result (λ fault. fault ≢ SetupFault.NoMemory) }
    {
        let Some(id) = self.tree.find(&span.name) else {
            return Err(SetupFault::NoArena);
        };
        let arena = self.tree.arena(id);
        if arena.source.is_some() {
            return Err(SetupFault::NoArena);
        }
        if owned_by(id, &self.spans) >= MOST_SPANS {
            return Err(SetupFault::TooMany);
        }
        let Some(range) = whole_range(span.base, span.len, arena.quantum) else {
            return Err(SetupFault::BadRange);
        };
        let wanted = OwnedSpan { arena: id, range };
        if are_in_the_way(&self.spans, &wanted) {
            return Err(SetupFault::BadRange);
        }
        Ok(wanted)
    }
}

/// How many of the spans are the arena's.
fn owned_by(id: u32, spans: &[OwnedSpan]) -> usize
    ensures { result ≡ span_count id spans.now }
{
    spans.iter().filter(|span| span.arena == id).count()
}

/// Whether one of the spans is in the way of this one.
fn are_in_the_way(spans: &[OwnedSpan], wanted: &OwnedSpan) -> bool
    ensures { MatchBool result (Any (λ a. Clash a wanted.now) spans.now)
        (HasNoClash spans.now wanted.now) }
{
    for span in spans {
        if clash(span, wanted) {
            return true;
        }
    }
    false
}

/// Whether the two are spans of one arena that have a unit in common.
fn clash(a: &OwnedSpan, b: &OwnedSpan) -> bool
    ensures { IsTrue result ↔ Clash a.now b.now }
{
    a.arena == b.arena && a.range.overlaps(&b.range)
}
