//! Setups of arenas: what is added, in which chain it then stands, and what is refused.
use arena_tree::{
    LONGEST_CHAIN, Level, MOST_ARENAS, NewChild, NewRoot, NewSpan, Setting, Setup, SetupFault,
};
use lease_terms::ArenaName;
use std::alloc::AllocGlobal;
use std::process::Abort;
use tag_arena::Policy;

fn name(rt: &impl Abort, text: &[u8]) -> ArenaName {
    match ArenaName::new(text) {
        Some(name) => name,
        None => panic!(rt; "no name"),
    }
}

fn root(
    rt: &impl Abort,
    text: &str,
    base: u64,
    len: u64,
    quantum: u64,
    qcache_max: u64,
) -> Setting {
    Setting::Root(NewRoot {
        name: name(rt, text.as_bytes()),
        base,
        len,
        quantum,
        policy: Policy::Best,
        qcache_max,
    })
}

fn child(
    rt: &impl Abort,
    text: &str,
    source: &str,
    quantum: u64,
    qcache_max: u64,
    import_min: u64,
) -> Setting {
    Setting::Child(NewChild {
        name: name(rt, text.as_bytes()),
        source: name(rt, source.as_bytes()),
        quantum,
        policy: Policy::Best,
        qcache_max,
        import_min,
    })
}

fn span(rt: &impl Abort, text: &str, base: u64, len: u64) -> Setting {
    Setting::Span(NewSpan {
        name: name(rt, text.as_bytes()),
        base,
        len,
    })
}

/// Adds what is asked for, which nothing speaks against.
fn add(rt: &impl Abort, setup: &mut Setup, setting: Setting) {
    assert_eq!(rt; setup.add(&setting), Ok(()));
}

/// Asks for what is refused.
fn refuse(rt: &impl Abort, setup: &mut Setup, setting: Setting, why: SetupFault) {
    assert_eq!(rt; setup.add(&setting), Err(why));
}

/// The chain of the arena of this name.
fn chain_of<'a>(rt: &impl Abort, setup: &'a Setup, text: &str) -> &'a [Level] {
    let tree = setup.tree();
    match tree.find(&name(rt, text.as_bytes())) {
        Some(id) => tree.chain(id),
        None => panic!(rt; "no arena"),
    }
}

/// The size of the slabs of the arena of this name.
fn slab_size_of(rt: &impl Abort, setup: &Setup, text: &str) -> u64 {
    let tree = setup.tree();
    match tree.find(&name(rt, text.as_bytes())) {
        Some(id) => tree.arena(id).slab_size,
        None => panic!(rt; "no arena"),
    }
}

/// A taken name, an unknown source, a span of no root.
#[test]
fn names(rt: HostRuntime) {
    let mut setup = Setup::new(rt.alloc());
    add(&rt, &mut setup, root(&rt, "a", 0, 8, 1, 0));
    refuse(
        &rt,
        &mut setup,
        root(&rt, "a", 8, 8, 1, 0),
        SetupFault::NameTaken,
    );
    refuse(
        &rt,
        &mut setup,
        child(&rt, "a", "a", 1, 0, 0),
        SetupFault::NameTaken,
    );
    refuse(
        &rt,
        &mut setup,
        child(&rt, "c", "z", 1, 0, 0),
        SetupFault::NoArena,
    );
    refuse(
        &rt,
        &mut setup,
        child(&rt, "c", "c", 1, 0, 0),
        SetupFault::NoArena,
    );
    refuse(&rt, &mut setup, span(&rt, "z", 8, 8), SetupFault::NoArena);
    add(&rt, &mut setup, child(&rt, "c", "a", 1, 0, 0));
    refuse(&rt, &mut setup, span(&rt, "c", 8, 8), SetupFault::NoArena);
    assert_eq!(&rt; setup.tree().len(), 2);
    assert_eq!(&rt; setup.spans().len(), 1);
}

/// Four arenas are a chain, and a fifth is one too many. Its name is looked at before.
#[test]
fn a_fifth_arena(rt: HostRuntime) {
    let mut setup = Setup::new(rt.alloc());
    add(&rt, &mut setup, root(&rt, "a", 0, 64, 1, 0));
    add(&rt, &mut setup, child(&rt, "b", "a", 1, 0, 0));
    add(&rt, &mut setup, child(&rt, "c", "b", 1, 0, 0));
    add(&rt, &mut setup, child(&rt, "d", "c", 1, 0, 0));
    refuse(
        &rt,
        &mut setup,
        child(&rt, "e", "d", 1, 0, 0),
        SetupFault::ChainTooLong,
    );
    refuse(
        &rt,
        &mut setup,
        child(&rt, "a", "d", 1, 0, 0),
        SetupFault::NameTaken,
    );
    refuse(
        &rt,
        &mut setup,
        child(&rt, "e", "d", 3, 0, 0),
        SetupFault::ChainTooLong,
    );
    add(&rt, &mut setup, child(&rt, "e", "c", 1, 0, 0));
    let chain = chain_of(&rt, &setup, "d");
    assert_eq!(&rt; chain.len(), LONGEST_CHAIN);
    let mut wanted = 4u32;
    for level in chain {
        if wanted == 0 {
            panic!(&rt; "five arenas");
        }
        wanted -= 1;
        assert_eq!(&rt; level.id, wanted);
    }
    assert_eq!(&rt; chain_of(&rt, &setup, "e").len(), LONGEST_CHAIN);
    assert_eq!(&rt; chain_of(&rt, &setup, "a").len(), 1);
}

/// Quanta that are no power of two, or above the source's.
#[test]
fn quanta(rt: HostRuntime) {
    let mut setup = Setup::new(rt.alloc());
    refuse(
        &rt,
        &mut setup,
        root(&rt, "a", 0, 8, 3, 0),
        SetupFault::BadQuantum,
    );
    refuse(
        &rt,
        &mut setup,
        root(&rt, "a", 0, 8, 0, 0),
        SetupFault::BadQuantum,
    );
    add(&rt, &mut setup, root(&rt, "a", 0, 64, 4, 0));
    refuse(
        &rt,
        &mut setup,
        child(&rt, "b", "a", 8, 0, 0),
        SetupFault::BadQuantum,
    );
    refuse(
        &rt,
        &mut setup,
        child(&rt, "b", "a", 3, 0, 0),
        SetupFault::BadQuantum,
    );
    add(&rt, &mut setup, child(&rt, "b", "a", 4, 0, 0));
}

/// Greatest cached sizes that aren't in whole quanta, are above `MOST_CACHES` of them, or whose
/// slabs are too large; and the slabs of good ones.
#[test]
fn caches(rt: HostRuntime) {
    let big = 1u64 << 61;
    let mut setup = Setup::new(rt.alloc());
    refuse(
        &rt,
        &mut setup,
        root(&rt, "d", 0, 64, 1, 17),
        SetupFault::BadCache,
    );
    refuse(
        &rt,
        &mut setup,
        root(&rt, "d", 0, 64, 4, 6),
        SetupFault::BadCache,
    );
    refuse(
        &rt,
        &mut setup,
        root(&rt, "d", 0, big, big, big),
        SetupFault::BadCache,
    );
    refuse(
        &rt,
        &mut setup,
        root(&rt, "d", 0, 6, 4, 6),
        SetupFault::BadCache,
    );
    add(&rt, &mut setup, root(&rt, "d", 0, 64, 1, 5));
    add(&rt, &mut setup, child(&rt, "e", "d", 1, 16, 7));
    add(&rt, &mut setup, root(&rt, "f", 0, big, big / 2, big / 2));
    let wanted = Level {
        id: 1,
        quantum: 1,
        import_min: 7,
        qcache_max: 16,
        slab_size: 64,
    };
    let chain = chain_of(&rt, &setup, "e");
    assert!(&rt; chain.first() == Some(&wanted));
    assert_eq!(&rt; slab_size_of(&rt, &setup, "d"), 16);
    assert_eq!(&rt; slab_size_of(&rt, &setup, "f"), 1 << 62);
}

/// Ranges with no unit, past 2^62, not in whole quanta, or in the way of another.
#[test]
fn ranges(rt: HostRuntime) {
    let top = 1u64 << 62;
    let mut setup = Setup::new(rt.alloc());
    refuse(
        &rt,
        &mut setup,
        root(&rt, "a", 0, 6, 4, 0),
        SetupFault::BadRange,
    );
    refuse(
        &rt,
        &mut setup,
        root(&rt, "a", 2, 8, 4, 0),
        SetupFault::BadRange,
    );
    refuse(
        &rt,
        &mut setup,
        root(&rt, "a", 0, 0, 4, 0),
        SetupFault::BadRange,
    );
    refuse(
        &rt,
        &mut setup,
        root(&rt, "a", top - 16, 17, 1, 0),
        SetupFault::BadRange,
    );
    add(&rt, &mut setup, root(&rt, "b", top - 16, 16, 1, 0));
    add(&rt, &mut setup, root(&rt, "a", 0, 8, 4, 0));
    refuse(&rt, &mut setup, span(&rt, "a", 4, 8), SetupFault::BadRange);
    refuse(&rt, &mut setup, span(&rt, "a", 8, 6), SetupFault::BadRange);
    refuse(&rt, &mut setup, span(&rt, "a", 8, 0), SetupFault::BadRange);
    add(&rt, &mut setup, span(&rt, "a", 8, 8));
    add(&rt, &mut setup, span(&rt, "b", 0, 8));
    assert_eq!(&rt; setup.spans().len(), 4);
}

/// The 33rd arena is one too many, and its name is looked at before.
#[test]
fn many(rt: HostRuntime) {
    let mut setup = Setup::new(rt.alloc());
    for at in 0..MOST_ARENAS as u8 {
        let text = [b'a' + at / 10, b'0' + at % 10];
        add(
            &rt,
            &mut setup,
            Setting::Root(NewRoot {
                name: name(&rt, &text),
                base: 0,
                len: 8,
                quantum: 1,
                policy: Policy::Next,
                qcache_max: 0,
            }),
        );
    }
    refuse(
        &rt,
        &mut setup,
        root(&rt, "z", 0, 8, 1, 0),
        SetupFault::TooMany,
    );
    refuse(
        &rt,
        &mut setup,
        root(&rt, "z", 0, 8, 3, 0),
        SetupFault::TooMany,
    );
    refuse(
        &rt,
        &mut setup,
        child(&rt, "z", "y", 1, 0, 0),
        SetupFault::TooMany,
    );
    refuse(
        &rt,
        &mut setup,
        root(&rt, "a0", 0, 8, 1, 0),
        SetupFault::NameTaken,
    );
    assert_eq!(&rt; setup.into_tree().len(), MOST_ARENAS);
}
