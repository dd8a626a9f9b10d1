//! An allocation that takes as many locked steps as one may.
use super::arrangements::{begin_with, caching_child, child, end, only_range, root, set};
use super::calls::allocate_without_memory;
use super::sums::free_units;
use arena_tree::Setup;
use refusing_deed::RefusingDeed;
use tag_arena::Policy;

/// Sixteen over four arenas: no full magazine, no chunk, no room for a slab in any of the four;
/// then four carves, the last of which gives two units, and three imports, the last of which would
/// split them and is out of memory; so they go back over three arenas.
#[test]
fn sixteen_steps(rt: HostRuntime) {
    let mut setup = Setup::new(rt.alloc());
    set(&rt, &mut setup, root(&rt, "a", 8, 1, Policy::Best, 0));
    set(&rt, &mut setup, child(&rt, "b", "a", 1, 0));
    set(&rt, &mut setup, child(&rt, "c", "b", 1, 0));
    set(&rt, &mut setup, caching_child(&rt, "d", "c", 1, 5, 2));
    let deed = RefusingDeed::new(0, only_range(&rt, &setup), 1);
    let mut walk = begin_with(&rt, rt.alloc(), setup, deed);
    allocate_without_memory(&rt, &mut walk, 3, 1);
    assert_eq!(rt; walk.steps, 16);
    assert_eq!(rt; free_units(&rt, &walk, 0), 8);
    assert_eq!(rt; free_units(&rt, &walk, 3), 0);
    let _root = end(&rt, walk).close();
}
