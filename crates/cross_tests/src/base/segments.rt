//! Segments, and deeds in vectors.
use super::range;
use deed_core::{Deed, Held, PlainDeed, Range, Route, Segment, Stored, insert_reserved};

#[test]
fn a_segment_is_split_and_joined(rt: HostRuntime) {
    let segment = Segment::new(3, Route::Cached(2), PlainDeed::new(7, range(&rt, 16, 12)));
    assert_eq!(rt; segment.root(), 7);
    assert_eq!(rt; known(&segment), (3, Route::Cached(2), range(&rt, 16, 12)));
    let (low, high) = match Stored::new(segment.into_deed()).split(18) {
        Ok(parts) => parts,
        Err(_) => panic!(rt; "a plain deed is never refused"),
    };
    let mut parts = Vec::new(rt.alloc());
    parts.reserve(2).expect(&rt, "room");
    parts.push_reserved(high);
    insert_reserved(&mut parts, 0, low);
    for (base, len) in [(18, 10), (16, 2)] {
        let Some(part) = parts.pop() else {
            panic!(rt; "two deeds")
        };
        assert_eq!(rt; part.into_deed().close(), range(&rt, base, len));
    }
    assert_eq!(rt; parts.len(), 0);
    parts.destroy_empty();
}

/// What is known of a segment by its tag.
fn known<S: Held>(segment: &S) -> (u32, Route, Range) {
    (segment.arena(), segment.route(), segment.range())
}
