//! Edits of vectors that have room.
ghost use Rattle.std.specs.Prelude.{◌≡◌, ◌+◌, ◌<◌, ◌≤◌, vec_len, vec_capacity};
ghost use Rattle.std.specs.List.{insert};

/// Puts a value at an index of a vector that has room for it. It takes no memory, so it can't be
/// refused.
pub fn insert_reserved<T>(items: &mut Vec<T>, index: usize, value: T)
    requires index { index ≤ vec_len items.old }
    requires room { vec_len items.old < vec_capacity items.old }
    ensures items { items.new.items ≡ insert items.old.items index value }
    ensures len { vec_len items.new ≡ vec_len items.old + 1 }
    ensures capacity { vec_capacity items.new ≡ vec_capacity items.old }
{
    match items.insert(index, value) {
        Ok(()) => {}
        Err(_) => unreachable!(),
    }
}
