//! The names of arenas, and replies that tell them.
ghost use Rattle.std.specs.Prelude.{◌≡◌, ◌≢◌, ◌<◌, ℕ, length, IfSome, IfNone};
ghost use Rattle.lease_history.specs.Told.{reply_to, IsTellable};
ghost use Rattle.world_core.specs.WorldState.{arena_name};

use lease_book::KeptReply;
use lease_proto::{Granted, RefusedRequest, Reply};
use lease_terms::{ArenaName, RequestId};

/// The index of the arena with this name.
pub(crate) fn index_of(names: &[ArenaName], name: &ArenaName) -> Option<usize>
    ensures some { IfSome result
        (λ k. (k < length names.now) × (arena_name names.now k ≡ name.now)) }
    ensures none { IfNone result
        ((k : ℕ) → k < length names.now → arena_name names.now k ≢ name.now) }
{
    for index in 0..names.len() {
        if names[index].as_slice() == name.as_slice() {
            return Some(index);
        }
    }
    None
}

/// The reply to a request that was settled so.
pub(crate) fn reply_to(names: &[ArenaName], id: RequestId, kept: KeptReply) -> Reply
    requires { IsTellable (length names.now) kept }
    ensures { result ≡ reply_to (arena_name names.now) id kept }
{
    match kept {
        KeptReply::Granted { arena, base, len } => Reply::Granted(Granted {
            id,
            arena: names[arena as usize],
            base,
            len,
        }),
        KeptReply::Released { .. } => Reply::Released(id),
        KeptReply::Refused(refusal) => Reply::Refused(RefusedRequest { id, refusal }),
    }
}
