//! The room for what the end of a system tells, which is made with the system.
ghost use Rattle.std.specs.Prelude.{◌≡◌, IfOk, OnErr, Some, None};

use deed_core::Range;

/// That there is no room for what is told. Only `take_room` makes one.
#[derive(PartialEq, Eq, Debug, Drop)]
pub(crate) struct NoRoom(());

/// Takes the room for what is told, if it wasn't given away.
pub(crate) fn take_room(room: &mut Option<Vec<Vec<Range>>>) -> Result<Vec<Vec<Range>>, NoRoom>
    ensures some { IfOk result (λ told. room.old ≡ Some told) }
    ensures none { OnErr result (room.old ≡ None) }
    ensures taken { room.new ≡ None }
{
    match room.take() {
        Some(told) => Ok(told),
        None => Err(NoRoom(())),
    }
}
