// The room that a plane takes at most.
ghost use Rattle.plane_room.specs.Room.{OfSize, OfSizeUnder};
ghost use Rattle.plane_room.specs.Calls.{room_answer, room_under_answer};
ghost use Rattle.cabunlis.specs.Host.{HostRoomTold};

use super::answers::{HostBytes, bytes_told};
use plane_room::{plane_room, plane_room_under};

// Under any book that passes.
#[unsafe(no_mangle)]
pub extern "C" fn cabunlis2_plane_room(width: usize, height: usize) -> HostBytes
    ensures { HostRoomTold (OfSize width height) (room_answer width height) result }
{
    bytes_told(plane_room(width, height))
}

// Under a given book.
#[unsafe(no_mangle)]
pub extern "C" fn cabunlis2_plane_room_under(width: usize, height: usize, book: &[u8]) -> HostBytes
    ensures { HostRoomTold (OfSizeUnder width height book.now) (room_under_answer width height book.now) result }
{
    bytes_told(plane_room_under(width, height, book))
}
