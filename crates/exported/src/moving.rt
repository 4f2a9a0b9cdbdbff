// The calls that move a tree's bytes to the form with sites, and back.
ghost use Rattle.std.specs.Prelude.{◌≡◌};
ghost use Rattle.paper.specs.Limits.{limits};
ghost use Rattle.moves.specs.Moves.{to_sites, from_sites};
ghost use Rattle.exported.specs.Numbers.{of_writing};

use crate::numbers_of;

// Writes the tree of some bytes with sites, 0 where it had none, to the front of room. The answer: number, place, bytes.
#[unsafe(no_mangle)]
pub extern "C" fn matticklet_to_sites(bytes: &[u8], room: &mut [u8], answer: &mut [u64; 3])
    ensures answer_after { answer.new ≡ of_writing (to_sites limits bytes.now room.old) }
    ensures room_after { room.new ≡ (to_sites limits bytes.now room.old).room }
{
    let w = moves::to_sites(bytes, room);
    *answer = numbers_of(w);
}

// Writes it without sites: 22 where one is not 0. The answer: number, place, bytes.
#[unsafe(no_mangle)]
pub extern "C" fn matticklet_from_sites(bytes: &[u8], room: &mut [u8], answer: &mut [u64; 3])
    ensures answer_after { answer.new ≡ of_writing (from_sites limits bytes.now room.old) }
    ensures room_after { room.new ≡ (from_sites limits bytes.now room.old).room }
{
    let w = moves::from_sites(bytes, room);
    *answer = numbers_of(w);
}
