// Moves: the bytes of a tree without sites made those of a tree with, each site 0, and back.
#![tactic(auto)]

ghost use Rattle.std.specs.Prelude.{◌≡◌};
ghost use Rattle.paper.specs.Limits.{limits};
ghost use Rattle.writing.specs.Writes.{wrote};
ghost use Rattle.moves.specs.Moves.{to_sites, from_sites};

use records::read;
use rules::Refusal;
use rules::format::length as length_of;
use writing::sites::first_site;
use writing::write;

// Writes the tree of some bytes with sites to the front of room, and answers how many bytes; an event that has none gets
// site 0. Refused as the bytes are, then Room where the new ones do not fit. A refusal writes nothing, and the room behind
// the bytes stays.
pub fn to_sites(bytes: &[u8], room: &mut [u8]) -> Result<usize, Refusal>
    ensures { wrote result room.new ≡ to_sites limits bytes.now room.old }
{
    let mut t = read(bytes)?;
    t.sited = true;
    write(t, room)
}

// Writes it without sites: Sited, before Room, where an event has one that is not 0, at the first such record of the bytes
// given.
pub fn from_sites(bytes: &[u8], room: &mut [u8]) -> Result<usize, Refusal>
    ensures { wrote result room.new ≡ from_sites limits bytes.now room.old }
{
    let mut t = read(bytes)?;
    if let Some(e) = first_site(t) {
        return Err(Refusal::Sited(length_of(17) * e));
    }
    t.sited = false;
    write(t, room)
}
