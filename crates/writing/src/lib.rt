// Writing: a tree in memory judged as its bytes would be, and its records put into a lent room.
#![tactic(auto)]

mod emission; // a tree's records, written
pub mod sites; // a site that a record has no bytes for: number 22

ghost use Rattle.std.specs.Prelude.{◌≡◌};
ghost use Rattle.paper.specs.Limits.{limits};
ghost use Rattle.writing.specs.Writes.{write_of, wrote};
ghost use Rattle.writing.specs.Inner.{Judged};

use emission::emit;
use judging::survey;
use records::Tree;
use rules::Refusal;
use rules::format::length as length_of;
use sites::lost;

// What the bytes of a tree would be answered, then Sited where its records would lose a site; and how many they are where
// nothing is refused.
fn judged(t: Tree) -> Result<usize, Refusal>
    ensures { Judged t result }
{
    let n = survey(t)?;
    if let Some(e) = lost(t) {
        return Err(Refusal::Sited(length_of(1) * e));
    }
    Ok(n)
}

// Writes a tree to the front of room, and answers how many bytes: refused as its bytes would be, then Sited where a site
// would be lost, then Room where the bytes do not fit. A refusal writes nothing, and the room behind the bytes stays.
pub fn write(t: Tree, room: &mut [u8]) -> Result<usize, Refusal>
    ensures { wrote result room.new ≡ write_of limits t room.old }
{
    let n = judged(t)?;
    if room.len() < n {
        return Err(Refusal::Room);
    }
    emit(t, room);
    Ok(n)
}
