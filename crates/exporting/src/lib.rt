// Exporting: a tree in memory judged as its bytes would be, and typed as equations into a lent room.
#![tactic(auto)]

mod lines; // the lines of gates and of chances, and all of them
mod pieces; // words, names and rows of names

ghost use Rattle.std.specs.Prelude.{◌≡◌};
ghost use Rattle.paper.specs.Limits.{limits};
ghost use Rattle.writing.specs.Writes.{wrote};
ghost use Rattle.exporting.specs.Exports.{export_of};

use judging::survey;
use lines::lay_text;
use records::Tree;
use rules::Refusal;

// Types a tree into the front of room, and answers how many bytes: refused as its bytes would be, then Room where the text
// does not fit. A refusal writes nothing, and the room behind the text stays.
pub fn export(tree: Tree, room: &mut [u8]) -> Result<usize, Refusal>
    ensures { wrote result room.new ≡ export_of limits tree room.old }
{
    survey(tree)?;
    // A room of one byte counts the text, and keeps none of it.
    let mut count = [0u8; 1];
    let n = lay_text(&mut count, tree);
    if room.len() < n {
        return Err(Refusal::Room);
    }
    let bytes = lay_text(room, tree);
    Ok(bytes)
}
