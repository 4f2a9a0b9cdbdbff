// Typed equations: a text read into a tree, and a tree typed as a text. Each public call answers for any arguments.
#![tactic(auto)]

mod answering; // the text judged rule by rule, and its tree
mod lent; // the lists that are lent: long enough, and zero again
mod showing; // the lines of a ring, and the places of names

ghost use Rattle.std.specs.Prelude.{◌≡◌};
ghost use Rattle.paper.specs.Limits.{limits};
ghost use Rattle.writing.specs.Writes.{wrote};
ghost use Rattle.exporting.specs.Exports.{export_of};
ghost use Rattle.equations.specs.Lists.{lists};
ghost use Rattle.equations.specs.Contract.{Imports};
ghost use Rattle.equations.specs.Imported.{imported_of};

use answering::judged;
use lent::{clear_work, long_enough};
use paper::refusal::Refusal;
use records::Tree;

// Why an import is refused, the place of the line at fault (15 and 16), and the length of the ring that is shown (17).
#[derive(Clone, Copy, Debug, PartialEq, Eq)]
pub struct ImportError {
    pub why: Refusal,
    pub line: usize,
    pub ring: usize,
}

impl From<Refusal> for ImportError {
    ghost from_gives = { λ why e. e ≡ record { why = why; line = 0; ring = 0 } };

    fn from(why: Refusal) -> ImportError {
        ImportError {
            why,
            line: 0,
            ring: 0,
        }
    }
}

// Reads a text of equations. Each list must be longer than the text (9). With 17 `ring` has the lines of a ring; done, `shown` has the place of
// each name's first appearance, events then gates. The nine lists before these are work, zero afterwards.
pub fn import(
    text: &[u8],
    heads: &mut [u32],
    next: &mut [u32],
    names: &mut [u32],
    defs: &mut [u32],
    marks: &mut [u32],
    amounts: &mut [u32],
    starts: &mut [u32],
    rights: &mut [u32],
    order: &mut [u32],
    ring: &mut [u32],
    shown: &mut [u32],
) -> Result<Tree, ImportError>
    ensures { Imports text.now (lists heads.old next.old names.old defs.old marks.old amounts.old starts.old rights.old order.old ring.old shown.old) (lists heads.new next.new names.new defs.new marks.new amounts.new starts.new rights.new order.new ring.new shown.new) (imported_of result) }
{
    let size = text.len();
    if !long_enough(
        size, heads, next, names, defs, marks, amounts, starts, rights, order, ring, shown,
    ) {
        return Err(ImportError::from(Refusal::Length));
    }
    ring.fill(0);
    shown.fill(0);
    let n = size + 1;
    let a = judged(
        text,
        &mut heads[..n],
        &mut next[..n],
        &mut names[..n],
        defs,
        marks,
        amounts,
        starts,
        rights,
        order,
        ring,
        shown,
    );
    clear_work(
        heads, next, names, defs, marks, amounts, starts, rights, order,
    );
    a
}

// Types a tree into the front of a room, and answers how many bytes: refused as writing the tree would be, then 9 where the text does not fit.
pub fn export(tree: Tree, room: &mut [u8]) -> Result<usize, rules::Refusal>
    ensures { wrote result room.new ≡ export_of limits tree room.old }
{
    exporting::export(tree, room)
}
