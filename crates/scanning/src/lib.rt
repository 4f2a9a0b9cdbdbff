// A text of equations, pass by pass: its names as numbers, the line that defines each, its chance, and its inputs; or why it is refused.
#![tactic(auto)]

pub mod numbering; // the names of all equations, interned
pub mod definitions; // the line that defines each name
pub mod judging; // chances, and the first wrong line
pub mod inputs; // the inputs of all names, in a row

ghost use Rattle.std.specs.Prelude.{◌≤◌, length};
ghost use Rattle.scanning.specs.Scanning.{Lists};
ghost use Rattle.scanning.specs.Judged.{Scans};

use definitions::define;
use judging::give;
use numbering::gather;

// Why a text is refused: its first wrong line is there (15), or the first line whose left name stands twice (16).
#[derive(Clone, Copy, Debug, PartialEq, Eq)]
pub enum Refusal {
    WrongLine(usize),
    DefinedTwice(usize),
}

// The scan: each name's number, its place in the text, the line that defines it and its chance. Answers how many names there are.
pub fn scan(
    text: &[u8],
    heads: &mut [u32],
    next: &mut [u32],
    names: &mut [u32],
    defs: &mut [u32],
    marks: &mut [u32],
    chances: &mut [u32],
) -> Result<u32, Refusal>
    requires lists { Lists text.now names.old heads.old next.old }
    requires text_in_bounds { (length text.now ≤ length defs.old) × (length text.now ≤ length marks.old) × (length text.now ≤ length chances.old) }
    ensures { Scans text.now names.new heads.new next.new defs.new chances.new result }
{
    let count = gather(text, heads, next, names);
    let twice = define(text, heads, next, names, count, defs);
    if let Err(at) = give(text, heads, next, names, count, defs, marks, chances) {
        return Err(Refusal::WrongLine(at));
    }
    match twice {
        Some(at) => Err(Refusal::DefinedTwice(at)),
        None => Ok(count),
    }
}
