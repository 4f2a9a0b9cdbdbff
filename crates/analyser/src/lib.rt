// The product: trees read and written, analysed in lent tables, cuts listed, chances bracketed. Each public call answers for any arguments.
#![tactic(auto)]

ghost use Rattle.std.specs.Prelude.{◌≡◌};
ghost use Rattle.paper.specs.Limits.{limits};
ghost use Rattle.rules.specs.Answers.{verdict};
ghost use Rattle.records.specs.Judge.{outcome, judge};
ghost use Rattle.records.specs.Memory.{in_memory};
ghost use Rattle.writing.specs.Writes.{wrote, write_of};
ghost use Rattle.listing.specs.Answers.{Answered};
ghost use Rattle.listing.specs.Results.{count_of, used_of, last_of, finished_of};
ghost use Rattle.paper.specs.Refusals.{number_of};
ghost use Rattle.bracket.specs.Answers.{low_of, high_of};
ghost use Rattle.bracket.specs.Bracketed.{Bracketed};
ghost use Rattle.memory.specs.Memory.{memory};
ghost use Rattle.memory.specs.Analysis.{analysis_of};
ghost use Rattle.analyser.specs.Analysed.{Analysed};
ghost use Rattle.analyser.specs.Verdicts.{judge_writing};

use bracket::Ends;
use listing::Listed;
use memory::Tables;
use paper::refusal::{Refusal, Refused};
use records::Tree;

// Reads a tree from its bytes.
pub fn read(bytes: &[u8]) -> Result<Tree, rules::Refusal>
    ensures whole { result ≡ in_memory (outcome limits bytes.now) }
    ensures numbered { verdict result ≡ judge limits bytes.now }
{
    records::read(bytes)
}

// Writes a tree's bytes to the front of room, and answers how many they are.
pub fn write(tree: Tree, room: &mut [u8]) -> Result<usize, rules::Refusal>
    ensures whole { wrote result room.new ≡ write_of limits tree room.old }
    ensures numbered { verdict result ≡ judge_writing limits tree room.old }
{
    writing::write(tree, room)
}

// Lists the cuts of a lent cut diagram, from the beginning or after the set `s`.
pub fn list(
    cuts: &[u32],
    events: usize,
    count: usize,
    root: usize,
    begin: bool,
    s: [u64; sets::WORDS],
    room: &mut [u8],
) -> Result<Listed, Refusal>
    ensures { Answered events cuts.now count root begin s room.old room.new (number_of result) 0 (count_of result) (used_of result) (last_of result) (finished_of result) }
{
    listing::list(cuts, events, count, root, begin, s, room)
}

// Encloses the chance of the root of a lent diagram, in billionths.
pub fn bracket(
    nodes: &[u32],
    events: usize,
    count: usize,
    root: usize,
    chances: &[u32],
    lows: &mut [u32],
    highs: &mut [u32],
) -> Result<Ends, Refusal>
    ensures { Bracketed events nodes.now count root chances.now (number_of result) 0 (low_of result) (high_of result) lows.old highs.old lows.new highs.new }
{
    bracket::bracket(nodes, events, count, root, chances, lows, highs)
}

// Analyses a tree: its diagram in the node table, each gate's node in the gate list and how many nodes it adds in the list behind it, its cuts in
// the cut table. What the lent memory holds at entry does not matter.
pub fn analyse(
    bytes: &[u8],
    nodes: &mut [u32],
    cuts: &mut [u32],
    gates: &mut [u32],
    added: &mut [u32],
    memo: &mut [u32],
    heads: &mut [u32],
    next: &mut [u32],
    marks: &mut [u32],
    own: &mut [u32],
) -> Result<Tables, Refused>
    ensures { Analysed bytes.now (memory nodes.old cuts.old gates.old added.old memo.old heads.old next.old marks.old own.old) (memory nodes.new cuts.new gates.new added.new memo.new heads.new next.new marks.new own.new) (analysis_of result) }
{
    // A match: `?` would copy the tree once more.
    match records::read(bytes) {
        Ok(tree) => analysis::analyse_tree(
            tree, nodes, cuts, gates, added, memo, heads, next, marks, own,
        ),
        Err(why) => Err(Refused::from(why)),
    }
}
