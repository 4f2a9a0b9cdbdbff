// The analysis of a tree in memory that can be built: 9 for wrong lengths, then its two tables: 10, 11, or done.
#![tactic(auto)]

mod lengths; // number 9

ghost use Rattle.memory.specs.Memory.{memory, Lengths};
ghost use Rattle.memory.specs.Analysis.{analysis_of};
ghost use Rattle.analysis.specs.Completing.{Grounded, FillsCuts};
ghost use Rattle.records.specs.Trees.{tree_in};
ghost use Rattle.analysis.specs.Filling.{Buildable, Filled, Tried};

use lengths::lengths_ok;
use memory::Tables;
use paper::refusal::{Refusal, Refused};
use records::Tree;

// The cut table over a finished node table. Where the cuts do not fit all becomes zero; otherwise the memo and the work areas do.
fn fill_cuts(
    nodes: &mut [u32],
    cuts: &mut [u32],
    gates: &mut [u32],
    added: &mut [u32],
    memo: &mut [u32],
    heads: &mut [u32],
    next: &mut [u32],
    marks: &mut [u32],
    own: &mut [u32],
    root: u32,
    count: usize,
) -> Result<Tables, Refused>
    requires { Grounded (memory nodes.old cuts.old gates.old added.old memo.old heads.old next.old marks.old own.old) root count }
    ensures { FillsCuts (memory nodes.old cuts.old gates.old added.old memo.old heads.old next.old marks.old own.old) root count (memory nodes.new cuts.new gates.new added.new memo.new heads.new next.new marks.new own.new) (analysis_of result) }
{
    match cuts::build_cuts(cuts, heads, next, memo, marks, own, nodes, root as usize) {
        Err(_) => {
            memory::wipe(nodes, cuts, gates, added, memo, heads, next, marks, own);
            Err(Refused {
                why: Refusal::CutsFull,
                place: 0,
            })
        }
        Ok(cut) => {
            memory::settle(memo, heads, next, marks, own);
            Ok(Tables {
                nodes: count,
                cut_nodes: cut.count,
                root: root as usize,
                cut_root: cut.node as usize,
            })
        }
    }
}

// The node table first, then the cut table over it.
fn fill(
    tree: Tree,
    nodes: &mut [u32],
    cuts: &mut [u32],
    gates: &mut [u32],
    added: &mut [u32],
    memo: &mut [u32],
    heads: &mut [u32],
    next: &mut [u32],
    marks: &mut [u32],
    own: &mut [u32],
) -> Result<Tables, Refused>
    requires buildable { Buildable tree }
    requires lengths { Lengths tree.gate_count (memory nodes.old cuts.old gates.old added.old memo.old heads.old next.old marks.old own.old) }
    ensures { Filled (tree_in tree) (memory nodes.old cuts.old gates.old added.old memo.old heads.old next.old marks.old own.old) (memory nodes.new cuts.new gates.new added.new memo.new heads.new next.new marks.new own.new) (analysis_of result) }
{
    match build::build_tree(tree, nodes, heads, next, memo, gates, added) {
        Err(over) => {
            memory::wipe(nodes, cuts, gates, added, memo, heads, next, marks, own);
            Err(Refused {
                why: Refusal::NodesFull,
                place: over.gate,
            })
        }
        Ok(built) => fill_cuts(
            nodes,
            cuts,
            gates,
            added,
            memo,
            heads,
            next,
            marks,
            own,
            built.node,
            built.count,
        ),
    }
}

// The analysis of a tree that can be built: 9, 10, 11, or done.
pub fn analyse_tree(
    tree: Tree,
    nodes: &mut [u32],
    cuts: &mut [u32],
    gates: &mut [u32],
    added: &mut [u32],
    memo: &mut [u32],
    heads: &mut [u32],
    next: &mut [u32],
    marks: &mut [u32],
    own: &mut [u32],
) -> Result<Tables, Refused>
    requires { Buildable tree }
    ensures { Tried tree (memory nodes.old cuts.old gates.old added.old memo.old heads.old next.old marks.old own.old) (memory nodes.new cuts.new gates.new added.new memo.new heads.new next.new marks.new own.new) (analysis_of result) }
{
    let count = tree.gate_count;
    if !lengths_ok(
        nodes, cuts, gates, added, memo, heads, next, marks, own, count,
    ) {
        return Err(Refused {
            why: Refusal::Length,
            place: 0,
        });
    }
    fill(
        tree, nodes, cuts, gates, added, memo, heads, next, marks, own,
    )
}
