// The analysis of a tree under the settings of an edition: 1 to 8 or 21, then 24 and 13, then 9, then 10, then 11, or done.
#![tactic(auto)]

ghost use Rattle.memory.specs.Memory.{memory};
ghost use Rattle.memory.specs.Analysis.{analysis_of};
ghost use Rattle.analysis.specs.Filling.{WasRead};
ghost use Rattle.seasons.specs.Seasons.{AnalysedUnder};
ghost use Rattle.seasons.specs.Steps.{TriedUnder};

use memory::Tables;
use paper::refusal::Refused;
use records::Tree;

// Of a tree that was read: its forced events become constants before it is built.
fn analyse_read(
    tree: Tree,
    store: &[u8],
    edition: u16,
    nodes: &mut [u32],
    cuts: &mut [u32],
    gates: &mut [u32],
    added: &mut [u32],
    memo: &mut [u32],
    heads: &mut [u32],
    next: &mut [u32],
    marks: &mut [u32],
    own: &mut [u32],
) -> Result<Tables, Refused>
    requires { WasRead tree }
    ensures { TriedUnder tree store.now edition (memory nodes.old cuts.old gates.old added.old memo.old heads.old next.old marks.old own.old) (memory nodes.new cuts.new gates.new added.new memo.new heads.new next.new marks.new own.new) (analysis_of result) }
{
    let events = tree.event_count;
    settings::judge(store, events)?;
    let states = settings::states_under(store, events, edition);
    let under = forcing::force_tree(tree, &states);
    analysis::analyse_tree(
        under, nodes, cuts, gates, added, memo, heads, next, marks, own,
    )
}

// Analyses a tree as `analyse` does, with the events that the store forces, under the asked edition, as constants.
pub fn analyse_season(
    bytes: &[u8],
    store: &[u8],
    edition: u16,
    nodes: &mut [u32],
    cuts: &mut [u32],
    gates: &mut [u32],
    added: &mut [u32],
    memo: &mut [u32],
    heads: &mut [u32],
    next: &mut [u32],
    marks: &mut [u32],
    own: &mut [u32],
) -> Result<Tables, Refused>
    ensures { AnalysedUnder bytes.now store.now edition (memory nodes.old cuts.old gates.old added.old memo.old heads.old next.old marks.old own.old) (memory nodes.new cuts.new gates.new added.new memo.new heads.new next.new marks.new own.new) (analysis_of result) }
{
    // A match: `?` would copy the tree once more.
    match records::read(bytes) {
        Ok(tree) => analyse_read(
            tree, store, edition, nodes, cuts, gates, added, memo, heads, next, marks, own,
        ),
        Err(why) => Err(Refused::from(why)),
    }
}
