// A folder of trees: how many minimal cuts of each size they have together. The call answers for any arguments.
#![tactic(auto)]

ghost use Rattle.std.specs.Prelude.{◌≡◌, [], length};
ghost use Rattle.paper.specs.Lists.{sum};
ghost use Rattle.paper.specs.Sizes.{sizes};
ghost use Rattle.memory.specs.Memory.{memory};
ghost use Rattle.tables.specs.Flags.{Says};
ghost use Rattle.totals.specs.Adding.{Areas};
ghost use Rattle.folder.specs.Contract.{lent, lends, AtOnce, Gathers};
ghost use Rattle.folder.specs.Gathered.{gathered_of};
ghost use Rattle.folder.specs.Steps.{Sums, Tried};

use paper::refusal::Refusal;
use totals::{add_tree, at_once, clear_areas, is_fitting, write_done};

// Why a folder is refused, and the index of the tree; place and tree are 0 where it is no tree's own.
#[derive(Clone, Copy, Debug, PartialEq, Eq)]
pub struct RefusedTree {
    pub why: Refusal,
    pub place: usize,
    pub tree: usize,
}

// A refusal that names no tree.
fn of_no_tree(why: Refusal) -> RefusedTree
    ensures { (result.why ≡ why) × (result.place ≡ 0) × (result.tree ≡ 0) }
{
    RefusedTree {
        why,
        place: 0,
        tree: 0,
    }
}

// All trees in turn, up to the first that is refused. The 19 of a total that is too large waits until behind the last tree.
fn all_trees(
    bytes: &[u8],
    lengths: &[usize],
    totals: &mut [u64],
    nodes: &mut [u32],
    cuts: &mut [u32],
    gates: &mut [u32],
    added: &mut [u32],
    memo: &mut [u32],
    heads: &mut [u32],
    next: &mut [u32],
    marks: &mut [u32],
    own: &mut [u32],
    less: &mut [u64],
    work: &mut [u64],
    reached: &mut [u64],
) -> Result<(), RefusedTree>
    requires { (sum lengths.now ≡ length bytes.now) × (Areas cuts.old less.old work.old reached.old) × (length totals.old ≡ sizes) × (Sums [] totals.old (Some tt)) }
    ensures { Tried bytes.now lengths.now (lends (memory nodes.old cuts.old gates.old added.old memo.old heads.old next.old marks.old own.old) less.old work.old reached.old) (lends (memory nodes.new cuts.new gates.new added.new memo.new heads.new next.new marks.new own.new) less.new work.new reached.new) totals.new (gathered_of result) }
{
    let mut start = 0;
    let mut fits = Some(());
    for (i, length) in lengths.iter().enumerate() {
        let end = start + *length;
        let t = match analyser::analyse(
            &bytes[start..end],
            nodes,
            cuts,
            gates,
            added,
            memo,
            heads,
            next,
            marks,
            own,
        ) {
            Ok(t) => t,
            Err(refused) => {
                return Err(RefusedTree {
                    why: refused.why,
                    place: refused.place,
                    tree: i,
                });
            }
        };
        fits = add_tree(
            fits,
            cuts,
            t.cut_nodes,
            t.cut_root,
            totals,
            less,
            work,
            reached,
        );
        start = end;
    }
    fits.ok_or(of_no_tree(Refusal::TooMany))
}

// Whether the first tree was refused before anything was written.
fn is_unchanged(r: Result<(), RefusedTree>) -> bool
    ensures { Says result (AtOnce (gathered_of r).tree (gathered_of r).number) }
{
    match r {
        Ok(()) => false,
        Err(refused) => at_once(refused.why, refused.tree),
    }
}

// Counts the minimal cuts of all trees of a folder by size: tree i has lengths[i] bytes, behind those of the trees before it. What each gate adds is
// asked by nobody here, and goes to a list of the call's own.
pub fn folder(
    bytes: &[u8],
    lengths: &[usize],
    nodes: &mut [u32],
    cuts: &mut [u32],
    gates: &mut [u32],
    memo: &mut [u32],
    heads: &mut [u32],
    next: &mut [u32],
    marks: &mut [u32],
    own: &mut [u32],
    counts: &mut [u64],
    less: &mut [u64],
    work: &mut [u64],
    reached: &mut [u64],
) -> Result<(), RefusedTree>
    ensures { Gathers bytes.now lengths.now (lends (lent nodes.old cuts.old gates.old memo.old heads.old next.old marks.old own.old) less.old work.old reached.old) counts.old (lends (lent nodes.new cuts.new gates.new memo.new heads.new next.new marks.new own.new) less.new work.new reached.new) counts.new (gathered_of result) }
{
    if !is_fitting(bytes, lengths, cuts, counts, less, work, reached) {
        return Err(of_no_tree(Refusal::Length));
    }
    let mut totals = [0; paper::SIZES];
    let mut added = [0; paper::GATES];
    let r = all_trees(
        bytes,
        lengths,
        &mut totals,
        nodes,
        cuts,
        gates,
        &mut added,
        memo,
        heads,
        next,
        marks,
        own,
        less,
        work,
        reached,
    );
    if is_unchanged(r) {
        return r;
    }
    memory::wipe(
        nodes, cuts, gates, &mut added, memo, heads, next, marks, own,
    );
    clear_areas(less, work, reached);
    write_done(r.map_err(|refused| refused.why), &totals, counts);
    r
}
