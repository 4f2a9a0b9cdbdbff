// The minimal cuts of every function in the root's diagram, as nodes of a table of their own. A number of that table is a cut number; its node has
// the sets with the event in its failed branch, the sets without it in its sound branch, and no failed branch 0.
#![tactic(auto)]

ghost use Rattle.std.specs.Prelude.{◌<◌, ◌≤◌, length};
ghost use Rattle.algebra.specs.Families.{cuts_d};
ghost use Rattle.tables.specs.Table.{den};
ghost use Rattle.store.specs.Memo.{Places};
ghost use Rattle.without.specs.Reading.{Held, Readable};
ghost use Rattle.without.specs.Without.{Takes};
ghost use Rattle.cuts.specs.Reach.{Marked, Spread};
ghost use Rattle.cuts.specs.Cutting.{Cuts, Room, Turn, Halfway, Base, Steps};

use store::{Built, Full};

// ---- the numbers that a root reaches

// Marks the branches of node i where it is marked itself.
// By hand: `sizes` does the same in words of 64 bits, which C lends it for its counts; one function over both widths would promise of the marks' values,
// and each caller would have to read that back.
fn mark_branches(nodes: &[u32], marks: &mut [u32], i: usize)
    requires held { Held nodes.now i }
    requires le_i { 2 ≤ i }
    requires i_in_bounds { i < length marks.old }
    ensures { Spread nodes.now i marks.old marks.new }
{
    if marks[i] != 1 {
        return;
    }
    let f = tables::failed_of(nodes, i);
    let s = tables::sound_of(nodes, i);
    marks[f] = 1;
    marks[s] = 1;
}

// Marks with 1 what the root reaches, and with 0 all else.
pub fn mark(nodes: &[u32], marks: &mut [u32], root: usize)
    requires held { Held nodes.now root }
    requires root_in_bounds { root < length marks.old }
    ensures { Marked nodes.now root marks.new }
{
    marks.fill(0);
    marks[root] = 1;
    for i in (2..root + 1).rev() {
        mark_branches(nodes, marks, i);
    }
}

// ---- from the leaves up to the root

// The cuts of node i, (e, G, H), whose branches have their cut numbers in `own`: e added to the cuts of G without H, together with the cuts of H.
fn cut_node(
    cut: &mut [u32],
    heads: &mut [u32],
    next: &mut [u32],
    memo: &mut [u32],
    nodes: &[u32],
    own: &[u32],
    count: usize,
    i: usize,
) -> Result<Built, Full>
    requires { Turn cut.old heads.old next.old count memo.old nodes.now own.now i }
    ensures { Takes cut.old count nodes.now (cuts_d (den nodes.now i)) cut.new heads.new next.new memo.new result }
{
    let at = 3 * (i - 2);
    let e = nodes[at];
    let g = nodes[at + 1];
    let h = nodes[at + 2];
    let f = own[g as usize];
    let s = own[h as usize];
    let b = without::without(cut, heads, next, memo, nodes, count, f, h)?;
    store::make(cut, heads, next, b.count, e, b.node, s, 0)
}

// The same where the root reaches number i, and its cut number is kept; answers the count of nodes.
fn cut_step(
    cut: &mut [u32],
    heads: &mut [u32],
    next: &mut [u32],
    memo: &mut [u32],
    own: &mut [u32],
    nodes: &[u32],
    marks: &[u32],
    count: usize,
    root: usize,
    i: usize,
) -> Result<usize, Full>
    requires base { Base nodes.now marks.now root }
    requires halfway { Halfway nodes.now marks.now root cut.old heads.old next.old count memo.old own.old i }
    requires le_i { (2 ≤ i) × (i ≤ root) × (root < length own.old) }
    ensures { Steps nodes.now marks.now root cut.new heads.new next.new memo.new own.new i result }
{
    if marks[i] == 0 {
        return Ok(count);
    }
    let b = cut_node(cut, heads, next, memo, nodes, own, count, i)?;
    own[i] = b.node;
    Ok(b.count)
}

// The cuts of every number that the root reaches.
fn cut_all(
    cut: &mut [u32],
    heads: &mut [u32],
    next: &mut [u32],
    memo: &mut [u32],
    own: &mut [u32],
    nodes: &[u32],
    marks: &[u32],
    root: usize,
) -> Result<Built, Full>
    requires base { Base nodes.now marks.now root }
    requires halfway { Halfway nodes.now marks.now root cut.old heads.old next.old 0 memo.old own.old 2 }
    requires root_in_bounds { root < length own.old }
    ensures { Cuts (den nodes.now root) cut.new heads.new next.new result }
{
    let mut count = 0;
    for i in 2..root + 1 {
        count = cut_step(cut, heads, next, memo, own, nodes, marks, count, root, i)?;
    }
    Ok(Built {
        node: own[root],
        count,
    })
}

// The cut table of a node table's root, over whatever the lent memory holds.
fn cuts_over(
    cut: &mut [u32],
    heads: &mut [u32],
    next: &mut [u32],
    memo: &mut [u32],
    marks: &mut [u32],
    own: &mut [u32],
    nodes: &[u32],
    root: usize,
) -> Result<Built, Full>
    requires readable { Readable nodes.now root }
    requires room { Room cut.old heads.old next.old marks.old own.old root }
    requires places { Places memo.old }
    ensures { Cuts (den nodes.now root) cut.new heads.new next.new result }
{
    cut.fill(0);
    heads.fill(0);
    memo.fill(0);
    mark(nodes, marks, root);
    own[0] = 0;
    own[1] = 1;
    cut_all(cut, heads, next, memo, own, nodes, marks, root)
}

// THE CUT TABLE: `next`, `marks` and `own` are work areas with a number for each node. A memo of no place gives way to one of a single place, so that the
// recursion need not ask whether there is one.
pub fn build_cuts(
    cut: &mut [u32],
    heads: &mut [u32],
    next: &mut [u32],
    memo: &mut [u32],
    marks: &mut [u32],
    own: &mut [u32],
    nodes: &[u32],
    root: usize,
) -> Result<Built, Full>
    requires readable { Readable nodes.now root }
    requires room { Room cut.old heads.old next.old marks.old own.old root }
    ensures { Cuts (den nodes.now root) cut.new heads.new next.new result }
{
    let n = store::used(memo.len());
    if n < 4 {
        let mut one = [0u32; 4];
        return cuts_over(cut, heads, next, &mut one, marks, own, nodes, root);
    }
    cuts_over(cut, heads, next, &mut memo[..n], marks, own, nodes, root)
}
