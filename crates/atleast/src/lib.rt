// At least k of n nodes by its rule, from the last input to the first: the row holds the node of at-least j of the inputs taken so far, for each j that the
// rule reaches.
#![tactic(auto)]

ghost use Rattle.std.specs.Prelude.{true, false, map, [], ◌∷◌, ◌+◌, ◌<◌, ◌≤◌, length};
ghost use Rattle.paper.specs.Limits.{limits};
ghost use Rattle.algebra.specs.Operations.{join_d};
ghost use Rattle.tables.specs.Table.{den};
ghost use Rattle.atleast.specs.Rules.{least_d, least_steps_d};
ghost use Rattle.atleast.specs.Making.{Within, Held, Gains};
ghost use Rattle.atleast.specs.AtLeast.{Reached, Highest, Lowest, Takes};

use joins::join;
use paper::INPUTS;
use store::{Built, Full};

// At-least 0 to at-least k.
const ROW: usize = INPUTS + 1;

// The highest j for which at-least j of the inputs from i on is not constant.
fn highest(k: usize, n: usize, i: usize) -> usize
    requires { i ≤ n }
    ensures { Highest k n i result }
{
    k.min(n - i)
}

// The lowest j above 0 that the rule reaches from k by i inputs.
fn lowest(k: usize, i: usize) -> usize
    ensures { Lowest k i result }
{
    k.saturating_sub(i).max(1)
}

// (x and less) or more.
fn pair(
    nodes: &mut [u32],
    heads: &mut [u32],
    next: &mut [u32],
    memo: &mut [u32],
    count: usize,
    x: u32,
    less: u32,
    more: u32,
) -> Result<Built, Full>
    requires held { Held nodes.old heads.old next.old memo.old count }
    requires x_bound { x < count + 2 }
    requires less_bound { less < count + 2 }
    requires more_bound { more < count + 2 }
    ensures { Gains (join_d false (den nodes.old x) (den nodes.old less) ∷ (join_d true (join_d false (den nodes.old x) (den nodes.old less)) (den nodes.old more) ∷ [])) (join_d true (join_d false (den nodes.old x) (den nodes.old less)) (den nodes.old more)) nodes.old count nodes.new heads.new next.new memo.new result }
{
    let both = join(nodes, heads, next, memo, count, 0, x, less)?;
    join(nodes, heads, next, memo, both.count, 1, both.node, more)
}

// Takes input i into the row: j falls, so that at-least j - 1 is still without it.
fn take_input(
    nodes: &mut [u32],
    heads: &mut [u32],
    next: &mut [u32],
    memo: &mut [u32],
    row: &mut [u32; ROW],
    xs: &[u32],
    count: usize,
    k: usize,
    i: usize,
) -> Result<usize, Full>
    requires held { Held nodes.old heads.old next.old memo.old count }
    requires within { Within count xs.now }
    requires i_in_bounds { i < length xs.now }
    requires k_le_inputs { k ≤ limits.inputs }
    requires reached { Reached nodes.old count k (map (den nodes.old) xs.now) (i + 1) row.old }
    ensures { Takes k (map (den nodes.old) xs.now) i nodes.old count nodes.new heads.new next.new memo.new row.new result }
{
    let low = lowest(k, i);
    let high = highest(k, xs.len(), i);
    let mut used = count;
    for j in (low..high + 1).rev() {
        let b = pair(nodes, heads, next, memo, used, xs[i], row[j - 1], row[j])?;
        row[j] = b.node;
        used = b.count;
    }
    Ok(used)
}

// The node of at least k of xs.
pub fn at_least(
    nodes: &mut [u32],
    heads: &mut [u32],
    next: &mut [u32],
    memo: &mut [u32],
    xs: &[u32],
    count: usize,
    k: usize,
) -> Result<Built, Full>
    requires held { Held nodes.old heads.old next.old memo.old count }
    requires within { Within count xs.now }
    requires k_le_inputs { k ≤ limits.inputs }
    ensures { Gains (least_steps_d k (map (den nodes.old) xs.now)) (least_d k (map (den nodes.old) xs.now)) nodes.old count nodes.new heads.new next.new memo.new result }
{
    let mut row = [0u32; ROW];
    row[0] = 1;
    let mut used = count;
    for i in (0..xs.len()).rev() {
        used = take_input(nodes, heads, next, memo, &mut row, xs, used, k, i)?;
    }
    Ok(Built {
        node: row[k],
        count: used,
    })
}
