// The nodes of a gate's inputs combined by its kind: joined two at a time, and with z 0, or with z 1; or at least k of them.
ghost use Rattle.std.specs.Prelude.{map, ◌<◌, ◌≤◌, length};
ghost use Rattle.paper.specs.Limits.{limits};
ghost use Rattle.tables.specs.Table.{den};
ghost use Rattle.pairs.specs.Pairs.{bit};
ghost use Rattle.atleast.specs.Making.{Within, Held, Gains};
ghost use Rattle.gates.specs.Kinds.{join_all_d, join_steps_d, kind_d, kind_steps_d};

use atleast::at_least;
use joins::join;
use store::{Built, Full};

// Kinds of gates; any other is at-least.
pub const AND: u8 = 2;

pub const OR: u8 = 3;

// The inputs xs joined from left to right: and with z 0, or with z 1.
fn joined(
    nodes: &mut [u32],
    heads: &mut [u32],
    next: &mut [u32],
    memo: &mut [u32],
    xs: &[u32],
    count: usize,
    z: u32,
) -> Result<Built, Full>
    requires held { Held nodes.old heads.old next.old memo.old count }
    requires within { Within count xs.now }
    requires in_bounds { 1 ≤ length xs.now }
    requires z_bound { z < 2 }
    ensures { Gains (join_steps_d (bit z) (map (den nodes.old) xs.now)) (join_all_d (bit z) (map (den nodes.old) xs.now)) nodes.old count nodes.new heads.new next.new memo.new result }
{
    let mut b = Built { node: xs[0], count };
    for i in 1..xs.len() {
        b = join(nodes, heads, next, memo, b.count, z, b.node, xs[i])?;
    }
    Ok(b)
}

// The node of a gate over the nodes xs of its inputs.
pub fn combined(
    nodes: &mut [u32],
    heads: &mut [u32],
    next: &mut [u32],
    memo: &mut [u32],
    xs: &[u32],
    count: usize,
    kind: u8,
    k: u8,
) -> Result<Built, Full>
    requires held { Held nodes.old heads.old next.old memo.old count }
    requires within { Within count xs.now }
    requires in_bounds { 1 ≤ length xs.now }
    requires k_le_inputs { k ≤ limits.inputs }
    ensures { Gains (kind_steps_d kind k (map (den nodes.old) xs.now)) (kind_d kind k (map (den nodes.old) xs.now)) nodes.old count nodes.new heads.new next.new memo.new result }
{
    if kind == AND {
        return joined(nodes, heads, next, memo, xs, count, 0);
    }
    if kind == OR {
        return joined(nodes, heads, next, memo, xs, count, 1);
    }
    at_least(nodes, heads, next, memo, xs, count, k as usize)
}
