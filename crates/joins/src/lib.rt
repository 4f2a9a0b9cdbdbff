// And, or of two nodes of a store. The leaf that decides is a parameter, so both are one operation: and with z 0, or with z 1.
#![tactic(auto)]

ghost use Rattle.std.specs.Prelude.{◌≤◌};
ghost use Rattle.algebra.specs.Operations.{join_d};
ghost use Rattle.tables.specs.Table.{den};
ghost use Rattle.store.specs.Memo.{Place};
ghost use Rattle.pairs.specs.Pairs.{bit};
ghost use Rattle.joins.specs.Joins.{Ready, Joins};

use pairs::{ask, take_apart};
use store::{Built, Full, Known, finish};

// Two nodes whose answer is not known, and its place in the memo. Asking comes before each call: half of all questions need none.
fn join_nodes(
    nodes: &mut [u32],
    heads: &mut [u32],
    next: &mut [u32],
    memo: &mut [u32],
    count: usize,
    z: u32,
    f: u32,
    g: u32,
    at: usize,
) -> Result<Built, Full>
    requires ready { Ready nodes.old heads.old next.old memo.old count z f g }
    requires le_f { 2 ≤ f }
    requires f_le_g { f ≤ g }
    requires place { Place memo.old at }
    ensures { Joins nodes.old memo.old count (join_d (bit z) (den nodes.old f) (den nodes.old g)) nodes.new heads.new next.new memo.new result }
{
    let p = take_apart(nodes, heads, next, count, f, g);
    let a = match ask(memo, z, p.f1, p.g1) {
        Known::Node(node) => Built { node, count },
        Known::Unknown(at1) => join_nodes(nodes, heads, next, memo, count, z, p.f1, p.g1, at1)?,
    };
    let b = match ask(memo, z, p.f0, p.g0) {
        Known::Node(node) => Built {
            node,
            count: a.count,
        },
        Known::Unknown(at0) => join_nodes(nodes, heads, next, memo, a.count, z, p.f0, p.g0, at0)?,
    };
    finish(
        nodes,
        heads,
        next,
        memo,
        b.count,
        z + 1,
        f,
        g,
        at,
        p.e,
        a.node,
        b.node,
        b.node,
    )
}

// The node of x and y, with z 0; of x or y, with z 1.
pub fn join(
    nodes: &mut [u32],
    heads: &mut [u32],
    next: &mut [u32],
    memo: &mut [u32],
    count: usize,
    z: u32,
    x: u32,
    y: u32,
) -> Result<Built, Full>
    requires { Ready nodes.old heads.old next.old memo.old count z x y }
    ensures { Joins nodes.old memo.old count (join_d (bit z) (den nodes.old x) (den nodes.old y)) nodes.new heads.new next.new memo.new result }
{
    let f = x.min(y);
    let g = x.max(y);
    match ask(memo, z, f, g) {
        Known::Node(node) => Ok(Built { node, count }),
        Known::Unknown(at) => join_nodes(nodes, heads, next, memo, count, z, f, g, at),
    }
}
