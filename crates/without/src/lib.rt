// F without G: the sets of a cut diagram that do not make a function fail. F stands in the cut table, G in the node table.
#![tactic(auto)]

ghost use Rattle.std.specs.Prelude.{◌≡◌, ◌+◌, ◌<◌, ◌≤◌};
ghost use Rattle.algebra.specs.Families.{without_d};
ghost use Rattle.tables.specs.Table.{den};
ghost use Rattle.store.specs.Store.{Store};
ghost use Rattle.store.specs.Memo.{Places};
ghost use Rattle.without.specs.Reading.{Readable};
ghost use Rattle.without.specs.Without.{Family, Ready, Asked, Missed, Passed, Parted, Takes};

use store::{Built, Full, Known, Parts, finish};

fn branches(e: u32, f1: u32, g1: u32, f0: u32, g0: u32) -> Parts
    ensures { result ≡ record { e = e; f1 = f1; g1 = g1; f0 = f0; g0 = g0 } }
{
    Parts { e, f1, g1, f0, g0 }
}

// What is known without taking F and G apart: a leaf, or what the memo says.
fn ask(memo: &[u32], f: u32, g: u32) -> Known
    requires { Places memo.now }
    ensures { Asked memo.now f g result }
{
    if g < 2 {
        if g == 1 {
            return Known::Node(0);
        }
        return Known::Node(f);
    }
    if f < 2 {
        return Known::Node(f);
    }
    store::recall(memo, 3, f, g)
}

// g past its events that are earlier than e: no set of a family that begins at e has them. The last node before a leaf stays.
fn past(nodes: &[u32], e: u32, g: u32) -> u32
    requires readable { Readable nodes.now g }
    requires le_g { 2 ≤ g }
    ensures { Passed nodes.now e g result }
{
    let mut h = g;
    loop {
        let j = 3 * ((h - 2) as usize);
        if e <= nodes[j] {
            return h;
        }
        let s = nodes[j + 2];
        if s < 2 {
            return h;
        }
        h = s;
    }
}

// Takes f and g apart; no set of f has an event earlier than its own, so that its failed branch there is 0.
fn take_apart(
    cut: &[u32],
    heads: &[u32],
    next: &[u32],
    nodes: &[u32],
    count: usize,
    f: u32,
    g: u32,
) -> Parts
    requires store { Store cut.now heads.now next.now count }
    requires family { Family cut.now count f }
    requires readable { Readable nodes.now g }
    requires le_f { 2 ≤ f }
    requires le_g { 2 ≤ g }
    ensures { Parted cut.now nodes.now f g result }
{
    let i = 3 * ((f - 2) as usize);
    let x = cut[i];
    let h = past(nodes, x, g);
    let j = 3 * ((h - 2) as usize);
    let y = nodes[j];
    if x < y {
        return branches(x, cut[i + 1], h, cut[i + 2], h);
    }
    if y < x {
        return branches(y, 0, 0, f, nodes[j + 2]);
    }
    branches(x, cut[i + 1], nodes[j + 1], cut[i + 2], nodes[j + 2])
}

// f without g, neither of them a leaf and not in the memo: F1 without G1 joined with F2 without G2 under the earlier event.
fn without_nodes(
    cut: &mut [u32],
    heads: &mut [u32],
    next: &mut [u32],
    memo: &mut [u32],
    nodes: &[u32],
    count: usize,
    f: u32,
    g: u32,
    at: usize,
) -> Result<Built, Full>
    requires ready { Ready cut.old heads.old next.old count memo.old nodes.now f g }
    requires missed { Missed memo.old f g at }
    ensures { Takes cut.old count nodes.now (without_d (den cut.old f) (den nodes.now g)) cut.new heads.new next.new memo.new result }
{
    let p = take_apart(cut, heads, next, nodes, count, f, g);
    let a = match ask(memo, p.f1, p.g1) {
        Known::Node(node) => Built { node, count },
        Known::Unknown(at1) => without_nodes(
            cut, heads, next, memo, nodes, count, p.f1, p.g1, at1,
        )?,
    };
    let b = match ask(memo, p.f0, p.g0) {
        Known::Node(node) => Built {
            node,
            count: a.count,
        },
        Known::Unknown(at0) => without_nodes(
            cut, heads, next, memo, nodes, a.count, p.f0, p.g0, at0,
        )?,
    };
    finish(
        cut, heads, next, memo, b.count, 3, f, g, at, p.e, a.node, b.node, 0,
    )
}

// f without g.
pub fn without(
    cut: &mut [u32],
    heads: &mut [u32],
    next: &mut [u32],
    memo: &mut [u32],
    nodes: &[u32],
    count: usize,
    f: u32,
    g: u32,
) -> Result<Built, Full>
    requires { Ready cut.old heads.old next.old count memo.old nodes.now f g }
    ensures { Takes cut.old count nodes.now (without_d (den cut.old f) (den nodes.now g)) cut.new heads.new next.new memo.new result }
{
    match ask(memo, f, g) {
        Known::Node(node) => Ok(Built { node, count }),
        Known::Unknown(at) => without_nodes(cut, heads, next, memo, nodes, count, f, g, at),
    }
}
