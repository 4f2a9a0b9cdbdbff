// Two nodes of a store: taken apart at the earlier of their events; what needs no recursion.
#![tactic(auto)]

ghost use Rattle.std.specs.Prelude.{◌+◌, ◌<◌, ◌≤◌, min, max};
ghost use Rattle.store.specs.Store.{Store};
ghost use Rattle.store.specs.Memo.{Places};
ghost use Rattle.pairs.specs.Pairs.{Arranged, Parted, Asked};

use store::{Known, Parts};

// Joining commutes: of each pair the lower number comes first, so that the memo is asked in one way.
fn arranged(e: u32, a1: u32, b1: u32, a0: u32, b0: u32) -> Parts
    ensures { Arranged e a1 b1 a0 b0 result }
{
    Parts {
        e,
        f1: a1.min(b1),
        g1: a1.max(b1),
        f0: a0.min(b0),
        g0: a0.max(b0),
    }
}

// Takes two stored nodes apart.
pub fn take_apart(nodes: &[u32], heads: &[u32], next: &[u32], count: usize, f: u32, g: u32) -> Parts
    requires store { Store nodes.now heads.now next.now count }
    requires le_f { (2 ≤ f) × (f < count + 2) }
    requires le_g { (2 ≤ g) × (g < count + 2) }
    ensures { Parted nodes.now f g result }
{
    let i = 3 * ((f - 2) as usize);
    let j = 3 * ((g - 2) as usize);
    let a = nodes[i];
    let b = nodes[j];
    if a < b {
        return arranged(a, nodes[i + 1], g, nodes[i + 2], g);
    }
    if b < a {
        return arranged(b, f, nodes[j + 1], f, nodes[j + 2]);
    }
    arranged(a, nodes[i + 1], nodes[j + 1], nodes[i + 2], nodes[j + 2])
}

// What needs no recursion: equal operands, a leaf, an answer in the memo.
pub fn ask(memo: &[u32], z: u32, f: u32, g: u32) -> Known
    requires z_bound { z < 2 }
    requires f_le_g { f ≤ g }
    requires places { Places memo.now }
    ensures { Asked memo.now z f g result }
{
    if f == g {
        return Known::Node(f);
    }
    if f < 2 {
        if f == z {
            return Known::Node(f);
        }
        return Known::Node(g);
    }
    store::recall(memo, z + 1, f, g)
}
