// The first cut that misses a set: each node is marked where some cut below it does, and the way down goes by the marks.
ghost use Rattle.std.specs.Prelude.{◌≡◌, true, not, ◌&&◌, ◌+◌, ◌≤◌, ◌<◌, eqb, length, get_or};
ghost use Rattle.paper.specs.Limits.{limits};
ghost use Rattle.sets.specs.Words.{words, set_of};
ghost use Rattle.tables.specs.Table.{den};
ghost use Rattle.tables.specs.Lent.{Lent};
ghost use Rattle.remaining.specs.Recursion.{some_missing, first_in};
ghost use Rattle.remaining.specs.Marking.{mark, Marked, Marking, Leading};

use crate::nodes::{holds, read_node};

// Whether a cut that misses the set may hold event `e` and go on by the failed branch `f`.
fn by_failed(set: &[u64; sets::WORDS], some: &[u32], e: usize, f: usize) -> bool
    requires { (e < limits.events) × (f < length some.now) }
    ensures { result ≡ (not (set_of set.now e) && eqb (get_or some.now f 0) 1) }
{
    if holds(set, e) {
        return false;
    }
    some[f] == 1
}

// The mark of node `i`, whose branches have lower numbers and are marked.
fn mark_of(
    nodes: &[u32],
    n: usize,
    count: usize,
    set: &[u64; sets::WORDS],
    some: &[u32],
    i: usize,
) -> u32
    requires { Marking n nodes.now count (set_of set.now) some.now i }
    ensures { result ≡ mark (some_missing (set_of set.now) (den nodes.now i)) }
{
    let d = read_node(nodes, n, count, i);
    if by_failed(set, some, d.event, d.failed) {
        return 1;
    }
    let s = d.sound;
    some[s]
}

// One pass over the nodes, from the lowest up to the root.
pub fn mark_all(
    nodes: &[u32],
    n: usize,
    count: usize,
    root: usize,
    set: &[u64; sets::WORDS],
    some: &mut [u32],
)
    requires { Lent true n nodes.now count root × (root < length some.old) × (2 ≤ length some.old) }
    ensures { Marked nodes.now (set_of set.now) some.new (root + 1) }
{
    some[0] = 0;
    some[1] = 1;
    for i in 2..root + 1 {
        some[i] = mark_of(nodes, n, count, set, some, i);
    }
}

// The first cut that misses the set, where there is one: the failed branch before the sound one.
pub fn first_from(
    nodes: &[u32],
    n: usize,
    count: usize,
    root: usize,
    set: &[u64; sets::WORDS],
    some: &[u32],
) -> [u64; sets::WORDS]
    requires { Leading n nodes.now count root (set_of set.now) some.now }
    ensures { (length result ≡ words) × (set_of result ≡ first_in (set_of set.now) (den nodes.now root)) }
{
    let mut cut = sets::empty();
    let mut i = root;
    while 2 <= i {
        let d = read_node(nodes, n, count, i);
        if by_failed(set, some, d.event, d.failed) {
            sets::add(&mut cut, d.event);
            i = d.failed;
        } else {
            i = d.sound;
        }
    }
    cut
}
