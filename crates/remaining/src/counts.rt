// For each event the number of cuts that miss a set and hold it. From the lowest node up: how many cuts below each node miss the set. From the root
// down: how many ways that miss it lead to each node. Each such way to a node, with each such cut below its failed branch, is a cut that holds its event.
ghost use Rattle.std.specs.Prelude.{◌≡◌, true, ◌+◌, ◌*◌, ◌≤◌, ◌<◌, length, replicate};
ghost use Rattle.paper.specs.Limits.{limits};
ghost use Rattle.sets.specs.Words.{set_of};
ghost use Rattle.tables.specs.Table.{den};
ghost use Rattle.tables.specs.Lent.{Lent};
ghost use Rattle.remaining.specs.Recursion.{count_missing};
ghost use Rattle.remaining.specs.Counting.{capped, amount, Counted, Counting, Spread, Spreads, Held, Ready, FirstOver, Written};

use crate::many::{add_many, many_at, plus, put_many, times};
use crate::nodes::{holds, read_node};

// Two words for each event.
pub const TOTALS: usize = 2 * paper::EVENTS;

// How many cuts below node `i` miss the set, where those below its branches are counted.
fn count_of(
    nodes: &[u32],
    n: usize,
    count: usize,
    set: &[u64; sets::WORDS],
    below: &[u64],
    i: usize,
) -> Option<u64>
    requires { Counting n nodes.now count (set_of set.now) below.now i }
    ensures { amount result ≡ capped (count_missing (set_of set.now) (den nodes.now i)) }
{
    let d = read_node(nodes, n, count, i);
    let y = many_at(below, d.sound);
    let kept = holds(set, d.event);
    if kept {
        return y;
    }
    let x = many_at(below, d.failed);
    plus(x, y)
}

// One pass over the nodes, from the lowest up to the root.
pub fn count_all(
    nodes: &[u32],
    n: usize,
    count: usize,
    root: usize,
    set: &[u64; sets::WORDS],
    below: &mut [u64],
)
    requires { Lent true n nodes.now count root × (2 * root + 1 < length below.old) × (4 ≤ length below.old) }
    ensures { Counted nodes.now (set_of set.now) below.new (root + 1) }
{
    put_many(below, 0, Some(0));
    put_many(below, 1, Some(1));
    for i in 2..root + 1 {
        let x = count_of(nodes, n, count, set, below, i);
        put_many(below, i, x);
    }
}

// Hands the ways to node `i` on to its branches, and adds the cuts that hold its event.
fn spread_node(
    nodes: &[u32],
    n: usize,
    count: usize,
    set: &[u64; sets::WORDS],
    below: &[u64],
    ways: &mut [u64],
    totals: &mut [u64; TOTALS],
    i: usize,
)
    requires { Spreads n nodes.now count (set_of set.now) below.now ways.old i }
    ensures { Spread nodes.now (set_of set.now) ways.old totals.old i ways.new totals.new }
{
    let d = read_node(nodes, n, count, i);
    let w = many_at(ways, i);
    add_many(ways, d.sound, w);
    if holds(set, d.event) {
        return;
    }
    add_many(ways, d.failed, w);
    let c = many_at(below, d.failed);
    add_many(totals, d.event, times(w, c));
}

// One pass over the nodes, from the root down.
pub fn spread_all(
    nodes: &[u32],
    n: usize,
    count: usize,
    root: usize,
    set: &[u64; sets::WORDS],
    below: &[u64],
    ways: &mut [u64],
    totals: &mut [u64; TOTALS],
)
    requires { Ready n nodes.now count root (set_of set.now) below.now ways.old totals.old }
    ensures { Held nodes.now (set_of set.now) root totals.new }
{
    ways.fill(0);
    put_many(ways, root, Some(1));
    for i in (2..root + 1).rev() {
        spread_node(nodes, n, count, set, below, ways, totals, i);
    }
}

// The lowest event that is in more cuts than can be answered, or `n`.
pub fn first_over(totals: &[u64; TOTALS], n: usize) -> usize
    requires { n ≤ limits.events }
    ensures { FirstOver totals.now n result }
{
    for e in 0..n {
        if totals[2 * e + 1] != 0 {
            return e;
        }
    }
    n
}

// The counts of the events go to the front of the lent ones.
pub fn write(totals: &[u64], n: usize, counts: &mut [u64])
    requires { (n ≤ limits.events) × (2 * limits.events ≤ length totals.now) × (n ≤ length counts.old) }
    ensures { Written n counts.old totals.now counts.new }
{
    for e in 0..n {
        counts[e] = totals[2 * e];
    }
}
