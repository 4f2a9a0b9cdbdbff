// The bracket: two numbers of billionths that enclose the chance of a lent diagram's root.
#![tactic(auto)]

ghost use Rattle.std.specs.Prelude.{◌≡◌, ◌+◌, ◌-◌, ◌*◌, ◌/◌, ◌≤◌, ◌<◌, length, set};
ghost use Rattle.paper.specs.Limits.{billion};
ghost use Rattle.tables.specs.Flags.{Says};
ghost use Rattle.tables.specs.Table.{failed_of, sound_of};
ghost use Rattle.paper.specs.Refusals.{number_of};
ghost use Rattle.bracket.specs.Answers.{low_of, high_of};
ghost use Rattle.bracket.specs.Bracketed.{Chances, Done, Bracketed};
ghost use Rattle.bracket.specs.Pass.{number_in, mixed_in, Filled, Priced, Ready};

use paper::refusal::Refusal;

// D: a chance of 1.
pub const D: u64 = paper::BILLION as u64;

// What is added before the division by D, so that it rounds down or up.
const DOWN: u64 = 0;

const UP: u64 = D - 1;

// The two ends, in billionths.
#[derive(Clone, Copy, Debug, PartialEq, Eq)]
pub struct Ends {
    pub low: u64,
    pub high: u64,
}

// By hand: a public name, which review calls; here it is `u64::from`.
pub fn wide(x: u32) -> u64
    ensures { result ≡ x }
{
    u64::from(x)
}

// The number of node `i` in a work area.
pub fn number_in(work: &[u32], i: usize) -> u64
    requires { 2 ≤ i → i - 2 < length work.now }
    ensures { result ≡ number_in work.now i }
{
    match i {
        0 => 0,
        1 => D,
        _ => u64::from(work[i - 2]),
    }
}

// The number of a node whose event has the chance `a` and whose branches have the numbers `x` and `y`.
#[tactic(auto, using(crate::proofs::Pass::sum_le))]
fn mixed(a: u64, x: u64, y: u64, round: u64) -> u32
    requires { (a ≤ billion) × (x ≤ billion) × (y ≤ billion) × (round < billion) }
    ensures { result ≡ (a * x + (billion - a) * y + round) / billion }
{
    let rest = D - a;
    ((a * x + rest * y + round) / D) as u32
}

// Stores the number of node `i`, whose branches `f` and `s` have theirs.
pub fn fill_node(work: &mut [u32], i: usize, f: usize, s: usize, a: u64, round: u64)
    requires { Ready work.old i f s a round }
    ensures { work.new ≡ set work.old (i - 2) (mixed_in work.old f s a round) }
{
    let x = number_in(work, f);
    let y = number_in(work, s);
    work[i - 2] = mixed(a, x, y, round);
}

// Stores both numbers of node `i`, whose event has the chance `a`.
pub fn fill_both(nodes: &[u32], i: usize, a: u64, lows: &mut [u32], highs: &mut [u32])
    requires node { (2 ≤ i) × (3 * (i - 2) + 2 < length nodes.now) }
    requires low { Ready lows.old i (failed_of nodes.now i) (sound_of nodes.now i) a 0 }
    requires high { Ready highs.old i (failed_of nodes.now i) (sound_of nodes.now i) a (billion - 1) }
    ensures low { lows.new ≡ set lows.old (i - 2) (mixed_in lows.old (failed_of nodes.now i) (sound_of nodes.now i) a 0) }
    ensures high { highs.new ≡ set highs.old (i - 2) (mixed_in highs.old (failed_of nodes.now i) (sound_of nodes.now i) a (billion - 1)) }
{
    let f = tables::failed_of(nodes, i);
    let s = tables::sound_of(nodes, i);
    fill_node(lows, i, f, s, a, DOWN);
    fill_node(highs, i, f, s, a, UP);
}

// One pass over the nodes, from the lowest up: branches have lower numbers, so theirs are there.
pub fn fill_all(
    nodes: &[u32],
    n: usize,
    count: usize,
    root: usize,
    chances: &[u32],
    lows: &mut [u32],
    highs: &mut [u32],
)
    requires { (Priced n nodes.now count root chances.now) × (count ≤ length lows.old) × (count ≤ length highs.old) }
    ensures { (Filled 0 chances.now nodes.now lows.new (count + 2)) × (Filled (billion - 1) chances.now nodes.now highs.new (count + 2)) }
{
    for i in 2..count + 2 {
        let e = tables::event_of(nodes, i);
        fill_both(nodes, i, u64::from(chances[e]), lows, highs);
    }
}

// Whether the first `n` chances are at most D.
pub fn chances_ok(chances: &[u32], n: usize) -> bool
    requires { n ≤ length chances.now }
    ensures { Says result (Chances n chances.now) }
{
    chances[..n].iter().all(|a| *a <= paper::BILLION)
}

// Both numbers of the root, where all checks are passed.
fn both_ends(
    nodes: &[u32],
    n: usize,
    count: usize,
    root: usize,
    chances: &[u32],
    lows: &mut [u32],
    highs: &mut [u32],
) -> Ends
    requires { (Priced n nodes.now count root chances.now) × (count ≤ length lows.old) × (count ≤ length highs.old) }
    ensures { Done nodes.now root chances.now 0 0 result.low result.high lows.old highs.old lows.new highs.new }
{
    fill_all(nodes, n, count, root, chances, lows, highs);
    let low = number_in(lows, root);
    let high = number_in(highs, root);
    lows.fill(0);
    highs.fill(0);
    Ends { low, high }
}

// Encloses the chance of the root of a lent diagram of `n` events. Each work area has a number for each node that the table has room for.
pub fn bracket(
    nodes: &[u32],
    n: usize,
    count: usize,
    root: usize,
    chances: &[u32],
    lows: &mut [u32],
    highs: &mut [u32],
) -> Result<Ends, Refusal>
    ensures { Bracketed n nodes.now count root chances.now (number_of result) 0 (low_of result) (high_of result) lows.old highs.old lows.new highs.new }
{
    if !tables::is_diagram(nodes, n, count, root, false) {
        return Err(Refusal::NoDiagram);
    }
    let capacity = nodes.len() / 3;
    if chances.len() < n {
        return Err(Refusal::Length);
    }
    if lows.len() < capacity {
        return Err(Refusal::Length);
    }
    if highs.len() < capacity {
        return Err(Refusal::Length);
    }
    if !chances_ok(chances, n) {
        return Err(Refusal::Chance);
    }
    Ok(both_ends(nodes, n, count, root, chances, lows, highs))
}
