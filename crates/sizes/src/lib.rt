// How many of the sets that a lent cut diagram denotes have 0, 1, 2 … members, without listing them: the nodes that the root reaches are listed once,
// then one pass over that list for each size up to the largest.
#![tactic(auto)]

ghost use Rattle.std.specs.Prelude.{◌≡◌, ◌+◌, ◌≤◌, ◌<◌, max, length};
ghost use Rattle.paper.specs.Refusals.{number_of};
ghost use Rattle.paper.specs.Sizes.{sizes};
ghost use Rattle.tables.specs.Flags.{Says};
ghost use Rattle.tables.specs.Table.{den};
ghost use Rattle.sizes.specs.Recursion.{deepest};
ghost use Rattle.without.specs.Reading.{Held};
ghost use Rattle.cuts.specs.Reach.{Marked, Spread};
ghost use Rattle.sizes.specs.Reach.{Takes, Collecting, Listed};
ghost use Rattle.sizes.specs.Passes.{Before, Passed, Adds, Totals, Totalled, totals_in};
ghost use Rattle.sizes.specs.Counted.{Enough, Counted};

use paper::SIZES;
use paper::refusal::Refusal;

// ---- the nodes that the root reaches

// Marks the branches of node i where it is marked itself.
fn mark_branches(nodes: &[u32], marks: &mut [u64], i: usize)
    requires held { Held nodes.now i }
    requires le_i { 2 ≤ i }
    requires i_in_bounds { i < length marks.old }
    ensures { Spread nodes.now i marks.old marks.new }
{
    if marks[i] != 1 {
        return;
    }
    let f = tables::failed_of(nodes, i);
    let s = tables::sound_of(nodes, i);
    marks[f] = 1;
    marks[s] = 1;
}

// Marks with 1 what the root reaches, and with 0 all else. By hand: cuts::mark marks numbers of 32 bits, and C lends this area as one of 64.
fn mark(nodes: &[u32], marks: &mut [u64], root: usize)
    requires held { Held nodes.now root }
    requires root_in_bounds { root < length marks.old }
    ensures { Marked nodes.now root marks.new }
{
    marks.fill(0);
    marks[root] = 1;
    for i in (2..root + 1).rev() {
        mark_branches(nodes, marks, i);
    }
}

// Puts number i, where it is marked, behind the first `many` numbers, which are lower than i; how many there are then.
fn take(reached: &mut [u64], i: usize, many: usize) -> usize
    requires { (many < i) × (i < length reached.old) }
    ensures { Takes i many reached.old reached.new result }
{
    if reached[i] != 1 {
        return many;
    }
    reached[many] = i as u64;
    many + 1
}

// From the marks to the list of the nodes that are marked, in rising order, in the same area; how many there are.
fn collect(reached: &mut [u64], root: usize) -> usize
    requires { root < length reached.old }
    ensures { Collecting reached.old reached.new result (max 2 (root + 1)) }
{
    let mut many = 0;
    for i in 2..root + 1 {
        many = take(reached, i, many);
    }
    many
}

// Lists the nodes that the root reaches.
fn list_reached(nodes: &[u32], reached: &mut [u64], root: usize) -> usize
    requires held { Held nodes.now root }
    requires root_in_bounds { root < length reached.old }
    ensures { Listed nodes.now root reached.new result }
{
    mark(nodes, reached, root);
    collect(reached, root)
}

// ---- the largest size

// The most members of a set: a failed branch adds one.
fn largest_size(nodes: &[u32], root: usize, list: &[u64], work: &mut [u64]) -> usize
    requires held { (Held nodes.now root) × (Listed nodes.now root list.now (length list.now)) × (deepest (den nodes.now root) < sizes) }
    requires root_in_bounds { (root < length work.old) × (2 ≤ length work.old) }
    ensures { result ≡ deepest (den nodes.now root) }
{
    work[0] = 0;
    work[1] = 0;
    for i in list {
        let i = *i as usize;
        let f = tables::failed_of(nodes, i);
        let s = tables::sound_of(nodes, i);
        work[i] = (work[f] + 1).max(work[s]);
    }
    work[root] as usize
}

// ---- one size

// To number i the count of its failed branch with one member less and that of its sound branch together. None: they are too many.
fn add(less: &[u64], work: &mut [u64], i: usize, f: usize, s: usize) -> Option<()>
    requires { (i < length work.old) × (f < length less.now) × (s < length work.old) }
    ensures { Adds less.now work.old i f s result work.new }
{
    work[i] = less[f].checked_add(work[s])?;
    Some(())
}

// The counts of size k of all that the root reaches, from the leaves up to the root. None: some count of the root is too large.
fn one_size(
    nodes: &[u32],
    root: usize,
    list: &[u64],
    k: usize,
    less: &[u64],
    work: &mut [u64],
) -> Option<()>
    requires held { (Held nodes.now root) × (Listed nodes.now root list.now (length list.now)) × (Before nodes.now root k less.now) }
    requires root_in_bounds { (root < length less.now) × (root < length work.old) × (2 ≤ length work.old) }
    ensures { Passed nodes.now root k work.new result }
{
    work[0] = 0;
    work[1] = u64::from(k == 0);
    for i in list {
        let i = *i as usize;
        let f = tables::failed_of(nodes, i);
        let s = tables::sound_of(nodes, i);
        add(less, work, i, f, s)?;
    }
    Some(())
}

// ---- all sizes

// The counts of the sizes up to the last: the areas change places after each. They are written where they stay: 1,025 numbers in an answer would be copied.
fn up_to(
    nodes: &[u32],
    root: usize,
    list: &[u64],
    last: usize,
    totals: &mut [u64; SIZES],
    less: &mut [u64],
    work: &mut [u64],
) -> Option<()>
    requires held { (Held nodes.now root) × (Listed nodes.now root list.now (length list.now)) × (Before nodes.now root 0 less.old) }
    requires last_value { (last ≡ deepest (den nodes.now root)) × (last < sizes) × (Totals (den nodes.now root) 0 totals.old) }
    requires root_in_bounds { (root < length less.old) × (root < length work.old) × (2 ≤ length less.old) × (2 ≤ length work.old) }
    ensures { Totalled (den nodes.now root) (totals_in result totals.new) }
{
    let (mut less, mut work) = (less, work);
    for k in 0..last + 1 {
        one_size(nodes, root, list, k, less, work)?;
        totals[k] = work[root];
        (less, work) = (work, less);
    }
    Some(())
}

// The counts of all sizes.
fn all_sizes(
    nodes: &[u32],
    root: usize,
    totals: &mut [u64; SIZES],
    less: &mut [u64],
    work: &mut [u64],
    reached: &mut [u64],
) -> Option<()>
    requires held { (Held nodes.now root) × (deepest (den nodes.now root) < sizes) × (Totals (den nodes.now root) 0 totals.old) }
    requires root_in_bounds { (root < length less.old) × (root < length work.old) × (root < length reached.old) × (2 ≤ length less.old) × (2 ≤ length work.old) }
    ensures { Totalled (den nodes.now root) (totals_in result totals.new) }
{
    let many = list_reached(nodes, reached, root);
    let list = &reached[..many];
    let last = largest_size(nodes, root, list, work);
    less.fill(0);
    up_to(nodes, root, list, last, totals, less, work)
}

// ---- the call

// Whether all that is lent is long enough: a count for each size, and in each area a number for each node that the table has room for, and two more.
pub fn lengths_ok(cuts: &[u32], counts: &[u64], less: &[u64], work: &[u64], reached: &[u64]) -> bool
    ensures { Says result (Enough cuts.now counts.now less.now work.now reached.now) }
{
    let least = cuts.len() / 3 + 2;
    SIZES <= counts.len() && least <= less.len() && least <= work.len() && least <= reached.len()
}

// Counts the sets of a lent cut diagram of `events` events by size.
pub fn sizes(
    cuts: &[u32],
    events: usize,
    count: usize,
    root: usize,
    counts: &mut [u64],
    less: &mut [u64],
    work: &mut [u64],
    reached: &mut [u64],
) -> Result<(), Refusal>
    ensures { Counted events cuts.now count root (number_of result) 0 counts.old less.old work.old reached.old counts.new less.new work.new reached.new }
{
    if !tables::is_diagram(cuts, events, count, root, true) {
        return Err(Refusal::NoDiagram);
    }
    if !lengths_ok(cuts, counts, less, work, reached) {
        return Err(Refusal::Length);
    }
    let mut totals = [0; SIZES];
    let fits = all_sizes(cuts, root, &mut totals, less, work, reached);
    less.fill(0);
    work.fill(0);
    reached.fill(0);
    let Some(()) = fits else {
        return Err(Refusal::TooMany);
    };
    counts[..SIZES].copy_from_slice(&totals);
    Ok(())
}
