// What a planner asks of a lent cut diagram, answered in sets and families alone: the first cut that misses a set, and for each event how many of the
// cuts that miss the set hold it. Neither lists the cuts: each goes over the nodes once up and once down.
#![tactic(auto)]

mod nodes; // one node, and one event of a set
mod marks; // the first cut
mod many; // numbers that may be too large
mod counts; // the cuts that hold each event

ghost use Rattle.std.specs.Prelude.{true};
ghost use Rattle.paper.specs.Refusals.{number_of};
ghost use Rattle.sets.specs.Words.{set_of};
ghost use Rattle.tables.specs.Flags.{Says};
ghost use Rattle.tables.specs.Lent.{Lent};
ghost use Rattle.remaining.specs.Families.{family};
ghost use Rattle.remaining.specs.FirstCut.{Room, Searched, Missing};
ghost use Rattle.remaining.specs.Answers.{found_in, cut_in, found_of, cut_of};
ghost use Rattle.remaining.specs.Tallies.{Enough, Summed, Holding};

use counts::TOTALS;
use paper::refusal::Refusal;

// ---- the first cut that misses a set

// Marks, follows the marks, and leaves zeros.
fn search(
    cuts: &[u32],
    events: usize,
    count: usize,
    root: usize,
    set: &[u64; sets::WORDS],
    some: &mut [u32],
) -> Option<[u64; sets::WORDS]>
    requires { Lent true events cuts.now count root × Room cuts.now some.old }
    ensures { Searched events (set_of set.now) (family cuts.now root) 0 0 (found_in result) (cut_in result) some.old some.new }
{
    marks::mark_all(cuts, events, count, root, set, some);
    if some[root] != 1 {
        some.fill(0);
        return None;
    }
    let cut = marks::first_from(cuts, events, count, root, set, some);
    some.fill(0);
    Some(cut)
}

// The first cut of a lent cut diagram, in the order of the listing, that has no event of the set, if there is one.
pub fn first_missing(
    cuts: &[u32],
    events: usize,
    count: usize,
    root: usize,
    set: [u64; sets::WORDS],
    some: &mut [u32],
) -> Result<Option<[u64; sets::WORDS]>, Refusal>
    ensures { Missing events cuts.now count root set (number_of result) 0 (found_of result) (cut_of result) some.old some.new }
{
    if !tables::is_diagram(cuts, events, count, root, true) {
        return Err(Refusal::NoDiagram);
    }
    if some.len() < cuts.len() / 3 + 2 {
        return Err(Refusal::Length);
    }
    if sets::lowest(&set, events) < sets::MOST {
        return Err(Refusal::Beyond);
    }
    Ok(search(cuts, events, count, root, &set, some))
}

// ---- how many of the cuts that miss a set hold each event

// Whether all that is lent is long enough: a count for each event, and in both areas two words for each node that the table has room for and for each leaf.
fn lengths_ok(cuts: &[u32], events: usize, counts: &[u64], below: &[u64], ways: &[u64]) -> bool
    ensures { Says result (Enough events cuts.now counts.now below.now ways.now) }
{
    let least = 2 * (cuts.len() / 3 + 2);
    events <= counts.len() && least <= below.len() && least <= ways.len()
}

// Counts in both passes, and leaves zeros.
fn sum_up(
    cuts: &[u32],
    events: usize,
    count: usize,
    root: usize,
    set: &[u64; sets::WORDS],
    counts: &mut [u64],
    below: &mut [u64],
    ways: &mut [u64],
) -> Result<(), Refusal>
    requires { Lent true events cuts.now count root × Enough events cuts.now counts.old below.old ways.old }
    ensures { Summed events (set_of set.now) (family cuts.now root) (number_of result) 0 counts.old below.old ways.old counts.new below.new ways.new }
{
    let mut totals = [0; TOTALS];
    counts::count_all(cuts, events, count, root, set, below);
    counts::spread_all(cuts, events, count, root, set, below, ways, &mut totals);
    below.fill(0);
    ways.fill(0);
    if counts::first_over(&totals, events) < events {
        return Err(Refusal::TooMany);
    }
    counts::write(&totals, events, counts);
    Ok(())
}

// For each event how many of the cuts of a lent cut diagram that have no event of the set hold it.
pub fn holding(
    cuts: &[u32],
    events: usize,
    count: usize,
    root: usize,
    set: [u64; sets::WORDS],
    counts: &mut [u64],
    below: &mut [u64],
    ways: &mut [u64],
) -> Result<(), Refusal>
    ensures { Holding events cuts.now count root set (number_of result) 0 counts.old below.old ways.old counts.new below.new ways.new }
{
    if !tables::is_diagram(cuts, events, count, root, true) {
        return Err(Refusal::NoDiagram);
    }
    if !lengths_ok(cuts, events, counts, below, ways) {
        return Err(Refusal::Length);
    }
    if sets::lowest(&set, events) < sets::MOST {
        return Err(Refusal::Beyond);
    }
    sum_up(cuts, events, count, root, &set, counts, below, ways)
}
