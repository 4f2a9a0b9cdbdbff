// The maintenance day planner, for other languages: cuts that miss a set, and sets of events to be kept sound.
ghost use Rattle.std.specs.Prelude.{◌≡◌, List, ℕ, Option, Result};
ghost use Rattle.paper.specs.Refusals.{number_of};
ghost use Rattle.paper.specs.declared.refusal.Refusal.{Refusal};
ghost use Rattle.remaining.specs.FirstCut.{Missing};
ghost use Rattle.remaining.specs.Tallies.{Holding};
ghost use Rattle.remaining.specs.Answers.{found_of, cut_of};
ghost use Rattle.planner.specs.Checking.{Checks};
ghost use Rattle.planner.specs.Proposing.{Proposes};
ghost use Rattle.planner.specs.Answers.{judgement_of, cut_of as cut_with, words_of};
ghost use Rattle.planner.specs.declared.Checked.{Checked};
ghost use Rattle.exported.specs.Planning.{of_missed, of_held, of_checked, of_proposal};

use crate::ending::put;
use crate::plain;
use paper::refusal::Refusal;
use planner::Checked;
use sets::WORDS;

// The numbers of each answer that ends in the words of a set.
const MISSED: usize = 3 + WORDS;

const CHECKED: usize = 4 + WORDS;

const PROPOSAL: usize = 2 + WORDS;

// Finds the first cut of a lent cut diagram that misses a set. The answer: number, place, found, and the cut's words.
#[unsafe(no_mangle)]
pub extern "C" fn matticklet_first_missing(
    cuts: &[u32],
    events: usize,
    count: usize,
    root: usize,
    set: &[u64; WORDS],
    some: &mut [u32],
    answer: &mut [u64; MISSED],
)
    ensures { (r : Result (Option (List ℕ)) Refusal) × (Missing events cuts.now count root set.now (number_of r) 0 (found_of r) (cut_of r) some.old some.new × (answer.new ≡ of_missed r)) }
{
    match remaining::first_missing(cuts, events, count, root, *set, some) {
        Ok(Some(cut)) => put(&[0, 0, 1], &cut, answer),
        Ok(None) => put(&[0, 0, 0], &sets::empty(), answer),
        Err(why) => put(&[why.number() as u64, 0, 0], &sets::empty(), answer),
    }
}

// Counts for each event the cuts that miss a set and hold the event. The answer: number, place.
#[unsafe(no_mangle)]
pub extern "C" fn matticklet_holding(
    cuts: &[u32],
    events: usize,
    count: usize,
    root: usize,
    set: &[u64; WORDS],
    counts: &mut [u64],
    below: &mut [u64],
    ways: &mut [u64],
    answer: &mut [u64; 2],
)
    ensures { (r : Result (Unit {0}) Refusal) × (Holding events cuts.now count root set.now (number_of r) 0 counts.old below.old ways.old counts.new below.new ways.new × (answer.new ≡ of_held r)) }
{
    let r = remaining::holding(cuts, events, count, root, *set, counts, below, ways);
    *answer = plain(r);
}

// Puts the numbers of a judgement, and the words of its cut, into an array.
fn tell(r: Result<Checked, Refusal>, answer: &mut [u64; CHECKED])
    ensures { answer.new ≡ of_checked r }
{
    match r {
        Ok(c) => {
            let j = Ok(c.judgement);
            let cut = c.cut;
            let head = [0, 0, u64::from(planner::said(j)), planner::member(j) as u64];
            put(&head, &cut, answer);
        }
        Err(why) => put(&[why.number() as u64, 0, 0, 0], &sets::empty(), answer),
    }
}

// Checks a set of events to be kept sound. The answer: number, place, what is said, the member that could be dropped, and the words of the cut that misses the set.
#[unsafe(no_mangle)]
pub extern "C" fn matticklet_check(
    cuts: &[u32],
    events: usize,
    count: usize,
    root: usize,
    set: &[u64; WORDS],
    some: &mut [u32],
    answer: &mut [u64; CHECKED],
)
    ensures { (r : Result Checked Refusal) × (Checks events cuts.now count root set.now (judgement_of r) (cut_with r) some.old some.new × (answer.new ≡ of_checked r)) }
{
    let r = planner::check(cuts, events, count, root, *set, some);
    tell(r, answer);
}

// Proposes a set of events to be kept sound. The answer: number, place, and the set's words.
#[unsafe(no_mangle)]
pub extern "C" fn matticklet_plan(
    cuts: &[u32],
    events: usize,
    count: usize,
    root: usize,
    below: &mut [u64],
    ways: &mut [u64],
    answer: &mut [u64; PROPOSAL],
)
    ensures { (r : Result (List ℕ) Refusal) × (Proposes events cuts.now count root (number_of r) 0 (words_of r) below.old ways.old below.new ways.new × (answer.new ≡ of_proposal r)) }
{
    match planner::plan(cuts, events, count, root, below, ways) {
        Ok(set) => put(&[0, 0], &set, answer),
        Err(why) => put(&[why.number() as u64, 0], &sets::empty(), answer),
    }
}
