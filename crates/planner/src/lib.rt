// The maintenance day planner, over the analyser's promises about cuts alone: a set of events to be kept sound is checked, and one is proposed.
// What is proposed has no standing until it is checked.
#![tactic(auto)]

mod proposing; // the event in the most cuts left, again and again

ghost use Rattle.std.specs.Prelude.{◌≡◌};
ghost use Rattle.paper.specs.Refusals.{number_of};
ghost use Rattle.sets.specs.Words.{set_of};
ghost use Rattle.remaining.specs.Families.{family};
ghost use Rattle.planner.specs.Saying.{says};
ghost use Rattle.planner.specs.Checking.{Trial, Judges, Checks};
ghost use Rattle.planner.specs.Proposing.{Proposes};
ghost use Rattle.planner.specs.Answers.{judgement_of, cut_of, words_of};

use paper::refusal::Refusal;
use proposing::take_all;

// ---- a set is checked

// What the checker says of a set: it is accepted; a cut misses it; or this member could be dropped, and no lower one.
#[derive(Clone, Copy)]
pub enum Judgement {
    Accepts,
    Misses,
    Drops(usize),
}

// The paper's number of an answer and its place; what it says: 0 nothing, 1 accepted, 2 a cut misses, 3 a member could be dropped; and that member.
pub fn number(j: Result<Judgement, Refusal>) -> u8
    ensures { result ≡ (says j).number }
{
    match j {
        Err(why) => why.number(),
        Ok(_) => 0,
    }
}

pub fn place(j: Result<Judgement, Refusal>) -> usize
    ensures { result ≡ (says j).place }
{
    0
}

pub fn said(j: Result<Judgement, Refusal>) -> u8
    ensures { result ≡ (says j).said }
{
    match j {
        Err(_) => 0,
        Ok(Judgement::Accepts) => 1,
        Ok(Judgement::Misses) => 2,
        Ok(Judgement::Drops(_)) => 3,
    }
}

pub fn member(j: Result<Judgement, Refusal>) -> usize
    ensures { result ≡ (says j).member }
{
    if let Ok(Judgement::Drops(e)) = j {
        e
    } else {
        0
    }
}

// The judgement, and the first cut that misses the set: the empty set where none does.
// The cut stands beside the judgement, not in `Misses`: the theorem `one_right` has two right judgements equal whatever the words of their cuts.
#[derive(Clone, Copy)]
pub struct Checked {
    pub judgement: Judgement,
    pub cut: [u64; sets::WORDS],
}

// Of a set that no cut misses: the lowest member without which none does either, if there is one.
fn judge_members(
    cuts: &[u32],
    events: usize,
    count: usize,
    root: usize,
    set: [u64; sets::WORDS],
    some: &mut [u32],
) -> Option<usize>
    requires { Trial events cuts.now count root set some.old }
    ensures { Judges events (set_of set) (family cuts.now root) result × (some.new ≡ some.old) }
{
    let mut e = sets::lowest(&set, 0);
    while e < events {
        let mut less = set;
        sets::remove(&mut less, e);
        match remaining::first_missing(cuts, events, count, root, less, some) {
            Ok(Some(_)) => e = sets::lowest(&set, e + 1),
            Ok(None) => return Some(e),
            Err(_) => unreachable!(),
        }
    }
    None
}

// Checks a set of events to be kept sound, of a lent cut diagram.
pub fn check(
    cuts: &[u32],
    events: usize,
    count: usize,
    root: usize,
    set: [u64; sets::WORDS],
    some: &mut [u32],
) -> Result<Checked, Refusal>
    ensures { Checks events cuts.now count root set (judgement_of result) (cut_of result) some.old some.new }
{
    let m = remaining::first_missing(cuts, events, count, root, set, some)?;
    if let Some(cut) = m {
        return Ok(Checked {
            judgement: Judgement::Misses,
            cut,
        });
    }
    let judgement = match judge_members(cuts, events, count, root, set, some) {
        None => Judgement::Accepts,
        Some(e) => Judgement::Drops(e),
    };
    Ok(Checked {
        judgement,
        cut: sets::empty(),
    })
}

// ---- a set is proposed

// Proposes a set of events to be kept sound, of a lent cut diagram.
pub fn plan(
    cuts: &[u32],
    events: usize,
    count: usize,
    root: usize,
    below: &mut [u64],
    ways: &mut [u64],
) -> Result<[u64; sets::WORDS], Refusal>
    ensures { Proposes events cuts.now count root (number_of result) 0 (words_of result) below.old ways.old below.new ways.new }
{
    let mut counts = [0u64; paper::EVENTS];
    let none = sets::empty();
    remaining::holding(cuts, events, count, root, none, &mut counts, below, ways)?;
    Ok(take_all(cuts, events, count, root, &mut counts, below, ways))
}
