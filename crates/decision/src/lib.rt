// Whether a set of failures fails the root, from the bytes of its listing alone: no tree and no table is needed.
#![tactic(auto)]

ghost use Rattle.std.specs.Prelude.{◌≡◌, ◌<◌, drop};
ghost use Rattle.paper.specs.Limits.{limits};
ghost use Rattle.paper.specs.Refusals.{number_of};
ghost use Rattle.sets.specs.Words.{set_of};
ghost use Rattle.sidebyside.specs.OneCut.{Whole};
ghost use Rattle.decision.specs.Answers.{fails_of, Decides};
ghost use Rattle.decision.specs.Searching.{Covers, Searches};

use paper::refusal::Refusal;
use sidebyside::cut::{first_end, member, next, width};

// Whether event `e` is a member of the set.
fn holds(set: &[u64; sets::WORDS], e: usize) -> bool
    requires { e < limits.events }
    ensures { result ≡ set_of set.now e }
{
    sets::lowest(set, e) == e
}

// Whether every member of the cut that stands at `at` is one of the set.
fn covers(s: &[u8], at: usize, set: &[u64; sets::WORDS]) -> bool
    requires { Whole s.now at }
    ensures { Covers (drop at s.now) (set_of set.now) result }
{
    let mut i = at;
    let mut e = member(s, i);
    while e < paper::EVENTS {
        if !holds(set, e) {
            return false;
        }
        i += width(e);
        e = member(s, i);
    }
    true
}

// Judges a listing to its end, cut by cut, and looks into each cut: whether the set contains one, or none, for the listing has a fault.
fn search(s: &[u8], set: &[u64; sets::WORDS]) -> Option<bool>
    ensures { Searches s.now (set_of set.now) result }
{
    let mut i: usize = 0;
    let mut e = first_end(s);
    let mut found = false;
    while 0 < e {
        let c = covers(s, i, set);
        let f = next(s, i, e);
        i = e;
        e = f;
        found = found | c;
    }
    if i < s.len() {
        return None;
    }
    Some(found)
}

// Whether the set `s` of failed events contains a cut of the listing; a refusal does not say.
pub fn decides(listing: &[u8], events: usize, s: [u64; sets::WORDS]) -> Result<bool, Refusal>
    ensures { Decides listing.now events s (number_of result) 0 (fails_of result) }
{
    let Some(fails) = search(listing, &s) else {
        return Err(Refusal::BadListing);
    };
    if sets::lowest(&s, events) < sets::MOST {
        return Err(Refusal::Beyond);
    }
    Ok(fails)
}
