// Two cut listings walked side by side, in one pass: each judged cut by cut, where they first differ, and how many cuts each has alone.
#![tactic(auto)]

pub mod cut; // one cut, and two beside each other

ghost use Rattle.std.specs.Prelude.{◌≡◌, ◌+◌, ◌<◌, Ok};
ghost use Rattle.sidebyside.specs.Sided.{side_answer};
ghost use Rattle.sidebyside.specs.Walking.{Walked, Tailed, BothTailed};
ghost use Rattle.sidebyside.specs.Merging.{Merging, Tallies};
ghost use Rattle.sidebyside.specs.Finding.{Finds, shown, Parted};

use cut::{first_end, next, order};
use std::cmp::Ordering;

// One of the two listings.
#[derive(Clone, Copy)]
pub enum Side {
    Yesterday,
    Today,
}

// The number of an answer, its place, and its side: 0 neither, 1 yesterday, 2 today. The answer: the listing that has a fault, which is number 20, or else the
// one that has the first difference, if there is one.
pub fn number(w: Result<Option<Side>, Side>) -> u8
    ensures { result ≡ (side_answer w).number }
{
    if w.is_ok() { 0 } else { 20 }
}

pub fn place(w: Result<Option<Side>, Side>) -> usize
    ensures { result ≡ (side_answer w).place }
{
    0
}

pub fn listing(w: Result<Option<Side>, Side>) -> u8
    ensures { result ≡ (side_answer w).side }
{
    match w {
        Ok(None) => 0,
        Ok(Some(Side::Yesterday)) | Err(Side::Yesterday) => 1,
        Ok(Some(Side::Today)) | Err(Side::Today) => 2,
    }
}

// Judges what is left from `at` on, where a cut stands that ends at `end`, and counts its cuts; none: a fault.
fn rest(s: &[u8], at: usize, end: usize) -> Option<usize>
    requires { Walked s.now at end }
    ensures { Tailed s.now at result }
{
    let mut i = at;
    let mut e = end;
    let mut n: usize = 0;
    while 0 < e {
        let f = next(s, i, e);
        i = e;
        e = f;
        n += 1;
    }
    if i < s.len() {
        return None;
    }
    Some(n)
}

// Judges and counts what is left of both: yesterday's fault comes first.
fn rests(y: &[u8], i: usize, e: usize, t: &[u8], j: usize, f: usize) -> Result<(usize, usize), Side>
    requires { Walked y.now i e × Walked t.now j f }
    ensures { BothTailed y.now i t.now j result }
{
    let Some(n) = rest(y, i, e) else {
        return Err(Side::Yesterday);
    };
    let Some(m) = rest(t, j, f) else {
        return Err(Side::Today);
    };
    Ok((n, m))
}

// The first cut that stands in one listing only: whose it is, and the places where it starts and ends.
#[derive(Clone, Copy)]
pub struct Difference {
    pub side: Side,
    pub start: usize,
    pub end: usize,
}

// Where two listings part: the cuts at `at`, their ends, and what that shows if both are good.
#[derive(Clone, Copy)]
pub struct Parting {
    pub at: usize,
    pub end: usize,
    pub stop: usize,
    pub found: Option<Difference>,
}

// Of the listing of this side: its cut from `start` to `end`.
fn shown(side: Side, start: usize, end: usize) -> Option<Difference>
    ensures { result ≡ shown side start end }
{
    Some(Difference { side, start, end })
}

// Walks along both listings as long as their cuts are the same.
fn part(y: &[u8], t: &[u8]) -> Parting
    ensures { Parted y.now t.now result.at result.end result.stop result.found }
{
    let mut at: usize = 0;
    let mut end = first_end(y);
    let mut stop = first_end(t);
    while 0 < end {
        if stop == 0 {
            return Parting {
                at,
                end,
                stop,
                found: shown(Side::Yesterday, at, end),
            };
        }
        match order(y, at, t, at) {
            Ordering::Less => {
                return Parting {
                    at,
                    end,
                    stop,
                    found: shown(Side::Yesterday, at, end),
                };
            }
            Ordering::Greater => {
                return Parting {
                    at,
                    end,
                    stop,
                    found: shown(Side::Today, at, stop),
                };
            }
            Ordering::Equal => {
                let e = next(y, at, end);
                stop = next(t, at, stop);
                at = end;
                end = e;
            }
        }
    }
    if stop == 0 {
        return Parting {
            at,
            end,
            stop,
            found: None,
        };
    }
    Parting {
        at,
        end,
        stop,
        found: shown(Side::Today, at, stop),
    }
}

// The first cut that stands in one listing and not in the other, if there is one; both are judged whole.
pub fn find(y: &[u8], t: &[u8]) -> Result<Option<Difference>, Side>
    ensures { Finds y.now t.now result }
{
    let p = part(y, t);
    rests(y, p.at, p.end, t, p.at, p.stop)?;
    Ok(p.found)
}

// How far two listings are compared: the cuts that stand next, and the numbers gone, new and kept up to there.
#[derive(Clone, Copy)]
pub struct Progress {
    pub i: usize,
    pub e: usize,
    pub j: usize,
    pub f: usize,
    pub gone: usize,
    pub new: usize,
    pub kept: usize,
}

// One cut more: the earlier of the two that stand next, or both where they are the same.
fn step(y: &[u8], t: &[u8], p: Progress) -> Progress
    requires merging { Merging y.now t.now p.i p.e p.j p.f p.gone p.new p.kept }
    requires e_nonzero { (0 < p.e) × (0 < p.f) }
    ensures merging_2 { Merging y.now t.now result.i result.e result.j result.f result.gone result.new result.kept }
    ensures on { p.i + p.j < result.i + result.j }
{
    match order(y, p.i, t, p.j) {
        Ordering::Less => Progress {
            i: p.e,
            e: next(y, p.i, p.e),
            gone: p.gone + 1,
            ..p
        },
        Ordering::Greater => Progress {
            j: p.f,
            f: next(t, p.j, p.f),
            new: p.new + 1,
            ..p
        },
        Ordering::Equal => Progress {
            i: p.e,
            e: next(y, p.i, p.e),
            j: p.f,
            f: next(t, p.j, p.f),
            kept: p.kept + 1,
            ..p
        },
    }
}

// Compares two listings up to the end, or a fault, of one of them.
fn merge(y: &[u8], t: &[u8]) -> Progress
    ensures merging { Merging y.now t.now result.i result.e result.j result.f result.gone result.new result.kept }
    ensures over { 0 < result.e → result.f ≡ 0 }
{
    let mut r = Progress {
        i: 0,
        e: first_end(y),
        j: 0,
        f: first_end(t),
        gone: 0,
        new: 0,
        kept: 0,
    };
    while 0 < r.e {
        if r.f == 0 {
            return r;
        }
        r = step(y, t, r);
    }
    r
}

// The numbers of cuts gone, new and kept.
#[derive(Clone, Copy)]
pub struct Numbers {
    pub gone: usize,
    pub new: usize,
    pub kept: usize,
}

// The whole comparison, or whose fault refuses.
pub fn tally(y: &[u8], t: &[u8]) -> Result<Numbers, Side>
    ensures { Tallies y.now t.now result }
{
    let m = merge(y, t);
    let (a, b) = rests(y, m.i, m.e, t, m.j, m.f)?;
    Ok(Numbers {
        gone: m.gone + a,
        new: m.new + b,
        kept: m.kept,
    })
}
