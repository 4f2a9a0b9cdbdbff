// One cut of a listing, and two beside each other. A member's record is read in `rank` and `member`, and `width` has its length.
ghost use Rattle.std.specs.Prelude.{◌≡◌, [], ◌∷◌, ◌+◌, ◌*◌, ◌≤◌, ◌<◌, length, get_or, drop};
ghost use Rattle.paper.specs.Listing.{member_bytes};
ghost use Rattle.sidebyside.specs.Members.{RisingFrom};
ghost use Rattle.sidebyside.specs.OneCut.{RisesAt, Whole, Ends, Ranks, Forks, Follows, Orders};

use std::cmp::Ordering;

// The kinds of a listing's records: a member with one byte of event, the end of a cut, and a member with two bytes.
const MEMBER: u8 = 0x21;

const END: u8 = 0x22;

const WIDE: u8 = 0x23;

// The first event whose member has two.
const FIRST_WIDE: usize = paper::WIDE_FROM as usize;

// The number in two bytes, the low one first.
fn wide_number(low: u8, high: u8) -> usize
    ensures { result ≡ low + 256 * high }
{
    usize::from(low) + 256 * usize::from(high)
}

// The rank of what stands at `i`, a record of kind 23: such a member's number is one that takes two bytes.
fn wide_rank(s: &[u8], i: usize) -> usize
    requires { (i < length s.now) × (get_or s.now i 0 ≡ 0x23) }
    ensures { Ranks s.now i result }
{
    if s.len() - i < 3 {
        return paper::EVENTS;
    }
    let e = wide_number(s[i + 1], s[i + 2]);
    if e < FIRST_WIDE {
        return paper::EVENTS;
    }
    if paper::EVENTS <= e {
        return paper::EVENTS;
    }
    e
}

// The rank of what stands at `i`: a member has its number, and all else, a cut's end too, comes behind every member.
fn rank(s: &[u8], i: usize) -> usize
    requires { i ≤ length s.now }
    ensures { Ranks s.now i result }
{
    if s.len() - i < 2 {
        return paper::EVENTS;
    }
    if s[i] == MEMBER {
        return usize::from(s[i + 1]);
    }
    if s[i] == WIDE {
        return wide_rank(s, i);
    }
    paper::EVENTS
}

// The same where a whole cut is known to stand: nothing is judged.
pub fn member(s: &[u8], i: usize) -> usize
    requires { Whole s.now i }
    ensures { Ranks s.now i result }
{
    if s[i] == MEMBER {
        return usize::from(s[i + 1]);
    }
    if s[i] == WIDE {
        return wide_number(s[i + 1], s[i + 2]);
    }
    paper::EVENTS
}

// The bytes of a member's record.
pub fn width(e: usize) -> usize
    ensures { result ≡ length (member_bytes (e ∷ [])) }
{
    if FIRST_WIDE <= e {
        return 3;
    }
    2
}

// Where two cuts part: the bytes of the members that they share, and the ranks of what stands behind these.
#[derive(Clone, Copy)]
pub struct Fork {
    pub bytes: usize,
    pub first: usize,
    pub second: usize,
}

// The members in which the cut at `from` and what stands at `start` agree.
fn common(a: &[u8], from: usize, b: &[u8], start: usize) -> Fork
    requires { Whole a.now from × (start ≤ length b.now) }
    ensures { Forks a.now from b.now start result.bytes result.first result.second }
{
    let mut bytes: usize = 0;
    loop {
        let first = member(a, from + bytes);
        let second = rank(b, start + bytes);
        if first != second || paper::EVENTS <= first {
            return Fork {
                bytes,
                first,
                second,
            };
        }
        bytes += width(first);
    }
}

// The end of the cut that stands at `at`, its members from `low` on and rising, the first of this rank; 0 where none stands there.
fn cut_end(s: &[u8], at: usize, first: usize, low: usize) -> usize
    requires { (at ≤ length s.now) × Ranks s.now at first }
    ensures { Ends (RisingFrom low) s.now at result }
{
    let mut i = at;
    let mut e = first;
    let mut least = low;
    while e < paper::EVENTS {
        if e < least {
            return 0;
        }
        least = e + 1;
        i += width(e);
        e = rank(s, i);
    }
    if i == s.len() {
        return 0;
    }
    if s[i] == END {
        return i + 1;
    }
    0
}

// The end of a listing's first cut; 0 where it begins with none.
pub fn first_end(s: &[u8]) -> usize
    ensures { Ends (RisingFrom 0) s.now 0 result }
{
    let first = rank(s, 0);
    cut_end(s, 0, first, 0)
}

// The end of the cut that stands at `at` and comes behind the one at `last`, which ends there; 0 where none such stands there.
pub fn next(s: &[u8], last: usize, at: usize) -> usize
    requires { RisesAt s.now last at }
    ensures { Follows s.now last at result }
{
    let f = common(s, last, s, at);
    if f.first == paper::EVENTS {
        return 0;
    }
    cut_end(s, at + f.bytes, f.second, f.first + 1)
}

// The order of two cuts.
pub fn order(a: &[u8], from: usize, b: &[u8], start: usize) -> Ordering
    requires { Whole a.now from × Whole b.now start }
    ensures { Orders (drop from a.now) (drop start b.now) result }
{
    let mut bytes: usize = 0;
    loop {
        let first = member(a, from + bytes);
        let second = member(b, start + bytes);
        if first != second || paper::EVENTS <= first {
            return first.cmp(&second);
        }
        bytes += width(first);
    }
}
