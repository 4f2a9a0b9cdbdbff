// Names as numbers: a name's number is its place among the names met so far, and a name is where it stands in the text.
#![tactic(auto)]

ghost use Rattle.std.specs.Prelude.{◌≡◌, ◌<◌, ◌≤◌, length};
ghost use Rattle.paper.specs.Bytes.{letter_or_digit, same};
ghost use Rattle.lines.specs.Reading.{name_at, Ends};
ghost use Rattle.names.specs.Interning.{First, Interned, Sought, Interns};

use lines::{is_word, name_end};

// The number of a name, and how many names there are.
#[derive(Clone, Copy)]
pub struct Named {
    pub number: u32,
    pub count: u32,
}

pub fn place(x: u32) -> usize
    ensures { result ≡ x }
{
    x as usize
}

// The chain of the name from `i` to `e`.
fn slot(text: &[u8], i: usize, e: usize, slots: usize) -> usize
    requires ends { Ends letter_or_digit text.now i e }
    requires le_slots { 1 ≤ slots }
    ensures { First (name_at text.now i) slots result }
{
    let mut h: u32 = 5381;
    for b in &text[i..e] {
        h = h.wrapping_mul(33).wrapping_add(u32::from(*b));
    }
    h as usize % slots
}

// Whether the name at `a` is the one from `b` to `f`.
fn same_name(text: &[u8], a: usize, b: usize, f: usize) -> bool
    requires a_in_bounds { a ≤ length text.now }
    requires ends { Ends letter_or_digit text.now b f }
    ensures { result ≡ same (name_at text.now a) (name_at text.now b) }
{
    let e = name_end(text, a);
    is_word(text, a, e, &text[b..f])
}

// The number of the name from `at` to `end`, which is in chain `h`; or none.
fn find(
    text: &[u8],
    at: usize,
    end: usize,
    heads: &[u32],
    next: &[u32],
    names: &[u32],
    count: u32,
    h: usize,
) -> Option<u32>
    requires interned { Interned text.now names.now heads.now next.now count }
    requires ends { Ends letter_or_digit text.now at end }
    requires first { First (name_at text.now at) (length heads.now) h }
    ensures { Sought text.now names.now count (name_at text.now at) result }
{
    let mut i = heads[h];
    while 0 < i {
        let k = place(i) - 1;
        let a = place(names[k]);
        if same_name(text, a, at, end) {
            return Some(i - 1);
        }
        i = next[k];
    }
    None
}

// The number of the name at `at`, or none.
pub fn look(
    text: &[u8],
    at: usize,
    heads: &[u32],
    next: &[u32],
    names: &[u32],
    count: u32,
) -> Option<u32>
    requires interned { Interned text.now names.now heads.now next.now count }
    requires at_in_bounds { at ≤ length text.now }
    ensures { Sought text.now names.now count (name_at text.now at) result }
{
    let end = name_end(text, at);
    let h = slot(text, at, end, heads.len());
    find(text, at, end, heads, next, names, count, h)
}

// The number of the name at `at`, which is the next free one where the name is new.
pub fn intern(
    text: &[u8],
    at: usize,
    heads: &mut [u32],
    next: &mut [u32],
    names: &mut [u32],
    count: u32,
) -> Named
    requires interned { Interned text.now names.old heads.old next.old count }
    requires at_in_bounds { (at ≤ length text.now) × (count < length names.old) }
    ensures { Interns text.now names.old count at names.new heads.new next.new result.number result.count }
{
    let end = name_end(text, at);
    let h = slot(text, at, end, heads.len());
    if let Some(number) = find(text, at, end, heads, next, names, count, h) {
        return Named { number, count };
    }
    let k = place(count);
    names[k] = at as u32;
    next[k] = heads[h];
    heads[h] = count + 1;
    Named {
        number: count,
        count: count + 1,
    }
}
