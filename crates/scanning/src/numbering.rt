// The names of all equations of a text, interned line by line.
ghost use Rattle.std.specs.Prelude.{◌∷◌, ◌<◌, length, drop, take};
ghost use Rattle.paper.specs.Bytes.{parts};
ghost use Rattle.paper.specs.Spots.{places_from};
ghost use Rattle.lines.specs.Reading.{name_at, Steps};
ghost use Rattle.names.specs.Interning.{Interned};
ghost use Rattle.scanning.specs.Scanning.{RowAt, Room, Gathers, GathersLine, Lists, Gathered};

use lines::{Kind, line, next_name};
use names::intern;

// How far the text is read, and how many names there are.
#[derive(Clone, Copy)]
pub struct Went {
    pub next: usize,
    pub count: u32,
}

// The place of the name behind that at `i` in a row that stops at `stop`.
pub fn next_in_line(text: &[u8], stop: usize, i: usize, sep: &[u8]) -> usize
    requires { RowAt text.now stop sep.now i }
    ensures { Steps sep.now (take stop text.now) i result }
{
    next_name(&text[..stop], i, sep)
}

// Interns the names of a row.
fn gather_row(
    text: &[u8],
    stop: usize,
    i: usize,
    sep: &[u8],
    heads: &mut [u32],
    next: &mut [u32],
    names: &mut [u32],
    count: u32,
) -> u32
    requires interned { Interned text.now names.old heads.old next.old count }
    requires row_at { RowAt text.now stop sep.now i }
    requires room { Room text.now names.old count i }
    ensures { Gathers text.now names.old count (parts sep.now (drop i (take stop text.now))) (places_from sep.now i (parts sep.now (drop i (take stop text.now)))) names.new heads.new next.new result stop }
{
    let mut c = count;
    let mut j = i;
    while j < stop {
        let n = intern(text, j, heads, next, names, c);
        c = n.count;
        j = next_in_line(text, stop, j, sep);
    }
    c
}

// Interns the names of the equation that begins at `at`.
fn gather_equation(
    text: &[u8],
    at: usize,
    stop: usize,
    i: usize,
    sep: &[u8],
    heads: &mut [u32],
    next: &mut [u32],
    names: &mut [u32],
    count: u32,
) -> u32
    requires interned { Interned text.now names.old heads.old next.old count }
    requires row_at { RowAt text.now stop sep.now i }
    requires room { Room text.now names.old count at }
    requires at_lt_i { at < i }
    ensures { Gathers text.now names.old count (name_at text.now at ∷ parts sep.now (drop i (take stop text.now))) (at ∷ places_from sep.now i (parts sep.now (drop i (take stop text.now)))) names.new heads.new next.new result stop }
{
    let n = intern(text, at, heads, next, names, count);
    gather_row(text, stop, i, sep, heads, next, names, n.count)
}

// Interns the names of the line that begins at `at`, if it is an equation.
fn gather_line(
    text: &[u8],
    at: usize,
    heads: &mut [u32],
    next: &mut [u32],
    names: &mut [u32],
    c: u32,
) -> Went
    requires interned { Interned text.now names.old heads.old next.old c }
    requires room { Room text.now names.old c at }
    requires at_in_bounds { at < length text.now }
    ensures { GathersLine text.now at names.old c names.new heads.new next.new result.count result.next }
{
    let r = line(text, at);
    let stop = r.stop;
    let to = r.next;
    let Some(kind) = r.kind else {
        return Went { next: to, count: c };
    };
    match kind {
        Kind::Chance(_) => Went { next: to, count: c },
        Kind::Or(i) => {
            let n = gather_equation(text, at, stop, i, b" or ", heads, next, names, c);
            Went { next: to, count: n }
        }
        Kind::And(i) => {
            let n = gather_equation(text, at, stop, i, b" and ", heads, next, names, c);
            Went { next: to, count: n }
        }
        Kind::AtLeast(_, i) => {
            let n = gather_equation(text, at, stop, i, b", ", heads, next, names, c);
            Went { next: to, count: n }
        }
    }
}

// Interns the names of all equations of the text: how many there are.
pub fn gather(text: &[u8], heads: &mut [u32], next: &mut [u32], names: &mut [u32]) -> u32
    requires { Lists text.now names.old heads.old next.old }
    ensures { Gathered text.now names.new heads.new next.new result }
{
    heads.fill(0);
    let mut count: u32 = 0;
    let mut at = 0;
    while at < text.len() {
        let w = gather_line(text, at, heads, next, names, count);
        count = w.count;
        at = w.next;
    }
    count
}
