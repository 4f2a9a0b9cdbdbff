// Pieces of a line, each laid behind the bytes that the text has so far: written where the room has place for them, counted anyway.
// What the functions require keeps the count below a billion, so that it never overflows.
ghost use Rattle.std.specs.Prelude.{◌++◌, ◌+◌, ◌≤◌, length, drop};
ghost use Rattle.paper.specs.Spelling.{join_all};
ghost use Rattle.paper.specs.Exporting.{decimal};
ghost use Rattle.exporting.specs.Laying.{Laid, name_of, names_of, tail_of, codes, Inputs};

use decimals::{DIGITS, digits, put};
use paper::{FAILED_FROM, GATES_FROM, IN_ALL, SOUND_FROM};

// Lays some bytes.
pub fn lay(room: &mut [u8], at: usize, s: &[u8]) -> usize
    requires { at + length s.now ≤ 1000000000 }
    ensures { Laid room.old at s.now room.new result }
{
    if at + s.len() <= room.len() {
        return put(room, at, s);
    }
    at + s.len()
}

// Lays a word and a number in decimal.
pub fn lay_number(room: &mut [u8], at: usize, word: &[u8], n: u64) -> usize
    requires { at + length word.now + 20 ≤ 1000000000 }
    ensures { Laid room.old at (word.now ++ decimal n) room.new result × (result ≤ at + length word.now + 20) }
{
    let a = lay(room, at, word);
    let mut row = [0u8; DIGITS];
    let from = digits(n, &mut row);
    lay(room, a, &row[from..])
}

// Lays the name of an input: an event's, a gate's, or that of the event which is forced.
pub fn lay_input(room: &mut [u8], at: usize, code: u16) -> usize
    requires { at + 21 ≤ 1000000000 }
    ensures { Laid room.old at (name_of code) room.new result × (result ≤ at + 21) }
{
    if code < GATES_FROM {
        return lay_number(room, at, b"e", code as u64);
    }
    if code < FAILED_FROM {
        return lay_number(room, at, b"g", (code - GATES_FROM) as u64);
    }
    if code < SOUND_FROM {
        return lay_number(room, at, b"e", (code - FAILED_FROM) as u64);
    }
    lay_number(room, at, b"e", (code - SOUND_FROM) as u64)
}

// Lays a separator and the name of an input.
fn lay_next(room: &mut [u8], at: usize, sep: &[u8], code: u16) -> usize
    requires { at + length sep.now + 21 ≤ 1000000000 }
    ensures { Laid room.old at (sep.now ++ name_of code) room.new result × (result ≤ at + length sep.now + 21) }
{
    let a = lay(room, at, sep);
    lay_input(room, a, code)
}

// Lays the names of n inputs from `first` on but the first name, each behind a separator.
fn lay_tail(
    room: &mut [u8],
    at: usize,
    sep: &[u8],
    inputs: &[u16; IN_ALL],
    first: usize,
    n: usize,
) -> usize
    requires { Inputs inputs.now first n × (length sep.now ≤ 5) × (at + 1900 ≤ 1000000000) }
    ensures { Laid room.old at (tail_of sep.now (drop 1 (codes inputs.now first n))) room.new result × (result ≤ at + 1900) }
{
    let mut end = at;
    for i in 1..n {
        end = lay_next(room, end, sep, inputs[first + i]);
    }
    end
}

// Lays the names of n inputs from `first` on, with a separator between each and the next.
pub fn lay_row(
    room: &mut [u8],
    at: usize,
    sep: &[u8],
    inputs: &[u16; IN_ALL],
    first: usize,
    n: usize,
) -> usize
    requires { Inputs inputs.now first n × (length sep.now ≤ 5) × (at + 2000 ≤ 1000000000) }
    ensures { Laid room.old at (join_all sep.now (names_of inputs.now first n)) room.new result × (result ≤ at + 2000) }
{
    let a = lay_input(room, at, inputs[first]);
    lay_tail(room, a, sep, inputs, first, n)
}
