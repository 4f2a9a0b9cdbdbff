// The program's lines: words and numbers, put into an array that the caller lends.
#![tactic(auto)]

pub mod cuts; // cuts.rt: the lines of the cuts

ghost use Rattle.std.specs.Prelude.{◌+◌, ◌≤◌, length};
ghost use Rattle.paper.specs.Exporting.{decimal};
ghost use Rattle.decimals.specs.Places.{Put};
ghost use Rattle.text.specs.Lines.{line_of, pair_of, refusal, head, top};
ghost use Rattle.text.specs.Places.{Front};

use decimals::{DIGITS, digits, put};

// The head, a refusal and the top each fit into so many bytes.
pub const ROOM: usize = 128;

// Puts a number in decimal.
pub fn put_number(text: &mut [u8], at: usize, n: u64) -> usize
    requires { at + 20 ≤ length text.old }
    ensures { Put text.old at (decimal n) text.new result }
{
    let mut row = [0u8; DIGITS];
    let from = digits(n, &mut row);
    put(text, at, &row[from..])
}

// Puts a word, a number and the line's end.
fn put_line(text: &mut [u8], at: usize, word: &[u8], n: u64) -> usize
    requires { at + length word.now + 21 ≤ length text.old }
    ensures { Put text.old at (line_of word.now n) text.new result }
{
    let a = put(text, at, word);
    let b = put_number(text, a, n);
    put(text, b, b"\n")
}

// Puts a word and a number, twice, and the line's end.
fn put_pair(text: &mut [u8], word: &[u8], a: u64, between: &[u8], b: u64) -> usize
    requires { length word.now + length between.now + 41 ≤ length text.old }
    ensures { Put text.old 0 (pair_of word.now a between.now b) text.new result }
{
    let at = put(text, 0, word);
    let next = put_number(text, at, a);
    let then = put(text, next, between);
    let last = put_number(text, then, b);
    put(text, last, b"\n")
}

// The line of a refusal.
pub fn refusal(text: &mut [u8; ROOM], number: u8, place: usize) -> usize
    ensures { Front result text.new (refusal number place) }
{
    put_pair(text, b"refused ", u64::from(number), b" at ", place as u64)
}

// The lines before the cuts.
pub fn head(text: &mut [u8; ROOM], events: usize, gates: usize, nodes: usize) -> usize
    ensures { Front result text.new (head events gates nodes) }
{
    let a = put_line(text, 0, b"events ", events as u64);
    let b = put_line(text, a, b"gates ", gates as u64);
    let c = put_line(text, b, b"nodes ", nodes as u64);
    put(text, c, b"cuts\n")
}

// The line behind the cuts.
pub fn top(text: &mut [u8; ROOM], low: u64, high: u64) -> usize
    ensures { Front result text.new (top low high) }
{
    put_pair(text, b"top ", low, b" ", high)
}
