// Runs listing calls. The input is decimal numbers: how many calls there are, and for each of them the events, the stated nodes, the root,
// 1 from the beginning or 0 after a set, the set's size and its events, the bytes of room, the length of the table and its numbers.
// A line of the output has the number, the cuts, the bytes used, 1 where finished; the last set; the bytes; and how many behind them stayed.
#![tactic(auto)]

ghost use Rattle.std.specs.Prelude.{◌≤◌, ◌≡◌, length};
ghost use Rattle.std.specs.Io.{ReadsAtMost};
ghost use Rattle.sets.specs.Words.{words};

use std::io;
use std::io::Read;

// What the table and the room can hold, and the byte that the room is filled with.
const MOST: usize = 1024;

const FILL: u8 = 0xAA;

// The most bytes of the input.
const INPUT: usize = 65536;

// A number of the input, and the place behind it.
#[derive(Clone, Copy)]
pub struct Taken {
    pub value: usize,
    pub next: usize,
}

// A set of the input, and the place behind it.
#[derive(Clone, Copy)]
pub struct Given {
    pub set: [u64; sets::WORDS],
    pub next: usize,
}

// The place of the first digit from `from` on.
fn skip(text: &[u8], from: usize) -> usize {
    for at in from..text.len() {
        if text[at].is_ascii_digit() {
            return at;
        }
    }
    text.len()
}

// The next number; digits beyond the ninth do not count.
fn number(text: &[u8], from: usize) -> Taken
    ensures { result.value ≤ 999999999 }
{
    let mut v = 0;
    for at in skip(text, from)..text.len() {
        let x = text[at];
        if !x.is_ascii_digit() {
            return Taken { value: v, next: at };
        }
        if v < 100000000 {
            v = v * 10 + usize::from(x - b'0');
        }
    }
    Taken {
        value: v,
        next: text.len(),
    }
}

fn store(table: &mut [u32], i: usize, v: usize)
    requires { v ≤ 999999999 }
{
    if i < table.len() {
        table[i] = v as u32;
    }
}

// Reads `len` numbers into the table: the place behind them.
fn read_table(text: &[u8], from: usize, len: usize, table: &mut [u32]) -> usize {
    let mut at = from;
    for i in 0..len {
        let x = number(text, at);
        store(table, i, x.value);
        at = x.next;
    }
    at
}

// Puts an event in, where the set can hold it.
fn put(set: &mut [u64], e: usize)
    requires { length set.old ≡ words }
{
    if e < sets::MOST {
        sets::add(set, e);
    }
}

// Reads a set of `k` events.
fn read_set(text: &[u8], from: usize, k: usize) -> Given
    ensures { length result.set ≡ words }
{
    let mut set = sets::empty();
    let mut at = from;
    for j in 0..k {
        let x = number(text, at);
        put(&mut set, x.value);
        at = x.next;
    }
    Given { set, next: at }
}

fn say(rt: &impl Print, n: usize) -> io::Result<()> {
    print!(rt; "{n} ")
}

fn show_set(rt: &impl Print, set: &[u64]) -> io::Result<()>
    requires { length set.now ≡ words }
{
    let mut i = sets::lowest(set, 0);
    while i < sets::MOST {
        say(rt, i)?;
        i = sets::lowest(set, i + 1);
    }
    Ok(())
}

fn show_bytes(rt: &impl Print, room: &[u8], used: usize) -> io::Result<()> {
    for x in room.iter().take(used) {
        print!(rt; "{x:02x} ")?;
    }
    Ok(())
}

// How many of the bytes behind those used are as they were.
fn kept(room: &[u8], used: usize) -> usize {
    room.iter().skip(used).filter(|x| **x == FILL).count()
}

// Makes the call and shows its answer.
fn answer(
    rt: &impl Print,
    nodes: &[u32],
    n: usize,
    count: usize,
    root: usize,
    begin: bool,
    set: [u64; sets::WORDS],
    room: &mut [u8],
) -> io::Result<()> {
    let mut number = 0;
    let mut cuts = 0;
    let mut used = 0;
    let mut last = sets::empty();
    let mut finished = false;
    match listing::list(nodes, n, count, root, begin, set, room) {
        Ok(l) => {
            cuts = l.count;
            used = l.used;
            last = l.last;
            finished = l.finished;
        }
        Err(why) => number = why.number(),
    }
    say(rt, usize::from(number))?;
    say(rt, cuts)?;
    say(rt, used)?;
    say(rt, usize::from(finished))?;
    print!(rt; "| ")?;
    show_set(rt, &last)?;
    print!(rt; "| ")?;
    show_bytes(rt, room, used)?;
    println!(rt; "| {}", kept(room, used))
}

// Runs one call: the place behind its numbers.
fn run(rt: &impl Print, text: &[u8], from: usize) -> io::Result<usize> {
    let n = number(text, from);
    let count = number(text, n.next);
    let root = number(text, count.next);
    let begin = number(text, root.next);
    let size = number(text, begin.next);
    let given = read_set(text, size.next, size.value);
    let room = number(text, given.next);
    let len = number(text, room.next);
    let mut table = [0u32; MOST];
    let next = read_table(text, len.next, len.value, &mut table);
    let mut bytes = [FILL; MOST];
    let long = len.value;
    let wide = room.value;
    let set = given.set;
    if MOST < long {
        return Ok(next);
    }
    if MOST < wide {
        return Ok(next);
    }
    answer(
        rt,
        &table[..long],
        n.value,
        count.value,
        root.value,
        begin.value == 1,
        set,
        &mut bytes[..wide],
    )?;
    Ok(next)
}

fn run_all(rt: &impl Print, text: &[u8]) -> io::Result<()> {
    let calls = number(text, 0);
    let mut at = calls.next;
    for _ in 0..calls.value {
        at = run(rt, text, at)?;
    }
    Ok(())
}

// Reads until the buffer is full or the input ends: how many bytes it put at the buffer's start.
fn fill(input: &mut impl Read, buffer: &mut [u8]) -> io::Result<usize>
    ensures { ReadsAtMost result buffer.new }
{
    let mut done = 0;
    while done < buffer.len() {
        let n = input.read(&mut buffer[done..])?;
        if n == 0 {
            break;
        }
        done += n;
    }
    Ok(done)
}

fn main(rt: HostRuntime) -> io::Result<()> {
    let mut text = [0u8; INPUT];
    let len = fill(&mut rt.stdin(), &mut text)?;
    run_all(&rt, &text[..len])
}
