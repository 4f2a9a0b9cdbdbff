// Reads trees that are given in hexadecimal, one to a line, and says what each is answered; then changes a tree in memory
// in ways that no bytes could, and says what writing it is answered. A line that starts with # is copied.
#![tactic(auto)]

mod hexadecimal; // the bytes that a line of text stands for
mod changes; // a tree changed in memory, and written

ghost use Rattle.std.specs.Prelude.{◌≤◌, ◌<◌, length, IfOk};
ghost use Rattle.std.specs.Io.{ReadsAtMost};

use hexadecimal::parse;
use rules::Refusal;
use std::io;
use std::io::Read;

// The most bytes of a line's tree: more than any reading needs.
const VECTOR: usize = 28672;

// The most bytes of the input.
const INPUT: usize = 65536;

// Says an answer: its number and its place.
pub fn say<T>(rt: &impl Print, a: &Result<T, Refusal>) -> io::Result<()> {
    print!(rt; "{} at {}", rules::number(a), rules::place(a))
}

// Reads a tree, and writes it back where it is accepted.
fn report(rt: &impl Print, bytes: &[u8]) -> io::Result<()> {
    let r = records::read(bytes);
    say(rt, &r)?;
    if let Ok(t) = r {
        let mut room = [0u8; VECTOR];
        let w = writing::write(t, &mut room);
        print!(rt;
            ", {} events, {} gates, written back: ",
            t.event_count, t.gate_count
        )?;
        say(rt, &w)?;
        if w.is_ok_and(|n| n == bytes.len()) && room.starts_with(bytes) {
            print!(rt; ", the same bytes")?;
        }
    }
    println!(rt;)
}

// The line's tree.
fn vector(rt: &impl Print, line: &[u8]) -> io::Result<()> {
    let mut bytes = [0u8; VECTOR];
    let n = parse(line, &mut bytes);
    report(rt, &bytes[..n])
}

// Where the line that starts at `at` ends.
fn line_end(text: &[u8], at: usize) -> usize
    requires { at ≤ length text.now }
    ensures { (at ≤ result) × (result ≤ length text.now) }
{
    let rest = text[at..].iter().position(|b| *b == b'\n');
    rest.map_or(text.len(), |i| at + i)
}

// The line that starts at `at`; answers where the next one does.
fn line(rt: &impl Print, text: &[u8], at: usize) -> io::Result<usize>
    requires { at < length text.now }
    ensures { IfOk result (λ next. at < next) }
{
    let end = line_end(text, at);
    if text[at] == b'#' {
        rt.write_all(&text[at..end])?;
        println!(rt;)?;
    } else {
        vector(rt, &text[at..end])?;
    }
    Ok(end + 1)
}

fn lines(rt: &impl Print, text: &[u8]) -> io::Result<()> {
    let mut at: usize = 0;
    while at < text.len() {
        at = line(rt, text, at)?;
    }
    Ok(())
}

// Reads until the buffer is full or the input ends: how many bytes it put at the buffer's start.
fn fill(input: &mut impl Read, buffer: &mut [u8]) -> io::Result<usize>
    ensures { ReadsAtMost result buffer.new }
{
    let mut done = 0;
    while done < buffer.len() {
        let n = input.read(&mut buffer[done..])?;
        if n == 0 {
            break;
        }
        done += n;
    }
    Ok(done)
}

fn main(rt: HostRuntime) -> io::Result<()> {
    let mut text = [0u8; INPUT];
    let n = fill(&mut rt.stdin(), &mut text)?;
    lines(&rt, &text[..n])?;
    changes::all(&rt)
}
