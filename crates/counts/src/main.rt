// Analyses trees and says what each needs, how many cuts it has and its top's bracket; then what tables with just enough room are answered, and
// tables with room for a node or a cut node less. All memory comes dirty.
#![tactic(auto)]

ghost use Rattle.std.specs.Prelude.{◌≡◌, ◌%◌, ◌^◌, ◌≤◌, true, length, Ok};
ghost use Rattle.std.specs.Io.{ReadsAtMost};
ghost use Rattle.paper.specs.Cuts.{sets_of};
ghost use Rattle.tables.specs.Table.{den};
ghost use Rattle.tables.specs.Lent.{Lent};
ghost use Rattle.memory.specs.Analysis.{analysis_of};
ghost use Rattle.followup.specs.Tops.{Held};

use memory::Tables;
use records::Tree;
use std::io::Read;
use std::rt::Files;
use std::{fs, io};

// The largest tables have room for 20,000 nodes.
const NODES: usize = 20000;

const TABLE: usize = 60000;

const AREA: usize = 20002;

const MEMO: usize = 65536;

fn say(rt: &impl Print, word: &[u8], n: u64) -> io::Result<()> {
    rt.write_all(word)?;
    rt.print(n)
}

// How many cuts a cut diagram has, room by room; the sum wraps at 2^64.
fn count_cuts(cuts: &[u32], events: usize, count: usize, root: usize) -> u64
    requires { Lent true events cuts.now count root }
    ensures { result ≡ length (sets_of (den cuts.now root)) % 2 ^ 64 }
{
    let mut room = [0u8; MEMO];
    let mut begin = true;
    let mut s = sets::empty();
    let mut total: u64 = 0;
    loop {
        let r = followup::next_room(cuts, events, count, root, begin, s, &mut room);
        total = total.wrapping_add(r.count as u64);
        if r.finished {
            return total;
        }
        begin = false;
        s = r.last;
    }
}

// Says what the tables of a done analysis hold; the cuts are counted where they are few enough to be listed.
fn report(
    rt: &impl Print,
    tree: Tree,
    a: Tables,
    nodes: &[u32; TABLE],
    cuts: &[u32; TABLE],
    lows: &mut [u32; AREA],
    highs: &mut [u32; AREA],
    listed: bool,
) -> io::Result<()>
    requires { Held tree nodes.now cuts.now (analysis_of (Ok a)) }
{
    say(rt, b": nodes ", a.nodes as u64)?;
    say(rt, b", cut nodes ", a.cut_nodes as u64)?;
    if listed {
        let n = count_cuts(cuts, tree.event_count, a.cut_nodes, a.cut_root);
        say(rt, b", cuts ", n)?;
    }
    let ends = followup::top(tree, nodes, a.nodes, a.root, lows, highs);
    say(rt, b", top ", ends.low)?;
    say(rt, b" ", ends.high)
}

// The number that tables with so much room are answered.
fn answered(bytes: &[u8], room: usize, cut_room: usize) -> u8
    requires { (room ≤ 20000) × (cut_room ≤ 20000) }
{
    let mut nodes = [7u32; TABLE];
    let mut cuts = [7u32; TABLE];
    let mut gates = [7u32; paper::GATES];
    let mut added = [7u32; paper::GATES];
    let mut memo = [7u32; MEMO];
    let mut heads = [7u32; AREA];
    let mut next = [7u32; AREA];
    let mut marks = [7u32; AREA];
    let mut own = [7u32; AREA];
    let n = 3 * room;
    let m = 3 * cut_room;
    match analyser::analyse(
        bytes,
        &mut nodes[..n],
        &mut cuts[..m],
        &mut gates,
        &mut added,
        &mut memo,
        &mut heads,
        &mut next,
        &mut marks,
        &mut own,
    ) {
        Ok(_) => 0,
        Err(refused) => refused.why.number(),
    }
}

// Says what tables with just enough room are answered, with room for a node less, and for a cut node less.
fn say_rooms(rt: &impl Print, bytes: &[u8], nodes: usize, cut_nodes: usize) -> io::Result<()>
    requires { (nodes ≤ 20000) × (cut_nodes ≤ 20000) }
{
    say(
        rt,
        b"; just enough: ",
        u64::from(answered(bytes, nodes, cut_nodes)),
    )?;
    if 0 < nodes {
        say(
            rt,
            b", a node less: ",
            u64::from(answered(bytes, nodes - 1, cut_nodes)),
        )?;
    }
    if 0 < cut_nodes {
        say(
            rt,
            b", a cut node less: ",
            u64::from(answered(bytes, nodes, cut_nodes - 1)),
        )?;
    }
    Ok(())
}

// Analyses a tree in the largest tables.
fn analysed(rt: &impl Print, bytes: &[u8], listed: bool) -> io::Result<()> {
    let mut nodes = [7u32; TABLE];
    let mut cuts = [7u32; TABLE];
    let mut gates = [7u32; paper::GATES];
    let mut added = [7u32; paper::GATES];
    let mut memo = [7u32; MEMO];
    let mut heads = [7u32; AREA];
    let mut next = [7u32; AREA];
    let mut marks = [7u32; AREA];
    let mut own = [7u32; AREA];
    let a = match analyser::analyse(
        bytes, &mut nodes, &mut cuts, &mut gates, &mut added, &mut memo, &mut heads, &mut next,
        &mut marks, &mut own,
    ) {
        Ok(a) => a,
        Err(refused) => return say(rt, b": refused ", u64::from(refused.why.number())),
    };
    let Ok(tree) = analyser::read(bytes) else {
        unreachable!()
    };
    report(rt, tree, a, &nodes, &cuts, &mut heads, &mut next, listed)?;
    say_rooms(rt, bytes, a.nodes, a.cut_nodes)
}

// Reads until the buffer is full or the input ends: how many bytes it put at the buffer's start.
// In each program: no crate that the programs share reads input.
fn fill(input: &mut impl Read, buffer: &mut [u8]) -> io::Result<usize>
    ensures { ReadsAtMost result buffer.new }
{
    let mut done = 0;
    while done < buffer.len() {
        let n = input.read(&mut buffer[done..])?;
        if n == 0 {
            break;
        }
        done += n;
    }
    Ok(done)
}

// The tree of that file.
fn show(rt: &(impl Files + Print), name: &str, listed: bool) -> io::Result<()> {
    let mut bytes = [0u8; paper::BYTES];
    let n = fill(&mut fs::open(rt, name)?, &mut bytes)?;
    print!(rt; "{name}")?;
    analysed(rt, &bytes[..n], listed)?;
    println!(rt;)
}

// 32_of_64 and and_of_63_ors have more cuts than can be listed.
fn main(rt: HostRuntime) -> io::Result<()> {
    show(&rt, "case1", true)?;
    show(&rt, "case4", true)?;
    show(&rt, "case5", true)?;
    show(&rt, "one_input", true)?;
    show(&rt, "twice", true)?;
    show(&rt, "one_function", true)?;
    show(&rt, "and_of_3", true)?;
    show(&rt, "3_of_3", true)?;
    show(&rt, "or_of_3", true)?;
    show(&rt, "1_of_3", true)?;
    show(&rt, "2_of_3", true)?;
    show(&rt, "2_of_3_reversed", true)?;
    show(&rt, "and_of_64", true)?;
    show(&rt, "or_of_64", true)?;
    show(&rt, "32_of_64", false)?;
    show(&rt, "and_of_63_ors", false)?;
    show(&rt, "european1", true)
}
