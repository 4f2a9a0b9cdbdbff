// Runs the bracket on tables written by hand, with work areas that come dirty, and writes for each the answer's number, its two ends, and whether
// the work areas were left zero or as they came.
#![tactic(auto)]

use std::io;

// Whether each number of a work area is `v`.
fn each_is(work: &[u32], v: u32) -> bool {
    work.iter().all(|x| *x == v)
}

fn show(
    rt: &impl Print,
    name: &[u8],
    nodes: &[u32],
    n: usize,
    count: usize,
    root: usize,
    chances: &[u32],
) -> io::Result<()> {
    let mut lows = [7u32; 16];
    let mut highs = [7u32; 16];
    let r = bracket::bracket(nodes, n, count, root, chances, &mut lows, &mut highs);
    rt.write_all(name)?;
    match r {
        Ok(ends) => print!(rt; ": 0 {} {}", ends.low, ends.high)?,
        Err(why) => print!(rt; ": {} 0 0", why.number())?,
    }
    if each_is(&lows, 0) && each_is(&highs, 0) {
        print!(rt; " zero")?;
    }
    if each_is(&lows, 7) && each_is(&highs, 7) {
        print!(rt; " kept")?;
    }
    println!(rt;)
}

// The worked cases of the rules.
fn cases(rt: &impl Print) -> io::Result<()> {
    let tenths = [100000000u32, 100000000, 100000000];
    let either = [0u32, 1, 0, 1, 1, 0, 0, 3, 0, 2, 1, 0, 1, 5, 0, 0, 3, 6];
    show(rt, b"case 1", &either, 3, 6, 7, &tenths)?;
    let absorbed = [0u32, 1, 0, 1, 1, 0, 0, 3, 0];
    show(rt, b"case 5", &absorbed, 2, 3, 2, &tenths)?;
    let two_of_three = [0u32, 1, 0, 1, 1, 0, 2, 1, 0, 1, 1, 4, 1, 4, 0, 0, 5, 6];
    show(rt, b"case 6", &two_of_three, 3, 6, 7, &tenths)?;
    let both = [1u32, 1, 0, 0, 2, 0];
    show(rt, b"case 8", &both, 2, 2, 3, &[1u32, 1])
}

// Chances 0 and D.
fn certainties(rt: &impl Print) -> io::Result<()> {
    let either = [2u32, 1, 0, 1, 2, 0, 1, 1, 0, 0, 4, 3];
    show(rt, b"never", &either, 3, 4, 5, &[0u32, 0, 0])?;
    let all = [1000000000u32, 1000000000, 1000000000];
    show(rt, b"always", &either, 3, 4, 5, &all)?;
    let two = [0u32, 1000000000, 1000000000];
    show(rt, b"without event 0", &either, 3, 4, 5, &two)?;
    let mixed = [333333333u32, 1000000000, 1];
    show(rt, b"with event 1", &either, 3, 4, 5, &mixed)
}

// The node vector of document 003, figure 8, which is not monotone.
fn figure_8(rt: &impl Print) -> io::Result<()> {
    let nodes = [
        4u32, 0, 1, 3, 2, 1, 3, 0, 1, 2, 3, 1, 2, 4, 3, 1, 4, 6, 1, 6, 5, 0, 7, 8,
    ];
    let halves = [500000000u32, 500000000, 500000000, 500000000, 500000000];
    show(rt, b"figure 8, halves", &nodes, 5, 8, 9, &halves)?;
    let thirds = [333333333u32, 333333333, 333333333, 333333333, 333333333];
    show(rt, b"figure 8, thirds", &nodes, 5, 8, 9, &thirds)?;
    let uneven = [1u32, 2, 333333333, 999999999, 5];
    show(rt, b"figure 8, node 6", &nodes, 5, 8, 6, &uneven)?;
    show(rt, b"figure 8, leaf 1", &nodes, 5, 8, 1, &uneven)
}

// Diagrams that no tree builds.
fn other_diagrams(rt: &impl Print) -> io::Result<()> {
    let empty = [0u32; 0];
    show(rt, b"leaf 0", &empty, 1, 0, 0, &[5u32])?;
    show(rt, b"leaf 1", &empty, 2, 0, 1, &[5u32, 6])?;
    show(
        rt,
        b"equal nodes",
        &[1u32, 1, 0, 1, 1, 0, 0, 2, 3],
        2,
        3,
        4,
        &[333333333u32, 123456789],
    )?;
    show(
        rt,
        b"behind the count",
        &[0u32, 1, 0, 9, 9, 9],
        1,
        1,
        2,
        &[123456789u32, 4000000000],
    )?;
    show(rt, b"full areas", &[0u32; 48], 1, 0, 1, &[5u32])
}

// Number 12: counts and lengths.
fn bad_counts(rt: &impl Print) -> io::Result<()> {
    let one = [0u32, 1, 0];
    show(rt, b"no event", &one, 0, 1, 2, &[5u32])?;
    show(rt, b"1025 events", &one, 1025, 1, 2, &[5u32])?;
    show(
        rt,
        b"no table of threes",
        &[0u32, 1, 0, 0],
        1,
        1,
        2,
        &[5u32],
    )?;
    show(rt, b"count too high", &one, 1, 2, 2, &[5u32])?;
    show(
        rt,
        b"count beyond counting",
        &one,
        1,
        18446744073709551615,
        2,
        &[5u32],
    )?;
    show(rt, b"root too high", &one, 1, 1, 3, &[5u32])
}

// Number 12: nodes.
fn bad_nodes(rt: &impl Print) -> io::Result<()> {
    show(rt, b"event too high", &[1u32, 1, 0], 1, 1, 2, &[5u32])?;
    show(rt, b"branch own number", &[0u32, 2, 0], 1, 1, 2, &[5u32])?;
    show(
        rt,
        b"branch higher",
        &[0u32, 1, 3, 1, 1, 0],
        2,
        2,
        2,
        &[5u32, 5],
    )?;
    show(
        rt,
        b"event repeated",
        &[0u32, 1, 0, 0, 2, 0],
        2,
        2,
        3,
        &[5u32, 5],
    )?;
    show(rt, b"equal branches", &[0u32, 1, 1], 1, 1, 2, &[5u32])?;
    show(
        rt,
        b"unreached fault",
        &[0u32, 1, 0, 0, 1, 1],
        1,
        2,
        2,
        &[5u32],
    )?;
    show(
        rt,
        b"fault under a leaf root",
        &[0u32, 1, 1],
        1,
        1,
        0,
        &[5u32],
    )
}

// Numbers 9 and 7, and which comes first.
fn refusals(rt: &impl Print) -> io::Result<()> {
    let one = [0u32, 1, 0];
    show(rt, b"no chance for event 1", &one, 2, 1, 2, &[5u32])?;
    show(
        rt,
        b"areas below the capacity",
        &[0u32; 51],
        1,
        0,
        1,
        &[5u32],
    )?;
    show(rt, b"chance above D", &one, 1, 1, 2, &[1000000001u32])?;
    show(
        rt,
        b"above D, event in no node",
        &one,
        2,
        1,
        2,
        &[5u32, 1000000001],
    )?;
    show(rt, b"above D, leaf root", &one, 1, 0, 0, &[1000000001u32])?;
    show(
        rt,
        b"above D beyond the events",
        &one,
        1,
        1,
        2,
        &[5u32, 1000000001],
    )?;
    show(
        rt,
        b"12 before 9 and 7",
        &[0u32, 1, 1],
        2,
        1,
        2,
        &[1000000001u32],
    )?;
    show(rt, b"9 before 7", &one, 2, 1, 2, &[1000000001u32])
}

fn main(rt: HostRuntime) -> io::Result<()> {
    cases(&rt)?;
    certainties(&rt)?;
    figure_8(&rt)?;
    other_diagrams(&rt)?;
    bad_counts(&rt)?;
    bad_nodes(&rt)?;
    refusals(&rt)
}
