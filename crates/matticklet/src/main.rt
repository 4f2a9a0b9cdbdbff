// The program: reads a tree from standard input, and writes its counts, its cuts and its top's bracket, or one line of refusal.
#![tactic(auto)]

ghost use Rattle.std.specs.Io.{ReadsAtMost};
ghost use Rattle.text.specs.Lines.{refusal, head, top};
ghost use Rattle.text.specs.Places.{Front};
ghost use Rattle.std.specs.Prelude.{Ok};
ghost use Rattle.paper.specs.Refusals.{number};
ghost use Rattle.memory.specs.Analysis.{analysis_of};
ghost use Rattle.followup.specs.Tops.{Priced, low_of, high_of, Held};

use memory::Tables;
use paper::refusal::Refused;
use records::Tree;
use std::io;
use std::io::Read;

mod pages; // pages.rt: the lines of the cuts, one room after another

// Each table has room for 4,096 nodes, and each work area a number for each of them and for the leaves.
const TABLE: usize = 12288;

const AREA: usize = 4098;

const MEMO: usize = 65536;

// The line of a refusal: its number and its place.
fn refusal_of(line: &mut [u8; text::ROOM], r: Refused) -> usize
    ensures { Front result line.new (refusal (number r.why) r.place) }
{
    text::refusal(line, r.why.number(), r.place)
}

fn say_refusal(rt: &impl Print, r: Refused) -> io::Result<()> {
    let mut line = [0u8; text::ROOM];
    let n = refusal_of(&mut line, r);
    rt.write_all(&line[..n])
}

// The lines before the cuts: the tree's counts, and the nodes of the whole table.
fn head_of(lines: &mut [u8; text::ROOM], tree: Tree, a: Tables) -> usize
    ensures { Front result lines.new (head tree.event_count tree.gate_count a.nodes) }
{
    text::head(lines, tree.event_count, tree.gate_count, a.nodes)
}

fn say_head(rt: &impl Print, tree: Tree, a: Tables) -> io::Result<()> {
    let mut lines = [0u8; text::ROOM];
    let n = head_of(&mut lines, tree, a);
    rt.write_all(&lines[..n])
}

// The line behind the cuts: the low and the high number of the analysis' root.
fn top_of(
    line: &mut [u8; text::ROOM],
    tree: Tree,
    a: Tables,
    nodes: &[u32; TABLE],
    lows: &mut [u32; AREA],
    highs: &mut [u32; AREA],
) -> usize
    requires { Priced tree nodes.now a.nodes a.root }
    ensures { Front result line.new (top (low_of tree nodes.now a.root) (high_of tree nodes.now a.root)) }
{
    let ends = followup::top(tree, nodes, a.nodes, a.root, lows, highs);
    text::top(line, ends.low, ends.high)
}

fn say_top(
    rt: &impl Print,
    tree: Tree,
    a: Tables,
    nodes: &[u32; TABLE],
    lows: &mut [u32; AREA],
    highs: &mut [u32; AREA],
) -> io::Result<()>
    requires { Priced tree nodes.now a.nodes a.root }
{
    let mut line = [0u8; text::ROOM];
    let n = top_of(&mut line, tree, a, nodes, lows, highs);
    rt.write_all(&line[..n])
}

// Writes what the tables of a done analysis hold. The top comes only behind all cuts: a report without it is not whole.
fn report(
    rt: &impl Print,
    tree: Tree,
    a: Tables,
    nodes: &[u32; TABLE],
    cuts: &[u32; TABLE],
    lows: &mut [u32; AREA],
    highs: &mut [u32; AREA],
) -> io::Result<()>
    requires { Held tree nodes.now cuts.now (analysis_of (Ok a)) }
{
    say_head(rt, tree, a)?;
    pages::say_cuts(rt, cuts, tree.event_count, a.cut_nodes, a.cut_root)?;
    say_top(rt, tree, a, nodes, lows, highs)
}

// Analyses a tree in tables of 4,096 nodes, and writes the answer.
fn answer(rt: &impl Print, bytes: &[u8]) -> io::Result<()> {
    let mut nodes = [0u32; TABLE];
    let mut cuts = [0u32; TABLE];
    let mut gates = [0u32; paper::GATES];
    let mut added = [0u32; paper::GATES];
    let mut memo = [0u32; MEMO];
    let mut heads = [0u32; AREA];
    let mut next = [0u32; AREA];
    let mut marks = [0u32; AREA];
    let mut own = [0u32; AREA];
    let a = match analyser::analyse(
        bytes, &mut nodes, &mut cuts, &mut gates, &mut added, &mut memo, &mut heads, &mut next,
        &mut marks, &mut own,
    ) {
        Ok(a) => a,
        Err(refused) => return say_refusal(rt, refused),
    };
    let Ok(tree) = analyser::read(bytes) else {
        unreachable!()
    };
    report(rt, tree, a, &nodes, &cuts, &mut heads, &mut next)
}

// Reads until the buffer is full or the input ends: how many bytes it put at the buffer's start.
// In each program: no crate that the programs share reads input.
fn fill(input: &mut impl Read, buffer: &mut [u8]) -> io::Result<usize>
    ensures { ReadsAtMost result buffer.new }
{
    let mut done = 0;
    while done < buffer.len() {
        let n = input.read(&mut buffer[done..])?;
        if n == 0 {
            break;
        }
        done += n;
    }
    Ok(done)
}

// No more of the input is read: these bytes decide.
fn main(rt: HostRuntime) -> io::Result<()> {
    let mut bytes = [0u8; paper::BYTES];
    let n = fill(&mut rt.stdin(), &mut bytes)?;
    answer(&rt, &bytes[..n])
}
