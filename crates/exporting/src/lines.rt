// The lines of a tree: a line for each gate, then one for each event's chance.
ghost use Rattle.std.specs.Prelude.{◌++◌, ◌+◌, ◌≤◌, take};
ghost use Rattle.paper.specs.Limits.{limits};
ghost use Rattle.paper.specs.Texts.{line_feed};
ghost use Rattle.paper.specs.Flat.{gates_of};
ghost use Rattle.paper.specs.Spelling.{chance_line};
ghost use Rattle.paper.specs.Exporting.{decimal, event_name, gate_line, gate_lines, text_of};
ghost use Rattle.records.specs.Trees.{tree_in};
ghost use Rattle.exporting.specs.Laying.{Laid, Inputs, Planned, Typable, gate_in, right_of, chances_of};

use crate::pieces::{lay, lay_input, lay_number, lay_row};
use paper::{GATES, IN_ALL};
use records::Tree;

// Lays the right side of a gate's equation. By hand: the kind is a byte of the format (2 and, 3 or, 4 at least), which C lends as such.
fn lay_right(
    room: &mut [u8],
    at: usize,
    kind: u8,
    k: u8,
    inputs: &[u16; IN_ALL],
    first: usize,
    n: usize,
) -> usize
    requires { Inputs inputs.now first n × (at + 2040 ≤ 1000000000) }
    ensures { Laid room.old at (right_of kind k inputs.now first n) room.new result × (result ≤ at + 2040) }
{
    if n == 1 {
        return lay_input(room, at, inputs[first]);
    }
    if kind == 2 {
        return lay_row(room, at, b" and ", inputs, first, n);
    }
    if kind == 3 {
        return lay_row(room, at, b" or ", inputs, first, n);
    }
    let a = lay_number(room, at, b"at-least ", k as u64);
    let b = lay(room, a, b" in ");
    lay_row(room, b, b", ", inputs, first, n)
}

// Lays a gate's line.
fn lay_gate(
    room: &mut [u8],
    at: usize,
    g: usize,
    kind: u8,
    k: u8,
    inputs: &[u16; IN_ALL],
    first: usize,
    n: usize,
) -> usize
    requires { Inputs inputs.now first n × (at + 2100 ≤ 1000000000) }
    ensures { Laid room.old at (gate_line g (gate_in kind k inputs.now first n)) room.new result × (result ≤ at + 2100) }
{
    let a = lay_number(room, at, b"g", g as u64);
    let b = lay(room, a, b" = ");
    let c = lay_right(room, b, kind, k, inputs, first, n);
    lay(room, c, b"\n")
}

// Lays the lines of all gates.
fn lay_gates<'a>(
    room: &mut [u8],
    kinds: &'a [u8; GATES],
    leasts: &'a [u8; GATES],
    sizes: &'a [u8; GATES],
    inputs: &'a [u16; IN_ALL],
    gates: usize,
) -> usize
    requires { Planned sizes.now inputs.now gates }
    ensures { Laid room.old 0 (gate_lines 0 (gates_of kinds.now leasts.now 0 (take gates sizes.now) inputs.now)) room.new result × (result ≤ 2000000) }
{
    let mut at = 0;
    let mut first = 0;
    for g in 0..gates {
        let n = sizes[g] as usize;
        at = lay_gate(room, at, g, kinds[g], leasts[g], inputs, first, n);
        first += n;
    }
    at
}

// Lays the line of an event's chance.
fn lay_chance(room: &mut [u8], at: usize, e: usize, chance: u32) -> usize
    requires { at + 50 ≤ 1000000000 }
    ensures { Laid room.old at (chance_line (event_name e) (decimal chance) ++ line_feed) room.new result × (result ≤ at + 50) }
{
    let a = lay_number(room, at, b"p e", e as u64);
    let b = lay_number(room, a, b" ", chance as u64);
    lay(room, b, b"\n")
}

// Lays the lines of all chances.
fn lay_chances(room: &mut [u8], at: usize, tree: Tree) -> usize
    requires { (tree.event_count ≤ limits.events) × (at ≤ 2000000) }
    ensures { Laid room.old at (chances_of tree) room.new result }
{
    let mut end = at;
    for i in 0..tree.event_count {
        let e = tree.events[i];
        end = lay_chance(room, end, i, e.chance);
    }
    end
}

// Lays the text of a tree.
pub fn lay_text(room: &mut [u8], tree: Tree) -> usize
    requires { Typable tree }
    ensures { Laid room.old 0 (text_of (tree_in tree)) room.new result }
{
    let at = lay_gates(
        room,
        &tree.kinds,
        &tree.leasts,
        &tree.sizes,
        &tree.inputs,
        tree.gate_count,
    );
    lay_chances(room, at, tree)
}
