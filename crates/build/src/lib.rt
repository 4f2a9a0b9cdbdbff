// The diagrams of a tree's gates in one table, gate by gate.
#![tactic(auto)]

ghost use Rattle.std.specs.Prelude.{◌≡◌, map, ◌+◌, ◌/◌, ◌<◌, ◌≤◌, length, take};
ghost use Rattle.tables.specs.Table.{den};
ghost use Rattle.store.specs.Memo.{Places};
ghost use Rattle.gates.specs.Rules.{value_d, steps_d};
ghost use Rattle.paper.specs.Flat.{gates_of};
ghost use Rattle.build.specs.Memory.{start_of, gate_at, Plan, Arrays};
ghost use Rattle.atleast.specs.Making.{Within, Held, Gains};
ghost use Rattle.build.specs.Finishing.{Areas, Sofar, Finishes};

use records::Tree;
use store::{Built, Full};

// The table was full at this gate.
#[derive(Clone, Copy, PartialEq, Eq, Debug)]
pub struct Over {
    pub gate: usize,
}

// The node of gate g of a tree, whose inputs start at `at`.
fn next_gate(
    nodes: &mut [u32],
    heads: &mut [u32],
    next: &mut [u32],
    memo: &mut [u32],
    gates: &[u32],
    kinds: &[u8],
    leasts: &[u8],
    sizes: &[u8],
    inputs: &[u16],
    count: usize,
    g: usize,
    at: usize,
) -> Result<Built, Full>
    requires held { Held nodes.old heads.old next.old memo.old count }
    requires within { Within count gates.now }
    requires plan { Plan kinds.now leasts.now sizes.now inputs.now }
    requires sizes_in_bounds { length sizes.now ≤ length gates.now }
    requires g_in_bounds { g < length sizes.now }
    requires at_value { at ≡ start_of sizes.now g }
    ensures { Gains (steps_d (map (den nodes.old) gates.now) (gate_at kinds.now leasts.now sizes.now inputs.now g)) (value_d (map (den nodes.old) gates.now) (gate_at kinds.now leasts.now sizes.now inputs.now g)) nodes.old count nodes.new heads.new next.new memo.new result }
{
    let end = at + sizes[g] as usize;
    gates::gate_node(
        nodes,
        heads,
        next,
        memo,
        gates,
        &inputs[at..end],
        count,
        kinds[g],
        leasts[g],
    )
}

// The nodes of all gates into the list, one gate after the other, and how many each adds to the table into the other list.
fn build_gates(
    nodes: &mut [u32],
    heads: &mut [u32],
    next: &mut [u32],
    memo: &mut [u32],
    gates: &mut [u32],
    added: &mut [u32],
    kinds: &[u8],
    leasts: &[u8],
    sizes: &[u8],
    inputs: &[u16],
) -> Result<Built, Over>
    requires plan { Plan kinds.now leasts.now sizes.now inputs.now }
    requires sizes_in_bounds { length sizes.now ≤ length gates.old }
    requires sizes_in_bounds_2 { length sizes.now ≤ length added.old }
    requires sofar { Sofar (gates_of kinds.now leasts.now 0 sizes.now inputs.now) 0 gates.old added.old nodes.old heads.old next.old memo.old 0 }
    ensures { Finishes (gates_of kinds.now leasts.now 0 sizes.now inputs.now) (length nodes.old / 3) gates.new added.new nodes.new heads.new next.new result }
{
    let mut at = 0;
    let mut last = Built { node: 0, count: 0 };
    for (g, size) in sizes.iter().enumerate() {
        let Ok(built) = next_gate(
            nodes, heads, next, memo, gates, kinds, leasts, sizes, inputs, last.count, g, at,
        ) else {
            return Err(Over { gate: g });
        };
        gates[g] = built.node;
        added[g] = (built.count - last.count) as u32;
        last = built;
        at += *size as usize;
    }
    Ok(last)
}

// The diagrams of all gates of a tree, over whatever the lent memory holds.
fn build_over(
    nodes: &mut [u32],
    heads: &mut [u32],
    next: &mut [u32],
    memo: &mut [u32],
    gates: &mut [u32],
    added: &mut [u32],
    kinds: &[u8],
    leasts: &[u8],
    sizes: &[u8],
    inputs: &[u16],
) -> Result<Built, Over>
    requires areas { Areas nodes.old heads.old next.old }
    requires plan { Plan kinds.now leasts.now sizes.now inputs.now }
    requires sizes_in_bounds { length sizes.now ≤ length gates.old }
    requires sizes_in_bounds_2 { length sizes.now ≤ length added.old }
    requires places { Places memo.old }
    ensures { Finishes (gates_of kinds.now leasts.now 0 sizes.now inputs.now) (length nodes.old / 3) gates.new added.new nodes.new heads.new next.new result }
{
    nodes.fill(0);
    heads.fill(0);
    memo.fill(0);
    gates.fill(0);
    added.fill(0);
    build_gates(
        nodes, heads, next, memo, gates, added, kinds, leasts, sizes, inputs,
    )
}

// Builds the diagrams of all gates of a tree. What the memory holds at entry does not matter. A memo of no place gives way to one of a single place, so
// that the recursion need not ask whether there is one.
fn build(
    nodes: &mut [u32],
    heads: &mut [u32],
    next: &mut [u32],
    memo: &mut [u32],
    gates: &mut [u32],
    added: &mut [u32],
    kinds: &[u8],
    leasts: &[u8],
    sizes: &[u8],
    inputs: &[u16],
) -> Result<Built, Over>
    requires areas { Areas nodes.old heads.old next.old }
    requires plan { Plan kinds.now leasts.now sizes.now inputs.now }
    requires sizes_in_bounds { length sizes.now ≤ length gates.old }
    requires sizes_in_bounds_2 { length sizes.now ≤ length added.old }
    ensures { Finishes (gates_of kinds.now leasts.now 0 sizes.now inputs.now) (length nodes.old / 3) gates.new added.new nodes.new heads.new next.new result }
{
    let n = store::used(memo.len());
    if n < 4 {
        let mut one = [0u32; 4];
        return build_over(
            nodes, heads, next, &mut one, gates, added, kinds, leasts, sizes, inputs,
        );
    }
    build_over(
        nodes,
        heads,
        next,
        &mut memo[..n],
        gates,
        added,
        kinds,
        leasts,
        sizes,
        inputs,
    )
}

// Builds them from the arrays of a tree in memory.
pub fn build_tree(
    tree: Tree,
    nodes: &mut [u32],
    heads: &mut [u32],
    next: &mut [u32],
    memo: &mut [u32],
    gates: &mut [u32],
    added: &mut [u32],
) -> Result<Built, Over>
    requires arrays { Arrays tree }
    requires areas { Areas nodes.old heads.old next.old }
    requires gate_count_in_bounds { tree.gate_count ≤ length gates.old }
    requires gate_count_in_bounds_2 { tree.gate_count ≤ length added.old }
    ensures { Finishes (gates_of tree.kinds tree.leasts 0 (take tree.gate_count tree.sizes) tree.inputs) (length nodes.old / 3) gates.new added.new nodes.new heads.new next.new result }
{
    let count = tree.gate_count;
    let kinds = tree.kinds;
    let leasts = tree.leasts;
    let sizes = tree.sizes;
    let inputs = tree.inputs;
    build(
        nodes,
        heads,
        next,
        memo,
        gates,
        added,
        &kinds,
        &leasts,
        &sizes[..count],
        &inputs,
    )
}
