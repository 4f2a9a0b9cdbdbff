// The node of one gate: the nodes of the inputs that count, an event made where it is first used; then these combined by the gate's kind.
#![tactic(auto)]

mod inputs; // the nodes of a gate's inputs
mod kinds; // these combined by the gate's kind

ghost use Rattle.std.specs.Prelude.{map, ◌≤◌};
ghost use Rattle.paper.specs.Limits.{limits};
ghost use Rattle.paper.specs.Flat.{input_of, gate_of};
ghost use Rattle.tables.specs.Table.{den};
ghost use Rattle.atleast.specs.Making.{Within, Held, Gains};
ghost use Rattle.gates.specs.Rules.{over_d, over_steps_d, value_d, steps_d};
ghost use Rattle.gates.specs.Rows.{Own};

use inputs::input_nodes;
use kinds::{AND, OR, combined};
use paper::INPUTS;
use store::{Built, Full};
use twins::distinct;

// The node of a gate over the inputs that count; `gates` has the nodes of the gates before.
fn gate_over(
    nodes: &mut [u32],
    heads: &mut [u32],
    next: &mut [u32],
    memo: &mut [u32],
    gates: &[u32],
    inputs: &[u16],
    count: usize,
    kind: u8,
    k: u8,
) -> Result<Built, Full>
    requires held { Held nodes.old heads.old next.old memo.old count }
    requires within { Within count gates.now }
    requires own { Own gates.now inputs.now }
    requires k_le_inputs { k ≤ limits.inputs }
    ensures { Gains (over_steps_d (map (den nodes.old) gates.now) kind k (map input_of inputs.now)) (over_d (map (den nodes.old) gates.now) kind k (map input_of inputs.now)) nodes.old count nodes.new heads.new next.new memo.new result }
{
    let mut row = [0u32; INPUTS];
    let used = input_nodes(nodes, heads, next, gates, inputs, &mut row, count)?;
    let n = inputs.len();
    combined(nodes, heads, next, memo, &row[..n], used, kind, k)
}

// The node of a gate with these inputs: all of an and or an or count, and of an at-least gate the distinct ones.
pub fn gate_node(
    nodes: &mut [u32],
    heads: &mut [u32],
    next: &mut [u32],
    memo: &mut [u32],
    gates: &[u32],
    inputs: &[u16],
    count: usize,
    kind: u8,
    k: u8,
) -> Result<Built, Full>
    requires held { Held nodes.old heads.old next.old memo.old count }
    requires within { Within count gates.now }
    requires own { Own gates.now inputs.now }
    requires k_le_inputs { k ≤ limits.inputs }
    ensures { Gains (steps_d (map (den nodes.old) gates.now) (gate_of kind k (map input_of inputs.now))) (value_d (map (den nodes.old) gates.now) (gate_of kind k (map input_of inputs.now))) nodes.old count nodes.new heads.new next.new memo.new result }
{
    if kind == AND || kind == OR {
        return gate_over(nodes, heads, next, memo, gates, inputs, count, kind, k);
    }
    let mut own = [0u16; INPUTS];
    let n = distinct(inputs, &mut own);
    gate_over(nodes, heads, next, memo, gates, &own[..n], count, kind, k)
}
