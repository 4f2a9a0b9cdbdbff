// The nodes of a gate's inputs: an event's is made where it is first used, a gate's stands in the gate list, and a forced event's is a leaf.
ghost use Rattle.std.specs.Prelude.{◌≡◌, map, [], ◌∷◌, ◌+◌, ◌<◌, length};
ghost use Rattle.paper.specs.Limits.{limits};
ghost use Rattle.paper.specs.Flat.{gates_from, failed_from, input_of};
ghost use Rattle.algebra.specs.Operations.{event_d};
ghost use Rattle.tables.specs.Table.{den};
ghost use Rattle.store.specs.Store.{Store};
ghost use Rattle.store.specs.Building.{Is, Builds};
ghost use Rattle.atleast.specs.Making.{Within};
ghost use Rattle.gates.specs.Rules.{input_d};
ghost use Rattle.gates.specs.Rows.{Own, Names, Lines};

use paper::{FAILED_FROM, GATES_FROM, INPUTS, SOUND_FROM};
use store::{Built, Full};

// An event is the node (event, 1, 0).
fn event_node(
    nodes: &mut [u32],
    heads: &mut [u32],
    next: &mut [u32],
    count: usize,
    e: u32,
) -> Result<Built, Full>
    requires { Store nodes.old heads.old next.old count }
    ensures { Builds (Is (event_d e)) nodes.old count (event_d e) nodes.new heads.new next.new result }
{
    store::find_or_add(nodes, heads, next, count, e, 1, 0)
}

fn input_node(
    nodes: &mut [u32],
    heads: &mut [u32],
    next: &mut [u32],
    gates: &[u32],
    count: usize,
    code: u16,
) -> Result<Built, Full>
    requires store { Store nodes.old heads.old next.old count }
    requires within { Within count gates.now }
    requires code_bound { code < failed_from → code < gates_from + length gates.now }
    ensures { Names (input_of code ∷ []) (input_d (map (den nodes.old) gates.now) (input_of code)) nodes.old count nodes.new heads.new next.new result }
{
    if code < GATES_FROM {
        return event_node(nodes, heads, next, count, code as u32);
    }
    if code < FAILED_FROM {
        let g = (code - GATES_FROM) as usize;
        return Ok(Built {
            node: gates[g],
            count,
        });
    }
    if code < SOUND_FROM {
        return Ok(Built { node: 1, count });
    }
    Ok(Built { node: 0, count })
}

// The nodes of all inputs of a gate, from the front of the row on.
pub fn input_nodes(
    nodes: &mut [u32],
    heads: &mut [u32],
    next: &mut [u32],
    gates: &[u32],
    inputs: &[u16],
    row: &mut [u32; INPUTS],
    count: usize,
) -> Result<usize, Full>
    requires store { Store nodes.old heads.old next.old count }
    requires within { Within count gates.now }
    requires own { Own gates.now inputs.now }
    requires row_len { length row.old ≡ limits.inputs }
    ensures { Lines (map (den nodes.old) gates.now) (map input_of inputs.now) nodes.old count nodes.new heads.new next.new row.new result }
{
    let mut used = count;
    for (i, code) in inputs.iter().enumerate() {
        let b = input_node(nodes, heads, next, gates, used, *code)?;
        row[i] = b.node;
        used = b.count;
    }
    Ok(used)
}
