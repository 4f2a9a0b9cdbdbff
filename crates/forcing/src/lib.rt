// A tree with its forced events as constants: the inputs of a tree in memory, changed before it is built.
#![tactic(auto)]

ghost use Rattle.std.specs.Prelude.{◌≡◌, map, length};
ghost use Rattle.paper.specs.Limits.{limits};
ghost use Rattle.settings.specs.States.{states_in};
ghost use Rattle.forcing.specs.Codes.{force_code, force_in};

use paper::{FAILED_FROM, GATES_FROM, SOUND_FROM};
use records::Tree;

// What stands for an input once its event is forced.
fn forced_code(code: u16, states: &[u8]) -> u16
    requires { length states.now ≡ limits.events }
    ensures { result ≡ force_code (states_in states.now) code }
{
    if GATES_FROM <= code {
        return code;
    }
    let state = states[code as usize];
    if state == 0 {
        return code;
    }
    if state == 1 {
        return FAILED_FROM + code;
    }
    SOUND_FROM + code
}

// All inputs of a tree.
fn force_inputs(inputs: &mut [u16], states: &[u8])
    requires { length states.now ≡ limits.events }
    ensures { inputs.new ≡ map (force_code (states_in states.now)) inputs.old }
{
    for input in inputs.iter_mut() {
        *input = forced_code(*input, states);
    }
}

// A tree in memory with its forced events as constants.
pub fn force_tree(tree: Tree, states: &[u8]) -> Tree
    requires { length states.now ≡ limits.events }
    ensures { result ≡ force_in (states_in states.now) tree }
{
    let mut inputs = tree.inputs;
    force_inputs(&mut inputs, states);
    Tree { inputs, ..tree }
}
