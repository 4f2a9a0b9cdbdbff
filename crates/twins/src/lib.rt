// The distinct inputs of a gate: each once, at its first place.
#![tactic(auto)]

ghost use Rattle.std.specs.Prelude.{◌≡◌, ◌≤◌, length};
ghost use Rattle.paper.specs.Limits.{limits};
ghost use Rattle.twins.specs.Distinct.{Distinct};

use paper::INPUTS;

// The inputs that no earlier one is, from the front of `out` on; answers how many.
pub fn distinct(inputs: &[u16], out: &mut [u16; INPUTS]) -> usize
    requires inputs_len_bound { length inputs.now ≤ limits.inputs }
    requires out_len { length out.old ≡ limits.inputs }
    ensures { Distinct inputs.now out.new result }
{
    let mut n = 0;
    for (i, x) in inputs.iter().enumerate() {
        if !inputs[..i].contains(x) {
            out[n] = *x;
            n += 1;
        }
    }
    n
}
