// The k of a gate against its distinct inputs: the paper's number 5.
ghost use Rattle.std.specs.Prelude.{◌≡◌};
ghost use Rattle.records.specs.Thresholds.{starved_by};
ghost use Rattle.records.specs.Inner.{Counted};

use paper::{GATES, IN_ALL, INPUTS};
use rules::judge::{State, wrong_k};
use twins::distinct;

// Whether the last gate has all its inputs, and its k is 0 or above the number of the distinct ones.
pub fn starved<'a>(
    kinds: &'a [u8; GATES],
    leasts: &'a [u8; GATES],
    sizes: &'a [u8; GATES],
    inputs: &'a [u16; IN_ALL],
    s: State,
) -> bool
    requires { Counted sizes.now s }
    ensures { result ≡ starved_by kinds.now leasts.now sizes.now inputs.now s }
{
    if 0 < s.left {
        return false;
    }
    let g = s.gates - 1;
    let kind = kinds[g];
    // Only an at-least gate has a k.
    if kind != 4 {
        return false;
    }
    let end = s.inputs;
    let first = end - (sizes[g] as usize);
    let mut own = [0u16; INPUTS];
    let n = distinct(&inputs[first..end], &mut own);
    wrong_k(kind, leasts[g], n)
}
