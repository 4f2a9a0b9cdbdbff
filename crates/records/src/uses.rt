// The search for an item that is an input nowhere: the paper's number 8.
ghost use Rattle.std.specs.Prelude.{◌≡◌, ◌+◌, ◌≤◌, length};
ghost use Rattle.paper.specs.Lists.{sum};
ghost use Rattle.records.specs.Uses.{among, lowest_unused, unused_of};
ghost use Rattle.records.specs.Inner.{Below, Complete, Ready, Seeks};

use paper::{GATES, GATES_FROM, IN_ALL};
use rules::format::event_length;
use rules::judge::State;

// Whether the input `wanted` stands in some gate: sought gate by gate, up to the first use.
fn used(sizes: &[u8], inputs: &[u16], wanted: u16) -> bool
    requires { sum sizes.now ≡ length inputs.now }
    ensures { result ≡ among wanted inputs.now }
{
    let mut found = false;
    let mut first = 0;
    'search: for g in 0..sizes.len() {
        let end = first + sizes[g] as usize;
        for i in first..end {
            if inputs[i] == wanted {
                found = true;
                break 'search;
            }
        }
        first = end;
    }
    found
}

// The lowest i below count for which the input from + i stands in no gate.
fn missing(sizes: &[u8], inputs: &[u16], from: u16, count: usize) -> Option<usize>
    requires { (sum sizes.now ≡ length inputs.now) × (from + count ≤ 4096) }
    ensures { (result ≡ lowest_unused count 0 from inputs.now) × Below count result }
{
    for i in 0..count {
        if !used(sizes, inputs, from + (i as u16)) {
            return Some(i);
        }
    }
    None
}

// The place of the lowest unused event, whose records have sites or not, else of the lowest unused gate but the root.
fn unused<'a>(
    sited: bool,
    events: usize,
    sizes: &'a [u8],
    places: &'a [usize],
    inputs: &'a [u16],
) -> Option<usize>
    requires { Complete events sizes.now places.now inputs.now }
    ensures { result ≡ unused_of sited events sizes.now places.now inputs.now }
{
    if let Some(e) = missing(sizes, inputs, 0, events) {
        return Some(event_length(sited) * e);
    }
    let g = missing(sizes, inputs, GATES_FROM, sizes.len() - 1)?;
    Some(places[g])
}

// The same, read off the fronts of arrays at the end record.
pub fn unused_in<'a>(
    sizes: &'a [u8; GATES],
    places: &'a [usize; GATES],
    inputs: &'a [u16; IN_ALL],
    s: State,
) -> Option<usize>
    requires { Ready sizes.now places.now inputs.now s }
    ensures { Seeks sizes.now places.now inputs.now s result }
{
    unused(
        s.sited,
        s.events,
        &sizes[..s.gates],
        &places[..s.gates],
        &inputs[..s.inputs],
    )
}
