// What an answer shows: the lines of a ring, or the places of the names' first appearances.
ghost use Rattle.std.specs.Prelude.{◌≡◌, true, false, ◌++◌, ◌+◌, ◌<◌, ◌≤◌, length, take};
ghost use Rattle.std.proofs.Math.Seq.{slice};
ghost use Rattle.records.specs.Memory.{pad};
ghost use Rattle.depthfirst.specs.Inputs.{inputs_of};
ghost use Rattle.equations.specs.Knowing.{Known, Room, Climbed};
ghost use Rattle.equations.specs.Showing.{lines_at, RingAt, among, spots_at, Showable, Adds, ShowsNames};

use planting::is_event;

// The lines that define the names of a ring, which stand on the stack from `from` up to `to`.
pub fn show_ring(stack: &[u32], from: usize, to: usize, defs: &[u32], ring: &mut [u32])
    requires { RingAt stack.now from to defs.now ring.old }
    ensures { ring.new ≡ pad (length ring.old) 0 (lines_at defs.now (slice from to stack.now)) }
{
    for i in from..to {
        let n = stack[i] as usize;
        ring[i - from] = defs[n] - 1;
    }
}

// Shows the places of an order's events, or of its gates, behind the first `from` numbers: how many stand there then.
fn show(
    starts: &[u32],
    inputs: &[u32],
    count: u32,
    order: &[u32],
    left: usize,
    names: &[u32],
    events: bool,
    shown: &mut [u32],
    from: usize,
) -> usize
    requires { Showable starts.now inputs.now count order.now left names.now events shown.old from }
    ensures { Adds (spots_at names.now (among events (inputs_of starts.now inputs.now) (take left order.now))) shown.old from shown.new result }
{
    let mut u = from;
    for i in 0..left {
        let x = order[i] as usize;
        if is_event(starts, inputs, count, x) != events {
            continue;
        }
        shown[u] = names[x];
        u += 1;
    }
    u
}

// Shows the places of an order's events, and then of its gates.
pub fn show_names(
    starts: &[u32],
    inputs: &[u32],
    count: u32,
    order: &[u32],
    left: usize,
    names: &[u32],
    shown: &mut [u32],
)
    requires { ShowsNames starts.now inputs.now count order.now left names.now shown.old }
    ensures { shown.new ≡ pad (length shown.old) 0 (spots_at names.now (among true (inputs_of starts.now inputs.now) (take left order.now) ++ among false (inputs_of starts.now inputs.now) (take left order.now))) }
{
    let n = show(starts, inputs, count, order, left, names, true, shown, 0);
    show(starts, inputs, count, order, left, names, false, shown, n);
}
