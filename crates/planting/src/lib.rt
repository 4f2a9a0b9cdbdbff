// Names in the order of a walk become a tree in memory, judged by the limits of a tree in the order of its records: events, then gates.
#![tactic(auto)]

ghost use Rattle.std.specs.Prelude.{◌≡◌, [], ◌∷◌, ◌<◌, ◌≤◌, length, take, get_or};
ghost use Rattle.paper.specs.Limits.{limits};
ghost use Rattle.paper.specs.Walks.{is_event, events_of};
ghost use Rattle.paper.specs.Importing.{events_break, too_many};
ghost use Rattle.paper.specs.Refusals.{number_of};
ghost use Rattle.records.specs.Flattened.{code_of};
ghost use Rattle.depthfirst.specs.Inputs.{inputs_of, Arrays};
ghost use Rattle.planting.specs.Orders.{input_at, chances_among, gates_among, tree_among, Sowable, Plantable};
ghost use Rattle.planting.specs.Planting.{Sows, Plants, PlantsOver, LeastTold, GateTold, LeastKept, Putable, Puts, Sortable, DistinctTold};

use paper::refusal::Refusal;
use paper::{BILLION, EVENTS, GATES, GATES_FROM, IN_ALL, INPUTS};
use records::{Event, Tree};
use twins::distinct;

// How many events there are, and the events, with zeros behind them.
#[derive(Clone, Copy)]
pub struct Sown {
    pub count: usize,
    pub events: [Event; EVENTS],
}

// Whether the name `x` has no inputs.
pub fn is_event(starts: &[u32], inputs: &[u32], count: u32, x: usize) -> bool
    requires arrays { Arrays starts.now inputs.now count }
    requires x_lt_count { x < count }
    ensures { result ≡ is_event (inputs_of starts.now inputs.now x) }
{
    starts[x + 1] <= starts[x]
}

// How many inputs the name `x` has.
fn size(starts: &[u32], inputs: &[u32], count: u32, x: usize) -> usize
    requires arrays { Arrays starts.now inputs.now count }
    requires x_lt_count { x < count }
    ensures { result ≡ length (inputs_of starts.now inputs.now x) }
{
    starts[x + 1].saturating_sub(starts[x]) as usize
}

// ---- events

// Err is the limit that event number `e` breaks.
fn check_event(e: usize, chance: u32) -> Result<(), Refusal>
    ensures { number_of result ≡ events_break limits e (chance ∷ []) }
{
    if EVENTS <= e {
        return Err(Refusal::Count);
    }
    if BILLION < chance {
        return Err(Refusal::Chance);
    }
    Ok(())
}

// The events of the order, in its order, or the first limit that they break.
fn plant_events(
    starts: &[u32],
    inputs: &[u32],
    count: u32,
    order: &[u32],
    left: usize,
    chances: &[u32],
) -> Result<Sown, Refusal>
    requires { Sowable starts.now inputs.now count order.now left chances.now }
    ensures { Sows (chances_among starts.now inputs.now chances.now (take left order.now)) result }
{
    let none = Event { chance: 0, site: 0 };
    let mut events = [none; EVENTS];
    let mut e = 0;
    for i in 0..left {
        let x = order[i] as usize;
        if !is_event(starts, inputs, count, x) {
            continue;
        }
        let chance = chances[x];
        check_event(e, chance)?;
        events[e] = Event { chance, site: 0 };
        e += 1;
    }
    Ok(Sown { count: e, events })
}

// ---- gates

// Whether gate number `g` is one too many, or has no input, too many, or too many with the `used` before it.
fn too_many(g: usize, used: usize, n: usize) -> bool
    requires { used ≤ limits.in_all }
    ensures { result ≡ too_many limits g used n }
{
    GATES <= g || n == 0 || INPUTS < n || IN_ALL < used + n
}

// Kinds stay numbers (2 and, 3 or, 4 at least): they are bytes of the format, and C gets them as such.

// Refused where k of an at-least gate is 0 or above the number `d` of its distinct inputs.
fn check_least(kind: u32, k: u32, d: usize) -> Result<(), Refusal>
    ensures { LeastTold kind k d (number_of result) }
{
    if kind == 2 || kind == 3 {
        return Ok(());
    }
    if k == 0 || d < k as usize {
        return Err(Refusal::Threshold);
    }
    Ok(())
}

// Err is the limit that gate number `g` breaks: of `n` inputs, `d` of them distinct.
fn check_gate(g: usize, used: usize, kind: u32, k: u32, n: usize, d: usize) -> Result<(), Refusal>
    requires { used ≤ limits.in_all }
    ensures { GateTold g used kind k n d (number_of result) }
{
    if too_many(g, used, n) {
        return Err(Refusal::Count);
    }
    check_least(kind, k, d)
}

// The k that memory holds: 0 but for an at-least gate.
fn least(kind: u32, k: u32) -> u8
    requires le_kind { (2 ≤ kind) × (kind ≤ 4) }
    requires k_le_inputs { kind ≡ 4 → k ≤ limits.inputs }
    ensures { LeastKept kind k result }
{
    if kind == 4 {
        return k as u8;
    }
    0
}

// The input that stands for the name `y`.
fn code(starts: &[u32], inputs: &[u32], count: u32, numbers: &[u32], y: usize) -> u16
    requires arrays { Arrays starts.now inputs.now count }
    requires y_lt_count { (y < count) × (count ≤ length numbers.now) }
    requires y_bound { get_or numbers.now y 0 < limits.events }
    ensures { result ≡ code_of (input_at starts.now inputs.now numbers.now y) }
{
    let number = numbers[y];
    if is_event(starts, inputs, count, y) {
        return number as u16;
    }
    GATES_FROM + (number as u16)
}

// Puts the inputs of the name `x` behind the first `used`.
fn put_inputs(
    starts: &[u32],
    inputs: &[u32],
    count: u32,
    numbers: &[u32],
    x: usize,
    out: &mut [u16; IN_ALL],
    used: usize,
)
    requires { Putable starts.now inputs.now count numbers.now x used }
    ensures { Puts starts.now inputs.now numbers.now (inputs_of starts.now inputs.now x) used out.old out.new }
{
    let from = starts[x] as usize;
    let end = starts[x + 1] as usize;
    let mut u = used;
    for p in from..end {
        let y = inputs[p] as usize;
        out[u] = code(starts, inputs, count, numbers, y);
        u += 1;
    }
}

// How many distinct inputs the name `x` has. More than one gate may have are not looked at: they are too many anyway.
fn distinct_inputs(starts: &[u32], inputs: &[u32], count: u32, numbers: &[u32], x: usize) -> usize
    requires { Sortable starts.now inputs.now count numbers.now x }
    ensures { DistinctTold starts.now inputs.now numbers.now x result }
{
    let n = size(starts, inputs, count, x);
    if INPUTS < n {
        return n;
    }
    let mut codes = [0u16; IN_ALL];
    put_inputs(starts, inputs, count, numbers, x, &mut codes, 0);
    let mut own = [0u16; INPUTS];
    distinct(&codes[..n], &mut own)
}

// The tree of the events that are planted and the gates of the order, in its order, or the first limit that these break.
fn plant_gates(
    starts: &[u32],
    inputs: &[u32],
    count: u32,
    order: &[u32],
    left: usize,
    numbers: &[u32],
    kinds: &[u32],
    leasts: &[u32],
    sown: Sown,
) -> Result<Tree, Refusal>
    requires plantable { Plantable starts.now inputs.now count order.now left numbers.now kinds.now leasts.now }
    requires order_len_bound { length (events_of (inputs_of starts.now inputs.now) (take left order.now)) ≤ limits.events }
    ensures { PlantsOver sown (gates_among starts.now inputs.now numbers.now kinds.now leasts.now (take left order.now)) result }
{
    let mut ks = [0u8; GATES];
    let mut ls = [0u8; GATES];
    let mut ns = [0u8; GATES];
    let mut codes = [0u16; IN_ALL];
    let mut g = 0;
    let mut used = 0;
    for i in 0..left {
        let x = order[i] as usize;
        let n = size(starts, inputs, count, x);
        if n == 0 {
            continue;
        }
        let kind = kinds[x];
        let k = leasts[x];
        let d = distinct_inputs(starts, inputs, count, numbers, x);
        check_gate(g, used, kind, k, n, d)?;
        ks[g] = kind as u8;
        ls[g] = least(kind, k);
        ns[g] = n as u8;
        put_inputs(starts, inputs, count, numbers, x, &mut codes, used);
        g += 1;
        used += n;
    }
    let events = sown.events;
    Ok(Tree {
        events,
        event_count: sown.count,
        sited: false,
        kinds: ks,
        leasts: ls,
        sizes: ns,
        gate_count: g,
        inputs: codes,
    })
}

// The tree of the first `left` names of an order: its events, then its gates, each with its chance, or its kind, k and inputs; or the
// first limit that it breaks.
pub fn plant(
    starts: &[u32],
    inputs: &[u32],
    count: u32,
    order: &[u32],
    left: usize,
    chances: &[u32],
    numbers: &[u32],
    kinds: &[u32],
    leasts: &[u32],
) -> Result<Tree, Refusal>
    requires plantable { Plantable starts.now inputs.now count order.now left numbers.now kinds.now leasts.now }
    requires count_in_bounds { count ≤ length chances.now }
    ensures { Plants (tree_among starts.now inputs.now chances.now numbers.now kinds.now leasts.now (take left order.now)) result }
{
    let sown = plant_events(starts, inputs, count, order, left, chances)?;
    plant_gates(
        starts, inputs, count, order, left, numbers, kinds, leasts, sown,
    )
}
