// A tree in memory: its records one after the other, and what its bytes would be answered.
#![tactic(auto)]

ghost use Rattle.std.specs.Prelude.{◌≡◌, ◌<◌};
ghost use Rattle.rules.specs.Format.{event_in};
ghost use Rattle.judging.specs.Bytes.{input_record, gate_record, next_of};
ghost use Rattle.rules.specs.States.{Bounded};
ghost use Rattle.judging.specs.Inner.{Own, Within, Surveyed, Sized};

use paper::{EVENTS, GATES, GATES_FROM, IN_ALL, WIDE_FROM};
use records::thresholds::starved;
use records::uses::unused_in;
use records::{Event, Tree};
use rules::Refusal;
use rules::format::{Record, width};
use rules::judge::{State, Step, admit, begin, past_event, past_gate, past_input};

// The record of an input: an event's by its number, which is all that memory has.
pub fn input_record(code: u16) -> Record
    ensures { (result ≡ input_record code) × Own result }
{
    if code < WIDE_FROM {
        return Record::EventInput(code as u8);
    }
    if code < GATES_FROM {
        return Record::WideInput(code);
    }
    Record::GateInput(code - GATES_FROM)
}

// The record of an event, with a site or without.
pub fn event_record(sited: bool, chance: u32, site: u16) -> Record
    ensures { (result ≡ event_in sited chance site) × Own result }
{
    if sited {
        return Record::SitedEvent(chance, site);
    }
    Record::Event(chance)
}

// The record of a gate.
pub fn gate_record(kind: u8, k: u8, n: u8) -> Record
    ensures { (result ≡ gate_record kind k n) × Own result }
{
    match kind {
        2 => Record::Gate(2, 0, n),
        3 => Record::Gate(3, 0, n),
        4 => Record::Gate(4, k, n),
        _ => Record::Unknown,
    }
}

// n, if the array of the events has it.
pub fn within(n: usize) -> usize
    ensures { Within n result }
{
    if n < EVENTS {
        return n;
    }
    0
}

// The record of a tree that comes next at s; behind its arrays, an event of chance 0 or a gate of no input. `e` is event
// s.events.
pub fn tree_record<'a>(
    events: usize,
    gates: usize,
    sited: bool,
    e: Event,
    kinds: &'a [u8; GATES],
    leasts: &'a [u8; GATES],
    sizes: &'a [u8; GATES],
    inputs: &'a [u16; IN_ALL],
    s: State,
) -> Record
    requires { Bounded s }
    ensures { (result ≡ next_of events gates sited e kinds.now leasts.now sizes.now inputs.now s) × Own result }
{
    let i = s.inputs;
    let g = s.gates;
    if s.events < events {
        if s.events < EVENTS {
            return event_record(sited, e.chance, e.site);
        }
        return event_record(sited, 0, 0);
    }
    if 0 < s.left {
        return input_record(inputs[i]);
    }
    if g < gates {
        if g < GATES {
            return gate_record(kinds[g], leasts[g], sizes[g]);
        }
        return Record::Gate(2, 0, 0);
    }
    Record::End
}

// The end record is judged: of so many bytes.
fn surveyed(f: Option<usize>, bytes: usize) -> Result<usize, Refusal>
    ensures { Sized f bytes result }
{
    match f {
        Some(place) => Err(Refusal::Unused(place)),
        None => Ok(bytes),
    }
}

// What the bytes of a tree would be answered, and how many they are where nothing is refused.
pub fn survey(t: Tree) -> Result<usize, Refusal>
    ensures { Surveyed t result }
{
    let mut sizes = [0u8; GATES];
    let mut places = [0usize; GATES];
    let mut inputs = [0u16; IN_ALL];
    let mut s = begin();
    loop {
        let at = s.at;
        let g = s.gates;
        let i = s.inputs;
        let n = within(s.events);
        let e = t.events[n];
        let r = tree_record(
            t.event_count,
            t.gate_count,
            t.sited,
            e,
            &t.kinds,
            &t.leasts,
            &t.sizes,
            &t.inputs,
            s,
        );
        match admit(s, at + width(r), r)? {
            Step::AddEvent(_, _, sited, after) => s = past_event(s, sited, after),
            Step::AddGate(_, _, size, after) => {
                sizes[g] = size;
                places[g] = at;
                s = past_gate(s, size, after);
            }
            Step::AddInput(code, after) => {
                inputs[i] = code;
                s = past_input(s, after);
                if starved(&t.kinds, &t.leasts, &sizes, &inputs, s) {
                    let gate = places[g - 1];
                    return Err(Refusal::Threshold(gate));
                }
            }
            Step::Close => return surveyed(unused_in(&sizes, &places, &inputs, s), at + 1),
        }
    }
}
