// Tree records: any bytes judged by the paper's rules and read into a tree in memory.
#![tactic(auto)]

pub mod thresholds; // a gate's k against its distinct inputs: number 5
pub mod uses; // the search for an item that is an input nowhere: number 8

ghost use Rattle.std.specs.Prelude.{◌≡◌};
ghost use Rattle.paper.specs.Limits.{limits};
ghost use Rattle.rules.specs.Answers.{verdict};
ghost use Rattle.records.specs.Judge.{start, outcome, judge};
ghost use Rattle.records.specs.Memory.{no_event, memory, in_memory};
ghost use Rattle.records.specs.Inner.{whole};

use paper::{EVENTS, GATES, IN_ALL};
use rules::Refusal;
use rules::judge::{State, Step, begin, next, past_event, past_gate, past_input};
use thresholds::starved;
use uses::unused_in;

// An event of a tree: its chance in billionths, and its site, 0 where its record has none.
#[derive(Clone, Copy)]
pub struct Event {
    pub chance: u32,
    pub site: u16,
}

// A tree: its events; for each gate its kind (2 and, 3 or, 4 at least), its k and its n; the inputs of all gates, one gate after the other; and whether the events'
// records have sites. A tree that was read has zeros behind its counts. The bool is last, so that no gap parts the arrays and a tree is cleared at once.
#[derive(Clone, Copy)]
pub struct Tree {
    pub events: [Event; EVENTS],
    pub event_count: usize,
    pub kinds: [u8; GATES],
    pub leasts: [u8; GATES],
    pub sizes: [u8; GATES],
    pub gate_count: usize,
    pub inputs: [u16; IN_ALL],
    pub sited: bool,
}

// An event that is all zero. As a call's answer it is filled in whole, its padding too, so an array of it is cleared at once.
pub fn no_event() -> Event
    ensures { result ≡ no_event }
{
    Event { chance: 0, site: 0 }
}

// The tree of no record.
pub fn empty() -> Tree
    ensures { result ≡ memory start }
{
    let none = no_event();
    let events = [none; EVENTS];
    Tree {
        events,
        event_count: 0,
        kinds: [0; GATES],
        leasts: [0; GATES],
        sizes: [0; GATES],
        gate_count: 0,
        inputs: [0; IN_ALL],
        sited: false,
    }
}

// Every record is read, and every item is used: the tree gets its counts, where it stands, since a tree in an answer would be copied.
fn done(t: &mut Tree, s: State)
    ensures { t.new ≡ whole t.old s }
{
    t.event_count = s.events;
    t.sited = s.sited;
    t.gate_count = s.gates;
}

// Reads a tree, record by record.
pub fn read(bytes: &[u8]) -> Result<Tree, Refusal>
    ensures whole { result ≡ in_memory (outcome limits bytes.now) }
    ensures numbered { verdict result ≡ judge limits bytes.now }
{
    let mut t = empty();
    let mut places = [0usize; GATES];
    let mut s = begin();
    loop {
        let n = s.events;
        let g = s.gates;
        let i = s.inputs;
        match next(bytes, s)? {
            Step::AddEvent(chance, site, sited, after) => {
                let e = Event { chance, site };
                t.events[n] = e;
                s = past_event(s, sited, after);
            }
            Step::AddGate(kind, k, size, after) => {
                t.kinds[g] = kind;
                t.leasts[g] = k;
                t.sizes[g] = size;
                places[g] = s.at;
                s = past_gate(s, size, after);
            }
            Step::AddInput(code, after) => {
                t.inputs[i] = code;
                s = past_input(s, after);
                if starved(&t.kinds, &t.leasts, &t.sizes, &t.inputs, s) {
                    let gate = places[g - 1];
                    return Err(Refusal::Threshold(gate));
                }
            }
            Step::Close => match unused_in(&t.sizes, &places, &t.inputs, s) {
                Some(place) => return Err(Refusal::Unused(place)),
                None => {
                    done(&mut t, s);
                    return Ok(t);
                }
            },
        }
    }
}
