// What a record does at a place of the reading: the paper's numbers 1 to 7 but 5, which waits for the gate's inputs, and 21.
ghost use Rattle.std.specs.Prelude.{◌≡◌, ◌+◌, ◌≤◌, ◌<◌, length};
ghost use Rattle.paper.specs.Limits.{limits};
ghost use Rattle.rules.specs.Format.{width_of};
ghost use Rattle.rules.specs.States.{begun, past_event, past_gate, past_input, Bounded};
ghost use Rattle.rules.specs.Rules.{wrong_k, mixed, event_step, gate_step, event_input_step, gate_input_step, wide_input_step, end_step, admit_of, step_of};

use crate::Refusal;
use crate::format::{Record, decode, width};
use paper::{BILLION, EVENTS, GATES, GATES_FROM, IN_ALL, INPUTS, WIDE_FROM};

// Where the reading stands: the place of the next record, the number of events so far and whether they have sites, the
// numbers of gates and of inputs so far, and how many inputs the last gate still wants.
#[derive(Clone, Copy)]
pub struct State {
    pub at: usize,
    pub events: usize,
    pub sited: bool,
    pub gates: usize,
    pub inputs: usize,
    pub left: usize,
}

// What a record adds to the tree, with the place of the next record.
#[derive(Clone, Copy)]
pub enum Step {
    // Its chance, its site, and whether it has one.
    AddEvent(u32, u16, bool, usize),
    AddGate(u8, u8, u8, usize),
    AddInput(u16, usize),
    Close,
}

// Before the first record.
pub fn begin() -> State
    ensures { result ≡ begun }
{
    State {
        at: 0,
        events: 0,
        sited: false,
        gates: 0,
        inputs: 0,
        left: 0,
    }
}

// Past an event, whose record ends before `after`.
pub fn past_event(s: State, sited: bool, after: usize) -> State
    requires { Bounded s }
    ensures { result ≡ past_event s sited after }
{
    State {
        at: after,
        events: s.events + 1,
        sited,
        ..s
    }
}

// Past the record of a gate of n inputs.
pub fn past_gate(s: State, n: u8, after: usize) -> State
    requires { Bounded s }
    ensures { result ≡ past_gate s n after }
{
    State {
        at: after,
        gates: s.gates + 1,
        left: n as usize,
        ..s
    }
}

// Past an input of the last gate.
pub fn past_input(s: State, after: usize) -> State
    requires { Bounded s × (0 < s.left) }
    ensures { result ≡ past_input s after }
{
    State {
        at: after,
        inputs: s.inputs + 1,
        left: s.left - 1,
        ..s
    }
}

// Whether an event, with a site or without, stands behind one of the other form.
fn mixed(s: State, sited: bool) -> bool
    ensures { result ≡ mixed s sited }
{
    s.events != 0 && s.sited != sited
}

fn admit_event(s: State, after: usize, c: u32, site: u16, sited: bool) -> Result<Step, Refusal>
    ensures { result ≡ event_step limits s after c site sited }
{
    if 0 < s.gates {
        return Err(Refusal::OutOfPlace(s.at));
    }
    if mixed(s, sited) {
        return Err(Refusal::OutOfPlace(s.at));
    }
    if EVENTS <= s.events {
        return Err(Refusal::Count(s.at));
    }
    if BILLION < c {
        return Err(Refusal::Chance(s.at));
    }
    Ok(Step::AddEvent(c, site, sited, after))
}

fn admit_gate(s: State, after: usize, kind: u8, k: u8, n: u8) -> Result<Step, Refusal>
    requires { Bounded s }
    ensures { result ≡ gate_step limits s after kind k n }
{
    if 0 < s.left {
        return Err(Refusal::OutOfPlace(s.at));
    }
    if GATES <= s.gates {
        return Err(Refusal::Count(s.at));
    }
    if n == 0 {
        return Err(Refusal::Count(s.at));
    }
    if INPUTS < (n as usize) {
        return Err(Refusal::Count(s.at));
    }
    if IN_ALL < s.inputs + (n as usize) {
        return Err(Refusal::Count(s.at));
    }
    Ok(Step::AddGate(kind, k, n, after))
}

// Whether k is 0 or above n, in a gate that has a k.
pub fn wrong_k(kind: u8, k: u8, n: usize) -> bool
    ensures { result ≡ wrong_k kind k n }
{
    kind == 4 && (k == 0 || n < (k as usize))
}

fn admit_event_input(s: State, after: usize, e: u8) -> Result<Step, Refusal>
    ensures { result ≡ event_input_step s after e }
{
    if s.left == 0 {
        return Err(Refusal::OutOfPlace(s.at));
    }
    if s.events <= (e as usize) {
        return Err(Refusal::Reference(s.at));
    }
    Ok(Step::AddInput(e as u16, after))
}

fn admit_gate_input(s: State, after: usize, g: u16) -> Result<Step, Refusal>
    requires { Bounded s }
    ensures { result ≡ gate_input_step s after g }
{
    if s.left == 0 {
        return Err(Refusal::OutOfPlace(s.at));
    }
    if s.gates <= (g as usize) + 1 {
        return Err(Refusal::Reference(s.at));
    }
    Ok(Step::AddInput(GATES_FROM + g, after))
}

fn admit_wide_input(s: State, after: usize, e: u16) -> Result<Step, Refusal>
    ensures { result ≡ wide_input_step s after e }
{
    if s.left == 0 {
        return Err(Refusal::OutOfPlace(s.at));
    }
    if e < WIDE_FROM {
        return Err(Refusal::Narrow(s.at));
    }
    if s.events <= (e as usize) {
        return Err(Refusal::Reference(s.at));
    }
    Ok(Step::AddInput(e, after))
}

fn admit_end(s: State, after: usize, len: usize) -> Result<Step, Refusal>
    ensures { result ≡ end_step len s after }
{
    if 0 < s.left {
        return Err(Refusal::OutOfPlace(s.at));
    }
    if after < len {
        return Err(Refusal::OutOfPlace(after));
    }
    if s.events == 0 {
        return Err(Refusal::Count(s.at));
    }
    if s.gates == 0 {
        return Err(Refusal::Count(s.at));
    }
    Ok(Step::Close)
}

// What the record r at s.at does, of len bytes.
pub fn admit(s: State, len: usize, r: Record) -> Result<Step, Refusal>
    requires { Bounded s × (s.at + width_of r ≤ len) }
    ensures { result ≡ admit_of limits len s r }
{
    let after = s.at + width(r);
    match r {
        Record::Missing => Err(Refusal::Cut(len)),
        Record::Unknown => Err(Refusal::UnknownKind(s.at)),
        Record::Short => Err(Refusal::Cut(s.at)),
        Record::Event(c) => admit_event(s, after, c, 0, false),
        Record::SitedEvent(c, site) => admit_event(s, after, c, site, true),
        Record::Gate(kind, k, n) => admit_gate(s, after, kind, k, n),
        Record::EventInput(e) => admit_event_input(s, after, e),
        Record::GateInput(g) => admit_gate_input(s, after, g),
        Record::WideInput(e) => admit_wide_input(s, after, e),
        Record::End => admit_end(s, after, len),
    }
}

// What the next record of the bytes does.
pub fn next(bytes: &[u8], s: State) -> Result<Step, Refusal>
    requires { Bounded s × (s.at ≤ length bytes.now) }
    ensures { result ≡ step_of limits bytes.now s }
{
    admit(s, bytes.len(), decode(&bytes[s.at..]))
}
