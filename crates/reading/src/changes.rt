// A tree changed in memory, also in ways that no bytes could, and written.
ghost use Rattle.std.specs.Prelude.{◌≤◌};

use crate::say;
use paper::GATES_FROM;
use records::{Event, Tree};
use std::io;

// (event 0 and event 1) or (event 1 and event 2): 36 bytes.
const CASE: [u8; 36] = [
    1, 0x00, 0xE1, 0xF5, 0x05, 1, 0x00, 0xE1, 0xF5, 0x05, 1, 0x00, 0xE1, 0xF5, 0x05, 2, 2, 5, 0, 5,
    1, 2, 2, 5, 1, 5, 2, 3, 2, 6, 0, 0, 6, 1, 0, 7,
];

fn byte(rt: &impl Print, x: u8) -> io::Result<()> {
    print!(rt; "{x}")
}

fn tell(rt: &impl Print, words: &[u8], t: Tree) -> io::Result<()> {
    let mut room = [255u8; 4096];
    let w = writing::write(t, &mut room);
    rt.write_all(words)?;
    print!(rt; ": ")?;
    say(rt, &w)?;
    print!(rt; ", {} bytes, then ", w.unwrap_or(0))?;
    byte(rt, room[0])?;
    print!(rt; " .. ")?;
    byte(rt, room[36])?;
    println!(rt;)
}

// A room of n bytes.
fn in_room(rt: &impl Print, t: Tree, n: usize) -> io::Result<()>
    requires { n ≤ 4096 }
{
    let mut room = [255u8; 4096];
    let w = writing::write(t, &mut room[..n]);
    print!(rt; "room of {n}: ")?;
    say(rt, &w)?;
    print!(rt; ", ")?;
    byte(rt, room[0])?;
    print!(rt; " .. ")?;
    byte(rt, room[35])?;
    print!(rt; " ")?;
    byte(rt, room[36])?;
    println!(rt;)
}

fn counts(rt: &impl Print, t: Tree) -> io::Result<()> {
    let mut u = t;
    u.event_count = 258;
    tell(rt, b"258 events, the last 255 unused", u)?;
    u.event_count = 1025;
    tell(rt, b"1025 events", u)?;
    u.event_count = 18446744073709551615;
    tell(rt, b"2^64 - 1 events", u)?;
    u.event_count = 0;
    tell(rt, b"no event", u)?;
    let mut v = t;
    v.gate_count = 0;
    tell(rt, b"no gate", v)?;
    v.gate_count = 4;
    tell(rt, b"a gate of kind 0", v)?;
    v.gate_count = 18446744073709551615;
    tell(rt, b"2^64 - 1 gates", v)
}

fn gates(rt: &impl Print, t: Tree) -> io::Result<()> {
    let mut u = t;
    u.kinds[1] = 9;
    tell(rt, b"gate 1 of kind 9", u)?;
    u.kinds[1] = 4;
    tell(rt, b"gate 1 at least 0", u)?;
    u.leasts[1] = 3;
    tell(rt, b"gate 1 at least 3 of 2", u)?;
    u.kinds[1] = 3;
    tell(rt, b"gate 1 or, with a k of 3", u)?;
    let mut v = t;
    v.sizes[0] = 0;
    tell(rt, b"gate 0 of no input", v)?;
    v.sizes[0] = 65;
    tell(rt, b"gate 0 of 65 inputs", v)?;
    v.sizes[0] = 3;
    tell(rt, b"gate 0 of 3 inputs", v)
}

fn twins(rt: &impl Print, t: Tree) -> io::Result<()> {
    let mut u = t;
    u.kinds[1] = 4;
    u.leasts[1] = 2;
    tell(rt, b"gate 1 at least 2 of events 1, 2", u)?;
    u.inputs[3] = 1;
    tell(rt, b"gate 1 at least 2 of events 1, 1", u)?;
    u.inputs[3] = GATES_FROM;
    tell(rt, b"gate 1 at least 2 of event 1, gate 0", u)?;
    u.inputs[3] = 9;
    u.leasts[1] = 3;
    tell(rt, b"gate 1 at least 3 of events 1, 9", u)
}

fn inputs(rt: &impl Print, t: Tree) -> io::Result<()> {
    let mut u = t;
    u.inputs[0] = 3;
    tell(rt, b"input event 3", u)?;
    u.inputs[0] = 256;
    tell(rt, b"input event 256", u)?;
    u.inputs[0] = GATES_FROM;
    tell(rt, b"gate 0 in gate 0", u)?;
    u.inputs[0] = 1;
    tell(rt, b"event 0 unused", u)?;
    let mut v = t;
    v.inputs[4] = GATES_FROM + 1;
    tell(rt, b"gate 0 unused", v)?;
    v.inputs[5] = GATES_FROM + 2;
    tell(rt, b"gate 2 in gate 2", v)?;
    v.inputs[5] = 65535;
    tell(rt, b"gate 64511 in gate 2", v)?;
    let mut x = t;
    x.events[1] = Event {
        chance: 1000000001,
        site: 0,
    };
    tell(rt, b"chance 1000000001", x)
}

// Sites in a tree whose records have none, and records with sites that are all 0.
fn sites(rt: &impl Print, t: Tree) -> io::Result<()> {
    let mut u = t;
    u.events[2] = Event {
        chance: 100000000,
        site: 65535,
    };
    tell(rt, b"a site in event 2, without sites", u)?;
    in_room(rt, u, 35)?;
    u.events[1] = Event {
        chance: 100000000,
        site: 1,
    };
    tell(rt, b"and one in event 1", u)?;
    u.inputs[0] = 1;
    tell(rt, b"and event 0 unused", u)?;
    u.sited = true;
    u.inputs[0] = 0;
    tell(rt, b"with sites", u)?;
    let mut v = t;
    v.sited = true;
    tell(rt, b"with sites, all 0", v)?;
    v.inputs[2] = 0;
    v.inputs[1] = 0;
    tell(rt, b"with sites, event 1 unused", v)
}

pub fn all(rt: &impl Print) -> io::Result<()> {
    let t = match records::read(&CASE) {
        Ok(t) => t,
        Err(_) => records::empty(),
    };
    tell(rt, b"as it was read", t)?;
    counts(rt, t)?;
    gates(rt, t)?;
    twins(rt, t)?;
    inputs(rt, t)?;
    sites(rt, t)?;
    in_room(rt, t, 35)?;
    in_room(rt, t, 36)?;
    in_room(rt, t, 37)?;
    let none = records::empty();
    tell(rt, b"the empty tree", none)
}
