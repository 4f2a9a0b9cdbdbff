// A tree's records, written.
ghost use Rattle.std.specs.Prelude.{◌≡◌, ◌∷◌, ◌++◌, ◌/◌, ◌%◌, ◌≤◌, length, drop};
ghost use Rattle.rules.specs.Format.{width_of, encode};
ghost use Rattle.judging.specs.Bytes.{bytes_of};
ghost use Rattle.judging.specs.Inner.{Accepted};

use judging::{tree_record, within};
use records::Tree;
use rules::format::{Record, width};
use rules::judge::{Step, admit, begin, past_event, past_gate, past_input};

// Writes the kind of an event's record and its chance.
fn put_event(b: &mut [u8], kind: u8, c: u32)
    requires { 5 ≤ length b.old }
    ensures { b.new ≡ kind ∷ c % 256 ∷ c / 256 % 256 ∷ c / 65536 % 256 ∷ c / 16777216 ∷ drop 5 b.old }
{
    b[0] = kind;
    b[1..5].copy_from_slice(&c.to_le_bytes());
}

// The same, with a site.
fn put_sited_event(b: &mut [u8], c: u32, site: u16)
    requires { 7 ≤ length b.old }
    ensures { b.new ≡ 17 ∷ c % 256 ∷ c / 256 % 256 ∷ c / 65536 % 256 ∷ c / 16777216 ∷ site % 256 ∷ site / 256 ∷ drop 7 b.old }
{
    put_event(b, 17, c);
    b[5..7].copy_from_slice(&site.to_le_bytes());
}

// Writes the kind of an input whose number takes two bytes, and the number.
fn put_wide(b: &mut [u8], kind: u8, n: u16)
    requires { 3 ≤ length b.old }
    ensures { b.new ≡ kind ∷ n % 256 ∷ n / 256 ∷ drop 3 b.old }
{
    b[0] = kind;
    b[1..3].copy_from_slice(&n.to_le_bytes());
}

fn put_gate(b: &mut [u8], kind: u8, k: u8, n: u8)
    requires { width_of (Record.Gate kind k n) ≤ length b.old }
    ensures { b.new ≡ encode (Record.Gate kind k n) ++ drop (width_of (Record.Gate kind k n)) b.old }
{
    if kind == 4 {
        b[0] = 4;
        b[1] = k;
        b[2] = n;
        return;
    }
    b[0] = kind;
    b[1] = n;
}

// Writes a record to the front of b.
pub fn put(b: &mut [u8], r: Record)
    requires { width_of r ≤ length b.old }
    ensures { b.new ≡ encode r ++ drop (width_of r) b.old }
{
    match r {
        Record::Event(c) => {
            put_event(b, 1, c);
        }
        Record::SitedEvent(c, site) => {
            put_sited_event(b, c, site);
        }
        Record::Gate(kind, k, n) => {
            put_gate(b, kind, k, n);
        }
        Record::EventInput(e) => {
            b[0] = 5;
            b[1] = e;
        }
        Record::GateInput(g) => {
            put_wide(b, 6, g);
        }
        Record::WideInput(e) => {
            put_wide(b, 8, e);
        }
        Record::End => {
            b[0] = 7;
        }
        Record::Unknown => {
            b[0] = 0;
        }
        Record::Missing => {}
        Record::Short => {}
    }
}

// Writes the records of t, whose bytes are accepted, to the front of room.
pub fn emit(t: Tree, room: &mut [u8])
    requires { Accepted t × (length (bytes_of t) ≤ length room.old) }
    ensures { room.new ≡ bytes_of t ++ drop (length (bytes_of t)) room.old }
{
    let mut s = begin();
    loop {
        let at = s.at;
        let n = within(s.events);
        let e = t.events[n];
        let r = tree_record(
            t.event_count,
            t.gate_count,
            t.sited,
            e,
            &t.kinds,
            &t.leasts,
            &t.sizes,
            &t.inputs,
            s,
        );
        put(&mut room[at..], r);
        match admit(s, at + width(r), r) {
            Ok(Step::AddEvent(_, _, sited, after)) => s = past_event(s, sited, after),
            Ok(Step::AddGate(_, _, size, after)) => s = past_gate(s, size, after),
            Ok(Step::AddInput(_, after)) => s = past_input(s, after),
            Ok(Step::Close) => {
                return;
            }
            // No record of an accepted tree is refused.
            Err(_) => {
                return;
            }
        }
    }
}
