// Settings by edition: a store judged, the state of each event under an edition, and each event's chance there.
#![tactic(auto)]

ghost use Rattle.std.specs.Prelude.{◌≡◌, ◌+◌, ◌*◌, ◌≤◌, ◌<◌, length};
ghost use Rattle.paper.specs.Limits.{limits, billion};
ghost use Rattle.paper.specs.Refusals.{number_of, verdict_of};
ghost use Rattle.paper.specs.Store.{entry_long, entry_at, fault_of, accepted, judge_store, settings_of, state_of};
ghost use Rattle.paper.specs.Forcing.{chance_as, chances_under};
ghost use Rattle.settings.specs.States.{states_in, states_after, ChancesForced};

use paper::refusal::{Refusal, Refused};
use paper::{BILLION, EVENTS};

// A record's bytes.
const ENTRY: usize = 6;

const KIND: u8 = 0x31;

// A number's bytes, the low one first.
fn two(a: u8, b: u8) -> u16
    ensures { result ≡ a + 256 * b }
{
    u16::from(a) + 256 * u16::from(b)
}

// The edition, and the event, of the record at `at`.
fn edition_at(store: &[u8], at: usize) -> u16
    requires { at + entry_long ≤ length store.now }
    ensures { result ≡ (entry_at store.now at).edition }
{
    two(store[at + 1], store[at + 2])
}

fn event_at(store: &[u8], at: usize) -> u16
    requires { at + entry_long ≤ length store.now }
    ensures { result ≡ (entry_at store.now at).event }
{
    two(store[at + 3], store[at + 4])
}

// Why the record at `at` is refused, after one of edition `last`, if it is.
fn fault_at(store: &[u8], at: usize, events: usize, last: u16) -> Result<(), Refusal>
    requires { at + entry_long ≤ length store.now }
    ensures { number_of result ≡ fault_of events last (entry_at store.now at) }
{
    if store[at] != KIND {
        return Err(Refusal::Store);
    }
    if 2 < store[at + 5] {
        return Err(Refusal::Store);
    }
    if edition_at(store, at) < last {
        return Err(Refusal::Store);
    }
    if usize::from(event_at(store, at)) < events {
        return Ok(());
    }
    Err(Refusal::Beyond)
}

// Judges the store of a tree of so many events.
pub fn judge(store: &[u8], events: usize) -> Result<(), Refused>
    ensures { verdict_of result ≡ judge_store events store.now }
{
    let mut last = 0;
    for at in (0..store.len()).step_by(ENTRY) {
        if store.len() - at < ENTRY {
            return Err(Refused {
                why: Refusal::Store,
                place: at,
            });
        }
        match fault_at(store, at, events, last) {
            Ok(()) => last = edition_at(store, at),
            Err(why) => return Err(Refused { why, place: at }),
        }
    }
    Ok(())
}

// What the record at `at` says of its event, if it is of the asked edition or one before.
fn take_entry(store: &[u8], at: usize, asked: u16, states: &mut [u8; EVENTS])
    requires entry_long_in_bounds { at + entry_long ≤ length store.now }
    requires at_bound { (entry_at store.now at).event < limits.events }
    ensures { states.new ≡ states_after asked (entry_at store.now at) states.old }
{
    if asked < edition_at(store, at) {
        return;
    }
    let e = usize::from(event_at(store, at));
    states[e] = store[at + 5];
}

// The state of each event under the asked edition, by a store that was accepted.
pub fn states_under(store: &[u8], events: usize, asked: u16) -> [u8; EVENTS]
    requires events_le_events { events ≤ limits.events }
    requires store_value { judge_store events store.now ≡ accepted }
    ensures { states_in result ≡ settings_of asked store.now }
{
    let mut states = [0u8; EVENTS];
    for at in (0..store.len()).step_by(ENTRY) {
        take_entry(store, at, asked, &mut states);
    }
    states
}

// The chance of an event in a state.
fn chance_as(chance: u32, state: u8) -> u32
    ensures { result ≡ chance_as billion chance (state_of state) }
{
    if state == 0 {
        return chance;
    }
    if state == 1 {
        return BILLION;
    }
    0
}

// The chances of events in these states.
fn force_chances(chances: &mut [u32], states: &[u8])
    requires { length chances.old ≤ length states.now }
    ensures { chances.new ≡ chances_under (states_in states.now) chances.old }
{
    for e in 0..chances.len() {
        chances[e] = chance_as(chances[e], states[e]);
    }
}

// Makes the chances of all events of a tree those under an edition: D where an event is forced failed, 0 where it is forced sound.
pub fn chances_under(store: &[u8], edition: u16, chances: &mut [u32]) -> Result<(), Refused>
    ensures { ChancesForced store.now edition chances.old chances.new (verdict_of result).number (verdict_of result).place }
{
    let events = chances.len();
    judge(store, events)?;
    if EVENTS < events {
        return Err(Refused {
            why: Refusal::Length,
            place: 0,
        });
    }
    let states = states_under(store, events, edition);
    force_chances(chances, &states);
    Ok(())
}
