// The events of a tree in memory as an array of their chances and one of their sites, and back.
#![tactic(auto)]

ghost use Rattle.std.specs.Prelude.{◌≡◌};
ghost use Rattle.arrays.specs.Chances.{chances_of, sites_of, events_of, Blank};

use paper::EVENTS;
use records::Event;

// The chances of all events.
pub fn chances_of(events: [Event; EVENTS]) -> [u32; EVENTS]
    ensures { result ≡ chances_of events }
{
    events.map(|e| e.chance)
}

// Puts the chances and the sites of the events into two arrays: 0 from the count on, where no event is told.
pub fn put_events(
    events: [Event; EVENTS],
    count: usize,
    chances: &mut [u32; EVENTS],
    sites: &mut [u16; EVENTS],
)
    requires { Blank events count }
    ensures chances_after { chances.new ≡ chances_of events }
    ensures sites_after { sites.new ≡ sites_of events }
{
    *chances = [0; EVENTS];
    *sites = [0; EVENTS];
    for i in 0..count.min(EVENTS) {
        chances[i] = events[i].chance;
        sites[i] = events[i].site;
    }
}

// Events of these chances and sites.
pub fn events_of(chances: &[u32; EVENTS], sites: &[u16; EVENTS]) -> [Event; EVENTS]
    ensures { result ≡ events_of chances.now sites.now }
{
    let none = Event { chance: 0, site: 0 };
    let mut events = [none; EVENTS];
    for i in 0..EVENTS {
        events[i] = Event {
            chance: chances[i],
            site: sites[i],
        };
    }
    events
}
