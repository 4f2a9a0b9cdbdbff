// The lines of the cuts, from the bytes of a listing.
ghost use Rattle.std.specs.Prelude.{◌≡◌, ◌+◌, ◌*◌, ◌≤◌, length, take};
ghost use Rattle.text.specs.Places.{Front, said, from_kind, after, spelled};
ghost use Rattle.decimals.specs.Places.{Put};
ghost use Rattle.text.specs.declared.cuts.Place.TheVariants.{Start};

use crate::put_number;
use decimals::put;

// The kinds of a listing's records: the end of a cut, and a member with two bytes of event; any other has one.
const END: u8 = 0x22;

const WIDE: u8 = 0x23;

// Where a byte stands: at the start of a cut, behind kind 21, behind kind 23, behind this low byte of a number, or behind a member.
#[derive(Clone, Copy)]
pub enum Place {
    Start,
    Event,
    Low,
    High(u8),
    Behind,
}

// Puts what a byte adds to the text.
fn put_byte(text: &mut [u8], at: usize, place: Place, b: u8) -> usize
    requires { at + 20 ≤ length text.old }
    ensures { Put text.old at (said place b) text.new result }
{
    match place {
        Place::Start if b == END => put(text, at, b"\n"),
        Place::Start | Place::Low => at,
        Place::Event => put_number(text, at, u64::from(b)),
        Place::High(low) => put_number(text, at, u64::from(u16::from_le_bytes([low, b]))),
        Place::Behind => put(text, at, if b == END { b"\n" } else { b" " }),
    }
}

// The place behind a kind.
fn from_kind(b: u8) -> Place
    ensures { result ≡ from_kind b }
{
    match b {
        END => Place::Start,
        WIDE => Place::Low,
        _ => Place::Event,
    }
}

// The place behind a byte.
fn behind(place: Place, b: u8) -> Place
    ensures { result ≡ after place b }
{
    match place {
        Place::Start | Place::Behind => from_kind(b),
        Place::Event | Place::High(_) => Place::Behind,
        Place::Low => Place::High(b),
    }
}

// The text of the first `used` bytes of a room: a line for each cut.
pub fn spell(room: &[u8], used: usize, text: &mut [u8]) -> usize
    requires { (used ≤ length room.now) × (3 * used + 20 ≤ length text.old) }
    ensures { Front result text.new (spelled Start (take used room.now)) }
{
    let mut place = Place::Start;
    let mut at = 0;
    for b in &room[..used] {
        at = put_byte(text, at, place, *b);
        place = behind(place, *b);
    }
    at
}
