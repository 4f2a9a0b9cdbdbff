// The records of a tree: what stands at the front of some bytes.
ghost use Rattle.std.specs.Prelude.{◌≡◌};
ghost use Rattle.paper.specs.Limits.{limits};
ghost use Rattle.rules.specs.Format.{length_of, event_length, record_of, width_of};

#[derive(Clone, Copy)]
pub enum Record {
    // No byte is left.
    Missing,
    // A kind that no record has.
    Unknown,
    // The bytes end inside the record.
    Short,
    // Its chance.
    Event(u32),
    // Its chance and its site.
    SitedEvent(u32, u16),
    // Its kind, its k (0 for and, or) and its n.
    Gate(u8, u8, u8),
    EventInput(u8),
    GateInput(u16),
    // An event whose number takes two bytes.
    WideInput(u16),
    End,
}

// How many bytes a record of a kind takes, the kind's among them; 0 for a kind that no record has.
pub fn length(kind: u8) -> usize
    ensures { result ≡ length_of kind }
{
    match kind {
        1 => 5,
        2 => 2,
        3 => 2,
        4 => 3,
        5 => 2,
        6 => 3,
        7 => 1,
        8 => 3,
        17 => 7,
        _ => 0,
    }
}

// How many bytes an event's record takes, with a site or without.
pub fn event_length(sited: bool) -> usize
    ensures { result ≡ event_length sited }
{
    if sited { length(17) } else { length(1) }
}

// How many bytes a record takes.
pub fn width(r: Record) -> usize
    ensures { result ≡ width_of r }
{
    match r {
        Record::Event(_) => length(1),
        Record::SitedEvent(_, _) => length(17),
        Record::Gate(4, _, _) => length(4),
        Record::Gate(_, _, _) => length(2),
        Record::EventInput(_) => length(5),
        Record::GateInput(_) => length(6),
        Record::WideInput(_) => length(8),
        Record::End => length(7),
        Record::Missing | Record::Short => 0,
        Record::Unknown => 1,
    }
}

// The record at the front of b.
pub fn decode(b: &[u8]) -> Record
    ensures { result ≡ record_of limits b.now }
{
    if b.len() == 0 {
        return Record::Missing;
    }
    let kind = b[0];
    let n = length(kind);
    if n == 0 {
        return Record::Unknown;
    }
    if b.len() < n {
        return Record::Short;
    }
    match kind {
        1 => Record::Event(u32::from_le_bytes([b[1], b[2], b[3], b[4]])),
        2 => Record::Gate(2, 0, b[1]),
        3 => Record::Gate(3, 0, b[1]),
        4 => Record::Gate(4, b[1], b[2]),
        5 => Record::EventInput(b[1]),
        6 => Record::GateInput(u16::from_le_bytes([b[1], b[2]])),
        8 => Record::WideInput(u16::from_le_bytes([b[1], b[2]])),
        17 => Record::SitedEvent(
            u32::from_le_bytes([b[1], b[2], b[3], b[4]]),
            u16::from_le_bytes([b[5], b[6]]),
        ),
        _ => Record::End,
    }
}
