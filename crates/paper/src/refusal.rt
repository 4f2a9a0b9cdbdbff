// Why a call refuses, with the number that the rules give each reason.
ghost use Rattle.std.specs.Prelude.{◌≡◌};
ghost use Rattle.paper.specs.Refusals.{number};

#[derive(Clone, Copy, Debug, PartialEq, Eq)]
pub enum Refusal {
    // The bytes end inside a record, or before an end record.
    CutShort = 1,
    UnknownKind = 2,
    // A record or byte out of place.
    OutOfPlace = 3,
    // A count above its maximum, n of 0, or an end with no event or no gate.
    Count = 4,
    // K is 0 or above the number of distinct inputs.
    Threshold = 5,
    // An event that is not there, or a gate not below its gate.
    Reference = 6,
    // A chance above 1,000,000,000.
    Chance = 7,
    // An unused event, or an unused gate that is not the root.
    Unused = 8,
    // A lent length breaks its rule, or the room is shorter than a written tree.
    Length = 9,
    NodesFull = 10,
    CutsFull = 11,
    NoDiagram = 12,
    // A set, or a setting, names an event beyond the number of events.
    Beyond = 13,
    // Room too small for the next cut.
    Room = 14,
    // A line outside the grammar, or a chance that may not be given.
    Line = 15,
    // A left name twice.
    LeftTwice = 16,
    // A name that leads back to itself.
    Ring = 17,
    // Not exactly one root.
    Roots = 18,
    // More than 2^64 - 1 cuts of one size, or that hold one event.
    TooMany = 19,
    // A listing out of order, or with a bad record.
    BadListing = 20,
    // An input of kind 08 with a number below 256.
    Narrow = 21,
    // A site that isn't 0, where the form to be written has none.
    Sited = 22,
    // An edition of the review rule that there is not.
    Edition = 23,
    // A store of settings that ends inside a record, has another kind or state, or lets editions fall.
    Store = 24,
}

// A refusal that says where: at a record's first byte, at a gate, in a line.
#[derive(Clone, Copy, Debug, PartialEq, Eq)]
pub struct Refused {
    pub why: Refusal,
    pub place: usize,
}

impl Refusal {
    // The number of the list.
    pub fn number(self) -> u8
        ensures { result ≡ number self }
    {
        self as u8
    }
}
