// The rules that the analyser keeps: specs/ has them as definitions, one file for each idea; here are the limits that code and definitions share.
#![tactic(auto)]

pub mod refusal; // why a call refuses, by name and number

ghost use Rattle.std.specs.Prelude.{◌≡◌};
ghost use Rattle.paper.specs.Limits.{limits, wide_from, most_bytes, most_numbers, billion};
ghost use Rattle.paper.specs.Flat.{gates_from, failed_from, sound_from};
ghost use Rattle.paper.specs.Sizes.{sizes};

// The most events, gates, inputs to one gate, and inputs in all.
pub const EVENTS: usize = 1024;

pub const GATES: usize = 512;

pub const INPUTS: usize = 64;

pub const IN_ALL: usize = 4096;

// The input that stands for gate 0: an event's input is its number, and a gate's is its number with this added.
pub const GATES_FROM: u16 = EVENTS as u16;

// The inputs that stand for event 0 where it is forced failed, and where it is forced sound.
pub const FAILED_FROM: u16 = GATES_FROM + GATES as u16;

pub const SOUND_FROM: u16 = FAILED_FROM + EVENTS as u16;

// The first event whose number takes two bytes.
pub const WIDE_FROM: u16 = 256;

// The most bytes that the program reads.
pub const BYTES: usize = 24576;

// The most numbers of a table, three for each node.
pub const TABLE: usize = 3000000;

// The number of counts by size: one for each size from 0 to the most events.
pub const SIZES: usize = EVENTS + 1;

// A chance is counted in billionths.
pub const BILLION: u32 = 1000000000;

// The constants as one value, so that what code counts with is shown to be what the definitions say.
#[derive(Clone, Copy)]
pub struct Bounds {
    pub events: usize,
    pub gates: usize,
    pub inputs: usize,
    pub in_all: usize,
    pub gates_from: u16,
    pub failed_from: u16,
    pub sound_from: u16,
    pub wide_from: u16,
    pub bytes: usize,
    pub table: usize,
    pub sizes: usize,
    pub billion: u32,
}

pub fn all_bounds() -> Bounds
    ensures events { result.events ≡ limits.events }
    ensures gates { result.gates ≡ limits.gates }
    ensures inputs { result.inputs ≡ limits.inputs }
    ensures in_all { result.in_all ≡ limits.in_all }
    ensures gates_from { result.gates_from ≡ gates_from }
    ensures failed_from { result.failed_from ≡ failed_from }
    ensures sound_from { result.sound_from ≡ sound_from }
    ensures wide_from { result.wide_from ≡ wide_from }
    ensures bytes { result.bytes ≡ most_bytes }
    ensures table { result.table ≡ most_numbers }
    ensures sizes { result.sizes ≡ sizes }
    ensures billion { result.billion ≡ billion }
{
    Bounds {
        events: EVENTS,
        gates: GATES,
        inputs: INPUTS,
        in_all: IN_ALL,
        gates_from: GATES_FROM,
        failed_from: FAILED_FROM,
        sound_from: SOUND_FROM,
        wide_from: WIDE_FROM,
        bytes: BYTES,
        table: TABLE,
        sizes: SIZES,
        billion: BILLION,
    }
}
