// The rules of single records: what a record is, and what it does at a place of the reading.
#![tactic(auto)]

pub mod format; // the records: what stands at the front of some bytes
pub mod judge; // what a record does at a place of the reading: numbers 1 to 7 but 5, and 21

ghost use Rattle.std.specs.Prelude.{◌≡◌};
ghost use Rattle.rules.specs.Answers.{verdict, reason, said};

use paper::refusal::{Refusal as Why, Refused};

// Why a tree is refused, or what was asked of it, and at which place. `specs/Answers.antt` gives each case the paper's number and place.
#[derive(Clone, Copy)]
pub enum Refusal {
    Cut(usize),
    UnknownKind(usize),
    OutOfPlace(usize),
    Count(usize),
    Threshold(usize),
    Reference(usize),
    Chance(usize),
    Unused(usize),
    Room,
    Narrow(usize),
    Sited(usize),
}

// The same reason, as the calls above say it.
impl From<Refusal> for Refused {
    ghost from_gives = { λ a r. said r ≡ reason a };

    fn from(a: Refusal) -> Refused
        ensures { said result ≡ reason a }
    {
        let (why, place) = match a {
            Refusal::Cut(p) => (Why::CutShort, p),
            Refusal::UnknownKind(p) => (Why::UnknownKind, p),
            Refusal::OutOfPlace(p) => (Why::OutOfPlace, p),
            Refusal::Count(p) => (Why::Count, p),
            Refusal::Threshold(p) => (Why::Threshold, p),
            Refusal::Reference(p) => (Why::Reference, p),
            Refusal::Chance(p) => (Why::Chance, p),
            Refusal::Unused(p) => (Why::Unused, p),
            Refusal::Room => (Why::Length, 0),
            Refusal::Narrow(p) => (Why::Narrow, p),
            Refusal::Sited(p) => (Why::Sited, p),
        };
        Refused { why, place }
    }
}

// The paper's number and place of an answer: 0 where nothing is refused.
pub fn number<T>(answer: &Result<T, Refusal>) -> u8
    ensures { result ≡ (verdict answer.now).number }
{
    match answer {
        Ok(_) => 0,
        Err(Refusal::Cut(_)) => 1,
        Err(Refusal::UnknownKind(_)) => 2,
        Err(Refusal::OutOfPlace(_)) => 3,
        Err(Refusal::Count(_)) => 4,
        Err(Refusal::Threshold(_)) => 5,
        Err(Refusal::Reference(_)) => 6,
        Err(Refusal::Chance(_)) => 7,
        Err(Refusal::Unused(_)) => 8,
        Err(Refusal::Room) => 9,
        Err(Refusal::Narrow(_)) => 21,
        Err(Refusal::Sited(_)) => 22,
    }
}

pub fn place<T>(answer: &Result<T, Refusal>) -> usize
    ensures { result ≡ (verdict answer.now).place }
{
    match answer {
        Ok(_) | Err(Refusal::Room) => 0,
        Err(
            Refusal::Cut(p)
            | Refusal::UnknownKind(p)
            | Refusal::OutOfPlace(p)
            | Refusal::Count(p)
            | Refusal::Threshold(p)
            | Refusal::Reference(p)
            | Refusal::Chance(p)
            | Refusal::Unused(p)
            | Refusal::Narrow(p)
            | Refusal::Sited(p),
        ) => *p,
    }
}
