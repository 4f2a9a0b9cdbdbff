// The cuts that the review rule tells, for other languages.
ghost use Rattle.std.specs.Prelude.{◌≡◌, Result};
ghost use Rattle.paper.specs.Refusals.{number_of};
ghost use Rattle.paper.specs.declared.refusal.Refusal.{Refusal};
ghost use Rattle.listing.specs.Results.{count_of, used_of, last_of, finished_of};
ghost use Rattle.report.specs.Results.{edition_of, listed_of};
ghost use Rattle.report.specs.Answers.{Answered};
ghost use Rattle.report.specs.declared.Reported.{Reported};
ghost use Rattle.exported.specs.Numbers.{of_report};

use crate::ending::{REPORT, put};
use paper::refusal::Refusal;
use report::Reported;

// Puts the numbers of a report's answer into an array.
fn tell(r: Result<Reported, Refusal>, answer: &mut [u64; REPORT])
    ensures { answer.new ≡ of_report r }
{
    match r {
        Ok(Reported { edition, listed }) => {
            let head = [
                0,
                0,
                u64::from(edition),
                listed.count as u64,
                listed.used as u64,
                u64::from(listed.finished),
            ];
            put(&head, &listed.last, answer);
        }
        Err(why) => put(
            &[why.number() as u64, 0, 0, 0, 0, 0],
            &sets::empty(),
            answer,
        ),
    }
}

// Reports the cuts of a lent cut diagram that are reportable under an edition, from the beginning or after the set `s`. The answer: number, place, edition, cuts,
// bytes used, finished, and the last set's words.
#[unsafe(no_mangle)]
pub extern "C" fn matticklet_report(
    edition: u32,
    cuts: &[u32],
    events: usize,
    count: usize,
    root: usize,
    chances: &[u32],
    begin: bool,
    s: &[u64; sets::WORDS],
    room: &mut [u8],
    few: &mut [u32],
    picks: &mut [u32],
    answer: &mut [u64; REPORT],
)
    ensures { (r : Result Reported Refusal) × (Answered edition events cuts.now count root chances.now begin s.now room.old room.new few.old few.new picks.old picks.new (edition_of r) (number_of r) 0 (count_of (listed_of r)) (used_of (listed_of r)) (last_of (listed_of r)) (finished_of (listed_of r)) × (answer.new ≡ of_report r)) }
{
    let r = report::report(
        edition, cuts, events, count, root, chances, begin, *s, room, few, picks,
    );
    tell(r, answer);
}
