// Two listings compared, and a set of failures decided by one, for other languages.
ghost use Rattle.std.specs.Prelude.{◌≡◌, ◌-◌, ◌≤◌, Bool, Option, Result};
ghost use Rattle.paper.specs.Refusals.{number_of};
ghost use Rattle.paper.specs.declared.refusal.Refusal.{Refusal};
ghost use Rattle.sidebyside.specs.Finding.{Finds};
ghost use Rattle.sidebyside.specs.declared.Difference.{Difference};
ghost use Rattle.sidebyside.specs.declared.Side.{Side};
ghost use Rattle.sidebyside.specs.declared.Numbers.{Numbers};
ghost use Rattle.changes.specs.Answers.{Sides, compared_of, Compares};
ghost use Rattle.decision.specs.Answers.{fails_of, Decides};
ghost use Rattle.exported.specs.Numbers.{of_decided};
ghost use Rattle.exported.specs.TwoListings.{of_side, of_stretch, of_difference, of_compared};

use sidebyside::Side;

// The numbers of a side.
fn sided(w: Result<Option<Side>, Side>) -> [u64; 3]
    ensures { result ≡ of_side w }
{
    [
        sidebyside::number(w) as u64,
        sidebyside::place(w) as u64,
        sidebyside::listing(w) as u64,
    ]
}

// Whose the first cut is that stands in one listing only, or the fault. The answer: number, place, side.
#[unsafe(no_mangle)]
pub extern "C" fn matticklet_side(yesterday: &[u8], today: &[u8], answer: &mut [u64; 3])
    ensures { (w : Result (Option Side) Side) × (Sides yesterday.now today.now w × (answer.new ≡ of_side w)) }
{
    let w = changes::side(yesterday, today);
    *answer = sided(w);
}

// The numbers of a side, and of a stretch of its listing from `start` to `end`.
fn stretch(w: Result<Option<Side>, Side>, start: usize, end: usize) -> [u64; 5]
    requires { start ≤ end }
    ensures { result ≡ of_stretch w start (end - start) }
{
    let [number, place, listing] = sided(w);
    [number, place, listing, start as u64, (end - start) as u64]
}

// That cut as a stretch of its listing. The answer: number, place, side, offset, length.
#[unsafe(no_mangle)]
pub extern "C" fn matticklet_first_difference(yesterday: &[u8], today: &[u8], answer: &mut [u64; 5])
    ensures { (d : Result (Option Difference) Side) × (Finds yesterday.now today.now d × (answer.new ≡ of_difference d)) }
{
    match sidebyside::find(yesterday, today) {
        Ok(Some(d)) => *answer = stretch(Ok(Some(d.side)), d.start, d.end),
        Ok(None) => *answer = stretch(Ok(None), 0, 0),
        Err(side) => *answer = stretch(Err(side), 0, 0),
    }
}

// Counts the cuts gone, new and kept. The answer: number, place, side, gone, new, kept.
#[unsafe(no_mangle)]
pub extern "C" fn matticklet_compare(yesterday: &[u8], today: &[u8], answer: &mut [u64; 6])
    ensures { (c : Result Numbers Side) × (Compares yesterday.now today.now (compared_of c) × (answer.new ≡ of_compared (compared_of c))) }
{
    *answer = match changes::compare(yesterday, today) {
        Ok(n) => [0, 0, 0, n.gone as u64, n.new as u64, n.kept as u64],
        Err(side) => {
            let [number, place, listing] = sided(Err(side));
            [number, place, listing, 0, 0, 0]
        }
    };
}

// Whether a set of failed events contains a cut of a listing. The answer: number, place, fails.
#[unsafe(no_mangle)]
pub extern "C" fn matticklet_decides(
    listing: &[u8],
    events: usize,
    s: &[u64; sets::WORDS],
    answer: &mut [u64; 3],
)
    ensures { (d : Result Bool Refusal) × (Decides listing.now events s.now (number_of d) 0 (fails_of d) × (answer.new ≡ of_decided d)) }
{
    *answer = match decision::decides(listing, events, *s) {
        Ok(fails) => [0, 0, u64::from(fails)],
        Err(why) => [why.number() as u64, 0, 0],
    };
}
