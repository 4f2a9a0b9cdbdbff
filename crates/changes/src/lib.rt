// What changed from yesterday's listing to today's: the first cut that stands in one only, its side, and the numbers gone, new and kept.
#![tactic(auto)]

ghost use Rattle.changes.specs.Answers.{Sides, Part, Compares, compared_of};

use sidebyside::{Numbers, Side};

// The bytes of the first cut that stands in one listing and not in the other, as they stand there; none where the listings are equal or one is bad.
pub fn first_difference<'a>(yesterday: &'a [u8], today: &'a [u8]) -> &'a [u8]
    ensures { Part yesterday.now today.now result.now }
{
    match sidebyside::find(yesterday, today) {
        Ok(Some(d)) => match d.side {
            Side::Yesterday => &yesterday[d.start..d.end],
            Side::Today => &today[d.start..d.end],
        },
        Ok(None) => &yesterday[0..0],
        Err(_) => &yesterday[0..0],
    }
}

// The side of that cut, if there is one, or of the fault.
pub fn side(yesterday: &[u8], today: &[u8]) -> Result<Option<Side>, Side>
    ensures { Sides yesterday.now today.now result }
{
    let d = sidebyside::find(yesterday, today)?;
    Ok(d.map(|d| d.side))
}

// How many cuts are gone, how many are new, and how many are kept; or whose fault refuses.
pub fn compare(yesterday: &[u8], today: &[u8]) -> Result<Numbers, Side>
    ensures { Compares yesterday.now today.now (compared_of result) }
{
    sidebyside::tally(yesterday, today)
}
