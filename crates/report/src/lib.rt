// Reports the cuts of a cut diagram that the review rule tells, in the order of the listing, as many as fit into a room.
#![tactic(auto)]

ghost use Rattle.std.specs.Prelude.{◌≡◌, true, false, ◌-◌, ◌/◌, ◌<◌, length, replicate, MatchResult};
ghost use Rattle.paper.specs.Limits.{limits};
ghost use Rattle.paper.specs.Refusals.{number, number_of};
ghost use Rattle.paper.specs.Reports.{is_edition};
ghost use Rattle.sets.specs.Words.{words, set_of};
ghost use Rattle.tables.specs.Flags.{Says};
ghost use Rattle.tables.specs.Table.{den};
ghost use Rattle.tables.specs.Lent.{Lent};
ghost use Rattle.bracket.specs.Bracketed.{Chances};
ghost use Rattle.listing.specs.Calls.{Listing};
ghost use Rattle.listing.specs.Results.{count_of, used_of, last_of, finished_of};
ghost use Rattle.review.specs.Weights.{Weighed};
ghost use Rattle.report.specs.Answers.{to_report, Enough, Answered, Cleared};
ghost use Rattle.report.specs.Inner.{Begun, Fine, Judged};
ghost use Rattle.report.specs.Results.{edition_of, listed_of};

use listing::Listed;
use paper::refusal::Refusal;

// What a report writes, and under which edition.
#[derive(Clone, Copy, Debug, PartialEq, Eq)]
pub struct Reported {
    pub edition: u32,
    pub listed: Listed,
}

fn is_edition(edition: u32) -> bool
    ensures { result ≡ is_edition edition }
{
    if edition == 1 {
        return true;
    }
    edition == 2
}

// Whether there is a chance for each event, and a number in both work areas for each node that the table has room for.
fn enough(nodes: &[u32], n: usize, chances: &[u32], few: &[u32], picks: &[u32]) -> bool
    ensures { Says result (Enough n nodes.now chances.now few.now picks.now) }
{
    let capacity = nodes.len() / 3;
    if chances.len() < n {
        return false;
    }
    if few.len() < capacity {
        return false;
    }
    if picks.len() < capacity {
        return false;
    }
    true
}

// Writes as many whole reportable cuts as fit, in order: of all, or of those after the set `base`. The path and the set on it are empty.
// The loop of listing over another walk: with the step as a closure, what the step promises would be longer to state than the loop.
fn report_cuts(
    edition: u32,
    nodes: &[u32],
    n: usize,
    count: usize,
    root: usize,
    chances: &[u32],
    few: &[u32],
    picks: &[u32],
    path: &mut [u32],
    set: &mut [u64; sets::WORDS],
    begin: bool,
    base: [u64; sets::WORDS],
    room: &mut [u8],
) -> Result<Listed, Refusal>
    requires { (Lent true n nodes.now count root) × (length base ≡ words) × Weighed n chances.now nodes.now few.now picks.now count × (length path.old ≡ limits.events) × (set.old ≡ replicate words 0) }
    ensures { Listing n (to_report edition chances.now n (den nodes.now root) begin base) (set_of base) room.old room.new (number_of result) 0 (count_of result) (used_of result) (last_of result) (finished_of result) }
{
    let mut ahead = [0usize; sets::WORDS];
    let mut line = [0u8; sets::LINE];
    let mut next = review::start(
        nodes, n, count, root, begin, &base, chances, few, picks, edition, path, set,
    );
    let mut from = 0;
    let mut used = 0;
    let mut k = 0;
    while let Some(step) = next {
        let Some(w) = listing::put_next(set, step, &mut ahead, &mut line, room, used) else {
            let last = listing::last_set(room, from, used, base);
            return listing::stopped(k, used, last);
        };
        from = used;
        used += w;
        k += 1;
        let d = step.depth;
        next = review::advance(nodes, n, count, chances, few, picks, edition, path, set, d);
    }
    let last = listing::last_set(room, from, used, base);
    Ok(Listed {
        count: k,
        used,
        last,
        finished: true,
    })
}

// Weighs the nodes in the work areas, reports, and leaves zeros there.
fn report_from(
    edition: u32,
    nodes: &[u32],
    n: usize,
    count: usize,
    root: usize,
    chances: &[u32],
    begin: bool,
    base: [u64; sets::WORDS],
    room: &mut [u8],
    few: &mut [u32],
    picks: &mut [u32],
) -> Result<Listed, Refusal>
    requires { (Lent true n nodes.now count root) × (length base ≡ words) × Enough n nodes.now chances.now few.old picks.old × Chances n chances.now }
    ensures { Listing n (to_report edition chances.now n (den nodes.now root) begin base) (set_of base) room.old room.new (number_of result) 0 (count_of result) (used_of result) (last_of result) (finished_of result) × Cleared few.old few.new picks.old picks.new }
{
    let mut path = [0u32; listing::DEPTH];
    let mut set = sets::empty();
    review::weighing::weigh(nodes, n, count, chances, few, picks);
    let l = report_cuts(
        edition, nodes, n, count, root, chances, few, picks, &mut path, &mut set, begin, base, room,
    );
    few.fill(0);
    picks.fill(0);
    l
}

// The set that a call starts after: the empty one from the beginning.
fn start_of(begin: bool, s: [u64; sets::WORDS]) -> [u64; sets::WORDS]
    ensures { Begun begin s result }
{
    if begin {
        return sets::empty();
    }
    s
}

// Which rule is broken first, if any, for a start after the set `base`.
fn judged(
    edition: u32,
    nodes: &[u32],
    n: usize,
    count: usize,
    root: usize,
    chances: &[u32],
    few: &[u32],
    picks: &[u32],
    base: [u64; sets::WORDS],
) -> Result<(), Refusal>
    ensures { MatchResult result (λ ok. Fine edition n nodes.now count root chances.now few.now picks.now base) (λ why. Judged edition n nodes.now count root chances.now few.now picks.now base (number why)) }
{
    if !is_edition(edition) {
        return Err(Refusal::Edition);
    }
    if !tables::is_diagram(nodes, n, count, root, true) {
        return Err(Refusal::NoDiagram);
    }
    if !enough(nodes, n, chances, few, picks) {
        return Err(Refusal::Length);
    }
    if !bracket::chances_ok(chances, n) {
        return Err(Refusal::Chance);
    }
    if sets::lowest(&base, n) < sets::MOST {
        return Err(Refusal::Beyond);
    }
    Ok(())
}

// Reports the reportable cuts of a lent cut diagram of `n` events under an edition, from the beginning or after the set `s`. Each work area has a number for
// each node that the table has room for.
pub fn report(
    edition: u32,
    nodes: &[u32],
    n: usize,
    count: usize,
    root: usize,
    chances: &[u32],
    begin: bool,
    s: [u64; sets::WORDS],
    room: &mut [u8],
    few: &mut [u32],
    picks: &mut [u32],
) -> Result<Reported, Refusal>
    ensures { Answered edition n nodes.now count root chances.now begin s room.old room.new few.old few.new picks.old picks.new (edition_of result) (number_of result) 0 (count_of (listed_of result)) (used_of (listed_of result)) (last_of (listed_of result)) (finished_of (listed_of result)) }
{
    let base = start_of(begin, s);
    judged(edition, nodes, n, count, root, chances, few, picks, base)?;
    let listed = report_from(
        edition, nodes, n, count, root, chances, begin, base, room, few, picks,
    )?;
    Ok(Reported { edition, listed })
}
