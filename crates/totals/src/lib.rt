// What a folder's totals are made of: what is judged before any tree, one tree's counts added, and what is written and cleared at the end.
#![tactic(auto)]

ghost use Rattle.std.specs.Prelude.{◌≡◌, true, ◌≤◌, length};
ghost use Rattle.paper.specs.Limits.{limits};
ghost use Rattle.paper.specs.Answers.{Unwritten};
ghost use Rattle.paper.specs.Lists.{sum};
ghost use Rattle.paper.specs.Refusals.{number, number_of};
ghost use Rattle.paper.specs.Sizes.{sizes as sizeCount};
ghost use Rattle.tables.specs.Flags.{Says};
ghost use Rattle.tables.specs.Table.{den};
ghost use Rattle.tables.specs.Lent.{Lent};
ghost use Rattle.sizes.specs.Counted.{Cleared};
ghost use Rattle.totals.specs.Fitting.{Fitting};
ghost use Rattle.totals.specs.Adding.{Areas, counts_of, numbers_of, Added, Due, Ends};

use paper::SIZES;
use paper::refusal::Refusal;

// The most trees of a folder.
const TREES: usize = 64;

// ---- before any tree

// Whether the lengths add up to a size, by what is left of it: no sum can wrap.
fn adds_up(lengths: &[usize], size: usize) -> bool
    ensures { Says result (sum lengths.now ≡ size) }
{
    let mut left = size;
    for n in lengths {
        let Some(rest) = left.checked_sub(*n) else {
            return false;
        };
        left = rest;
    }
    left == 0
}

// Whether nothing is refused before the first tree: otherwise 9.
pub fn is_fitting(
    bytes: &[u8],
    lengths: &[usize],
    cuts: &[u32],
    counts: &[u64],
    less: &[u64],
    work: &[u64],
    reached: &[u64],
) -> bool
    ensures { Says result (Fitting bytes.now lengths.now cuts.now counts.now less.now work.now reached.now) }
{
    lengths.len() <= TREES
        && adds_up(lengths, bytes.len())
        && sizes::lengths_ok(cuts, counts, less, work, reached)
}

// ---- one tree

// Adds the counts of one tree. None: some total is too large, and the list holds some sums.
fn add(totals: &mut [u64], counts: &[u64; SIZES]) -> Option<()>
    requires { length totals.old ≡ sizeCount }
    ensures { Added (numbers_of counts.now) totals.old totals.new result }
{
    for k in 0..SIZES {
        totals[k] = totals[k].checked_add(counts[k])?;
    }
    Some(())
}

// Counts the cuts of an analysed tree and adds them, where all has fitted before. None: some count or total is too large. The most events stand for the
// tree's own: a set has the same size among them.
pub fn add_tree(
    before: Option<()>,
    cuts: &[u32],
    count: usize,
    root: usize,
    totals: &mut [u64],
    less: &mut [u64],
    work: &mut [u64],
    reached: &mut [u64],
) -> Option<()>
    requires { (Lent true limits.events cuts.now count root) × (Areas cuts.now less.old work.old reached.old) × (length totals.old ≡ sizeCount) }
    ensures { Due (counts_of (den cuts.now root)) before totals.old totals.new result }
{
    before?;
    let mut counts = [0; SIZES];
    sizes::sizes(
        cuts,
        paper::EVENTS,
        count,
        root,
        &mut counts,
        less,
        work,
        reached,
    )
    .ok()?;
    add(totals, &counts)
}

// ---- the end

// Whether an analysis that is refused so has written nothing: its reading was refused, or a lent length.
fn is_unwritten(why: Refusal) -> bool
    ensures { Says result (Unwritten (number why)) }
{
    matches!(
        why,
        Refusal::CutShort
            | Refusal::UnknownKind
            | Refusal::OutOfPlace
            | Refusal::Count
            | Refusal::Threshold
            | Refusal::Reference
            | Refusal::Chance
            | Refusal::Unused
            | Refusal::Narrow
            | Refusal::Length
    )
}

// Whether it is the first tree's own and came before anything was written.
pub fn at_once(why: Refusal, tree: usize) -> bool
    ensures { Says result ((tree ≡ 0) × Unwritten (number why)) }
{
    tree == 0 && is_unwritten(why)
}

// The areas of the counting, zero to their last number.
pub fn clear_areas(less: &mut [u64], work: &mut [u64], reached: &mut [u64])
    ensures { Cleared less.old work.old reached.old less.new work.new reached.new }
{
    less.fill(0);
    work.fill(0);
    reached.fill(0);
}

// Where nothing is refused the totals are written, and otherwise the counts stay.
pub fn write_done(r: Result<(), Refusal>, totals: &[u64; SIZES], counts: &mut [u64])
    requires { sizeCount ≤ length counts.old }
    ensures { Ends (number_of r) counts.old totals.now counts.new }
{
    if r.is_ok() {
        counts[..SIZES].copy_from_slice(totals);
    }
}
