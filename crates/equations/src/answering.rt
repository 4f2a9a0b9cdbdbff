// A text judged rule by rule, in the order of the numbers, and its tree.
ghost use Rattle.std.specs.Prelude.{◌≡◌, ◌<◌, ◌≤◌, length};
ghost use Rattle.paper.specs.Walks.{OneRoot};
ghost use Rattle.scanning.specs.Judged.{Places, Names};
ghost use Rattle.depthfirst.specs.Inputs.{inputs_of};
ghost use Rattle.depthfirst.specs.Answers.{AllInOrder};
ghost use Rattle.equations.specs.Lists.{lists};
ghost use Rattle.equations.specs.Imported.{imported_of};
ghost use Rattle.equations.specs.Knowing.{Blank, Ready, Cut, Known, Room, Climbed};
ghost use Rattle.equations.specs.Kinds.{kind_number, least_number, KindsOf};
ghost use Rattle.equations.specs.Judging.{Ends, Judged};

use crate::ImportError;
use crate::showing::{show_names, show_ring};
use depthfirst::{number, one_root, walk, walk_all};
use lines::Kind;
use paper::refusal::Refusal;
use planting::plant;
use records::Tree;
use scanning::definitions::line_of;
use scanning::inputs::fill;
use scanning::{Refusal as Unread, scan};

// ---- the kinds of gates

fn kind_number(kind: Option<Kind>) -> u32
    ensures { result ≡ kind_number kind }
{
    match kind {
        Some(Kind::And(_)) => 2,
        Some(Kind::AtLeast(..)) => 4,
        Some(Kind::Chance(_) | Kind::Or(_)) | None => 3,
    }
}

fn least_number(kind: Option<Kind>) -> u32
    ensures { result ≡ least_number kind }
{
    match kind {
        Some(Kind::AtLeast(k, _)) => k,
        _ => 0,
    }
}

// The kind of each name's gate and its k, by the line that defines it.
fn kinds_of(text: &[u8], defs: &[u32], count: u32, kinds: &mut [u32], leasts: &mut [u32])
    requires places { Places text.now count defs.now }
    requires count_in_bounds { (count ≤ length kinds.old) × (count ≤ length leasts.old) }
    ensures { KindsOf text.now count kinds.new leasts.new }
{
    for n in 0..count as usize {
        let kind = line_of(text, defs, n).kind;
        kinds[n] = kind_number(kind);
        leasts[n] = least_number(kind);
    }
}

// ---- the text judged

// The tree of the walk from the root, by the limits of a tree.
fn grown(
    text: &[u8],
    count: u32,
    starts: &[u32],
    rights: &[u32],
    order: &[u32],
    left: usize,
    names: &[u32],
    defs: &[u32],
    amounts: &[u32],
    numbers: &mut [u32],
    kinds: &mut [u32],
    leasts: &mut [u32],
    shown: &mut [u32],
) -> Result<Tree, ImportError>
    requires known { Known text.now count names.now defs.now amounts.now starts.now rights.now }
    requires room { Room count names.now amounts.now kinds.old numbers.old leasts.old order.now shown.old }
    requires climbed { Climbed starts.now rights.now count order.now left }
    ensures { Ends text.now shown.old shown.new (imported_of result) }
{
    number(starts, rights, count, order, left, numbers);
    kinds_of(text, defs, count, kinds, leasts);
    let tree = plant(
        starts, rights, count, order, left, amounts, numbers, kinds, leasts,
    )?;
    show_names(starts, rights, count, order, left, names, shown);
    Ok(tree)
}

// The walk from the root.
fn climbed(
    text: &[u8],
    count: u32,
    starts: &[u32],
    rights: &[u32],
    root: u32,
    names: &[u32],
    defs: &[u32],
    amounts: &[u32],
    heads: &mut [u32],
    next: &mut [u32],
    marks: &mut [u32],
    order: &mut [u32],
    shown: &mut [u32],
) -> Result<Tree, ImportError>
    requires known { Known text.now count names.now defs.now amounts.now starts.now rights.now }
    requires room { Room count names.now amounts.now marks.old heads.old next.old order.old shown.old }
    requires all_in_order { AllInOrder starts.now rights.now count order.old count }
    requires one_root { OneRoot (inputs_of starts.now rights.now) count root }
    ensures { Ends text.now shown.old shown.new (imported_of result) }
{
    // There is no ring any more.
    let Ok(left) = walk(starts, rights, count, root, marks, heads, next, order) else {
        unreachable!()
    };
    grown(
        text, count, starts, rights, order, left, names, defs, amounts, heads, marks, next, shown,
    )
}

// 18, then the tree.
fn rooted(
    text: &[u8],
    count: u32,
    starts: &[u32],
    rights: &[u32],
    names: &[u32],
    defs: &[u32],
    amounts: &[u32],
    heads: &mut [u32],
    next: &mut [u32],
    marks: &mut [u32],
    order: &mut [u32],
    shown: &mut [u32],
) -> Result<Tree, ImportError>
    requires known { Known text.now count names.now defs.now amounts.now starts.now rights.now }
    requires room { Room count names.now amounts.now marks.old heads.old next.old order.old shown.old }
    requires all_in_order { AllInOrder starts.now rights.now count order.old count }
    ensures { Ends text.now shown.old shown.new (imported_of result) }
{
    let Some(root) = one_root(starts, rights, count, marks) else {
        return Err(ImportError::from(Refusal::Roots));
    };
    climbed(
        text, count, starts, rights, root, names, defs, amounts, heads, next, marks, order, shown,
    )
}

// 17, with a ring, then the rest.
fn walked(
    text: &[u8],
    count: u32,
    starts: &[u32],
    rights: &[u32],
    names: &[u32],
    defs: &[u32],
    amounts: &[u32],
    heads: &mut [u32],
    next: &mut [u32],
    marks: &mut [u32],
    order: &mut [u32],
    ring: &mut [u32],
    shown: &mut [u32],
) -> Result<Tree, ImportError>
    requires known { Known text.now count names.now defs.now amounts.now starts.now rights.now }
    requires room { Room count names.now amounts.now marks.old heads.old next.old order.old shown.old }
    requires heads_in_bounds { (length heads.old ≤ length ring.old) × Blank ring.old }
    ensures { Judged text.now ring.old shown.old ring.new shown.new (imported_of result) }
{
    match walk_all(starts, rights, count, marks, heads, next, order) {
        Err(e) => {
            show_ring(heads, e.from, e.to, defs, ring);
            Err(ImportError {
                why: Refusal::Ring,
                line: 0,
                ring: e.to - e.from,
            })
        }
        Ok(_) => rooted(
            text, count, starts, rights, names, defs, amounts, heads, next, marks, order, shown,
        ),
    }
}

// The inputs as numbers, then the rest.
fn resolved(
    text: &[u8],
    count: u32,
    heads: &mut [u32],
    next: &mut [u32],
    names: &[u32],
    defs: &[u32],
    marks: &mut [u32],
    amounts: &[u32],
    starts: &mut [u32],
    rights: &mut [u32],
    order: &mut [u32],
    ring: &mut [u32],
    shown: &mut [u32],
) -> Result<Tree, ImportError>
    requires names { Names text.now names.now heads.old next.old count defs.now amounts.now }
    requires ready { Ready (length text.now) (lists heads.old next.old names.now defs.now marks.old amounts.now starts.old rights.old order.old ring.old shown.old) }
    ensures { Judged text.now ring.old shown.old ring.new shown.new (imported_of result) }
{
    let used = fill(text, heads, next, names, count, defs, starts, rights);
    walked(
        text,
        count,
        starts,
        &rights[..used],
        names,
        defs,
        amounts,
        heads,
        next,
        marks,
        order,
        ring,
        shown,
    )
}

// 15 and 16, then the rest.
pub fn judged(
    text: &[u8],
    heads: &mut [u32],
    next: &mut [u32],
    names: &mut [u32],
    defs: &mut [u32],
    marks: &mut [u32],
    amounts: &mut [u32],
    starts: &mut [u32],
    rights: &mut [u32],
    order: &mut [u32],
    ring: &mut [u32],
    shown: &mut [u32],
) -> Result<Tree, ImportError>
    requires ready { Ready (length text.now) (lists heads.old next.old names.old defs.old marks.old amounts.old starts.old rights.old order.old ring.old shown.old) }
    requires cut { Cut (length text.now) heads.old next.old names.old }
    ensures { Judged text.now ring.old shown.old ring.new shown.new (imported_of result) }
{
    let s = scan(text, heads, next, names, defs, marks, amounts);
    match s {
        Err(e) => match e {
            Unread::WrongLine(line) => Err(ImportError {
                why: Refusal::Line,
                line,
                ring: 0,
            }),
            Unread::DefinedTwice(line) => Err(ImportError {
                why: Refusal::LeftTwice,
                line,
                ring: 0,
            }),
        },
        Ok(count) => resolved(
            text, count, heads, next, names, defs, marks, amounts, starts, rights, order, ring,
            shown,
        ),
    }
}
