// The product's calls for other languages: numbers, slices (a pointer, then a length) and arrays (a pointer), the answer in a lent array.
#![tactic(auto)]

mod analysing; // a tree analysed, also under the settings of an edition
mod ending; // an answer whose numbers end in the words of a set
mod listings; // two listings compared
mod maintenance; // which events to keep sound
mod moving; // a tree with sites, and without
mod ranking; // which event matters most
mod reporting; // the cuts that the review rule tells

ghost use Rattle.std.specs.Prelude.{◌≡◌, [], ◌∷◌, Result};
ghost use Rattle.paper.specs.Refusals.{number_of};
ghost use Rattle.paper.specs.declared.refusal.Refusal.{Refusal};
ghost use Rattle.paper.specs.Limits.{limits};
ghost use Rattle.records.specs.Judge.{outcome};
ghost use Rattle.records.specs.Memory.{in_memory};
ghost use Rattle.writing.specs.Writes.{write_of, wrote};
ghost use Rattle.listing.specs.Answers.{Answered};
ghost use Rattle.listing.specs.Results.{count_of, used_of, last_of, finished_of};
ghost use Rattle.listing.specs.declared.Listed.{Listed};
ghost use Rattle.bracket.specs.Answers.{low_of, high_of};
ghost use Rattle.bracket.specs.Bracketed.{Bracketed};
ghost use Rattle.bracket.specs.declared.Ends.{Ends};
ghost use Rattle.exporting.specs.Exports.{export_of};
ghost use Rattle.equations.specs.Lists.{lists};
ghost use Rattle.equations.specs.Contract.{Imports};
ghost use Rattle.equations.specs.Imported.{Imported};
ghost use Rattle.sizes.specs.Counted.{Counted};
ghost use Rattle.folder.specs.Contract.{lent, lends, Gathers};
ghost use Rattle.folder.specs.Gathered.{Gathered};
ghost use Rattle.arrays.specs.Chances.{Blank};
ghost use Rattle.exported.specs.Arrays.{arrays, tree_from, filled, after};
ghost use Rattle.exported.specs.Numbers.{of_reading, of_writing, of_listing, of_bracket, of_import, of_tally, of_gathered};

use arrays::{events_of, put_events};
use paper::refusal::Refusal;
use paper::{EVENTS, GATES, IN_ALL};
use records::Tree;

// Puts a tree, whose events are all zero from the count on, into six arrays where the number is 0.
fn fill(
    number: u8,
    count: usize,
    t: Tree,
    chances: &mut [u32; EVENTS],
    sites: &mut [u16; EVENTS],
    kinds: &mut [u8; GATES],
    leasts: &mut [u8; GATES],
    sizes: &mut [u8; GATES],
    inputs: &mut [u16; IN_ALL],
)
    requires { Blank t.events count }
    ensures { arrays chances.new sites.new kinds.new leasts.new sizes.new inputs.new ≡ filled number t (arrays chances.old sites.old kinds.old leasts.old sizes.old inputs.old) }
{
    if number == 0 {
        let events = t.events;
        put_events(events, count, chances, sites);
        kinds.copy_from_slice(&t.kinds);
        leasts.copy_from_slice(&t.leasts);
        sizes.copy_from_slice(&t.sizes);
        inputs.copy_from_slice(&t.inputs);
    }
}

// The tree that is its two counts, its form and six arrays.
fn tree_from(
    events: usize,
    gates: usize,
    sited: bool,
    chances: &[u32; EVENTS],
    sites: &[u16; EVENTS],
    kinds: &[u8; GATES],
    leasts: &[u8; GATES],
    sizes: &[u8; GATES],
    inputs: &[u16; IN_ALL],
) -> Tree
    ensures { result ≡ tree_from events gates sited (arrays chances.now sites.now kinds.now leasts.now sizes.now inputs.now) }
{
    let all = events_of(chances, sites);
    Tree {
        events: all,
        event_count: events,
        sited,
        kinds: *kinds,
        leasts: *leasts,
        sizes: *sizes,
        gate_count: gates,
        inputs: *inputs,
    }
}

// Reads a tree into six arrays. The answer: number, place, events, gates, and whether its records have sites. A refusal leaves the arrays as they are.
#[unsafe(no_mangle)]
pub extern "C" fn matticklet_read(
    bytes: &[u8],
    answer: &mut [u64; 5],
    chances: &mut [u32; EVENTS],
    sites: &mut [u16; EVENTS],
    kinds: &mut [u8; GATES],
    leasts: &mut [u8; GATES],
    sizes: &mut [u8; GATES],
    inputs: &mut [u16; IN_ALL],
)
    ensures answer_after { answer.new ≡ of_reading (in_memory (outcome limits bytes.now)) }
    ensures inputs_after { arrays chances.new sites.new kinds.new leasts.new sizes.new inputs.new ≡ after (in_memory (outcome limits bytes.now)) (arrays chances.old sites.old kinds.old leasts.old sizes.old inputs.old) }
{
    // The analyser's own call would hand the tree on once more.
    let r = records::read(bytes);
    let number = rules::number(&r) as u64;
    let place = rules::place(&r) as u64;
    let Ok(t) = r else {
        *answer = [number, place, 0, 0, 0];
        return;
    };
    *answer = [
        0,
        0,
        t.event_count as u64,
        t.gate_count as u64,
        t.sited as u64,
    ];
    fill(
        0,
        t.event_count,
        t,
        chances,
        sites,
        kinds,
        leasts,
        sizes,
        inputs,
    );
}

// The numbers of what was written: number, place, bytes.
fn numbers_of(w: Result<usize, rules::Refusal>) -> [u64; 3]
    ensures { result ≡ of_writing (wrote w []) }
{
    let number = rules::number(&w) as u64;
    let place = rules::place(&w) as u64;
    match w {
        Ok(n) => [0, 0, n as u64],
        Err(_) => [number, place, 0],
    }
}

// Writes the bytes of the tree in six arrays to the front of room. The answer: number, place, bytes.
#[unsafe(no_mangle)]
pub extern "C" fn matticklet_write(
    events: usize,
    gates: usize,
    sited: bool,
    chances: &[u32; EVENTS],
    sites: &[u16; EVENTS],
    kinds: &[u8; GATES],
    leasts: &[u8; GATES],
    sizes: &[u8; GATES],
    inputs: &[u16; IN_ALL],
    room: &mut [u8],
    answer: &mut [u64; 3],
)
    ensures answer_after { answer.new ≡ of_writing (write_of limits (tree_from events gates sited (arrays chances.now sites.now kinds.now leasts.now sizes.now inputs.now)) room.old) }
    ensures room_after { room.new ≡ (write_of limits (tree_from events gates sited (arrays chances.now sites.now kinds.now leasts.now sizes.now inputs.now)) room.old).room }
{
    let tree = tree_from(
        events, gates, sited, chances, sites, kinds, leasts, sizes, inputs,
    );
    let w = analyser::write(tree, room);
    *answer = numbers_of(w);
}

// Lists the cuts of a lent cut diagram, from the beginning or after the set `s`. The answer: number, place, cuts, bytes used, finished, and
// the last set's words.
#[unsafe(no_mangle)]
pub extern "C" fn matticklet_list(
    cuts: &[u32],
    events: usize,
    count: usize,
    root: usize,
    begin: bool,
    s: &[u64; sets::WORDS],
    room: &mut [u8],
    answer: &mut [u64; ending::LISTING],
)
    ensures { (r : Result Listed Refusal) × (Answered events cuts.now count root begin s.now room.old room.new (number_of r) 0 (count_of r) (used_of r) (last_of r) (finished_of r) × (answer.new ≡ of_listing r)) }
{
    match analyser::list(cuts, events, count, root, begin, *s, room) {
        Ok(l) => {
            let head = [0, 0, l.count as u64, l.used as u64, u64::from(l.finished)];
            ending::put(&head, &l.last, answer);
        }
        Err(why) => ending::put(&[why.number() as u64, 0, 0, 0, 0], &sets::empty(), answer),
    }
}

// The number and place of a call whose refusals have place 0.
fn plain(r: Result<(), Refusal>) -> [u64; 2]
    ensures { result ≡ number_of r ∷ 0 ∷ [] }
{
    match r {
        Ok(()) => [0, 0],
        Err(why) => [why.number() as u64, 0],
    }
}

// Encloses the chance of the root of a lent diagram. The answer: number, place, low, high.
#[unsafe(no_mangle)]
pub extern "C" fn matticklet_bracket(
    nodes: &[u32],
    events: usize,
    count: usize,
    root: usize,
    chances: &[u32],
    lows: &mut [u32],
    highs: &mut [u32],
    answer: &mut [u64; 4],
)
    ensures { (r : Result Ends Refusal) × (Bracketed events nodes.now count root chances.now (number_of r) 0 (low_of r) (high_of r) lows.old highs.old lows.new highs.new × (answer.new ≡ of_bracket r)) }
{
    let r = analyser::bracket(nodes, events, count, root, chances, lows, highs);
    *answer = match r {
        Ok(ends) => [0, 0, ends.low, ends.high],
        Err(why) => [why.number() as u64, 0, 0, 0],
    };
}

// Reads typed equations into five arrays. The answer: number, place, line, ring, events, gates. A refusal leaves the arrays as they are.
#[unsafe(no_mangle)]
pub extern "C" fn matticklet_import(
    text: &[u8],
    heads: &mut [u32],
    next: &mut [u32],
    names: &mut [u32],
    defs: &mut [u32],
    marks: &mut [u32],
    amounts: &mut [u32],
    starts: &mut [u32],
    rights: &mut [u32],
    order: &mut [u32],
    ring: &mut [u32],
    shown: &mut [u32],
    answer: &mut [u64; 6],
    chances: &mut [u32; EVENTS],
    sites: &mut [u16; EVENTS],
    kinds: &mut [u8; GATES],
    leasts: &mut [u8; GATES],
    sizes: &mut [u8; GATES],
    inputs: &mut [u16; IN_ALL],
)
    ensures { (a : Imported) × (Imports text.now (lists heads.old next.old names.old defs.old marks.old amounts.old starts.old rights.old order.old ring.old shown.old) (lists heads.new next.new names.new defs.new marks.new amounts.new starts.new rights.new order.new ring.new shown.new) a × ((answer.new ≡ of_import a) × (arrays chances.new sites.new kinds.new leasts.new sizes.new inputs.new ≡ filled a.number a.tree (arrays chances.old sites.old kinds.old leasts.old sizes.old inputs.old)))) }
{
    let imported = equations::import(
        text, heads, next, names, defs, marks, amounts, starts, rights, order, ring, shown,
    );
    match imported {
        Ok(t) => {
            *answer = [0, 0, 0, 0, t.event_count as u64, t.gate_count as u64];
            fill(0, EVENTS, t, chances, sites, kinds, leasts, sizes, inputs);
        }
        Err(e) => {
            *answer = [e.why.number() as u64, 0, e.line as u64, e.ring as u64, 0, 0];
        }
    }
}

// Types the tree in six arrays to the front of room. The answer: number, place, bytes.
#[unsafe(no_mangle)]
pub extern "C" fn matticklet_export(
    events: usize,
    gates: usize,
    sited: bool,
    chances: &[u32; EVENTS],
    sites: &[u16; EVENTS],
    kinds: &[u8; GATES],
    leasts: &[u8; GATES],
    sizes: &[u8; GATES],
    inputs: &[u16; IN_ALL],
    room: &mut [u8],
    answer: &mut [u64; 3],
)
    ensures answer_after { answer.new ≡ of_writing (export_of limits (tree_from events gates sited (arrays chances.now sites.now kinds.now leasts.now sizes.now inputs.now)) room.old) }
    ensures room_after { room.new ≡ (export_of limits (tree_from events gates sited (arrays chances.now sites.now kinds.now leasts.now sizes.now inputs.now)) room.old).room }
{
    let tree = tree_from(
        events, gates, sited, chances, sites, kinds, leasts, sizes, inputs,
    );
    let w = equations::export(tree, room);
    *answer = numbers_of(w);
}

// Counts the sets of a lent cut diagram by size. The answer: number, place.
#[unsafe(no_mangle)]
pub extern "C" fn matticklet_sizes(
    cuts: &[u32],
    events: usize,
    count: usize,
    root: usize,
    counts: &mut [u64],
    less: &mut [u64],
    work: &mut [u64],
    reached: &mut [u64],
    answer: &mut [u64; 2],
)
    ensures { (r : Result (Unit {0}) Refusal) × (Counted events cuts.now count root (number_of r) 0 counts.old less.old work.old reached.old counts.new less.new work.new reached.new × (answer.new ≡ of_tally r)) }
{
    let r = sizes::sizes(cuts, events, count, root, counts, less, work, reached);
    *answer = plain(r);
}

// Counts the cuts of a folder's trees by size. The answer: number, place, tree.
#[unsafe(no_mangle)]
pub extern "C" fn matticklet_folder(
    bytes: &[u8],
    lengths: &[usize],
    nodes: &mut [u32],
    cuts: &mut [u32],
    gates: &mut [u32],
    memo: &mut [u32],
    heads: &mut [u32],
    next: &mut [u32],
    marks: &mut [u32],
    own: &mut [u32],
    counts: &mut [u64],
    less: &mut [u64],
    work: &mut [u64],
    reached: &mut [u64],
    answer: &mut [u64; 3],
)
    ensures { (r : Gathered) × (Gathers bytes.now lengths.now (lends (lent nodes.old cuts.old gates.old memo.old heads.old next.old marks.old own.old) less.old work.old reached.old) counts.old (lends (lent nodes.new cuts.new gates.new memo.new heads.new next.new marks.new own.new) less.new work.new reached.new) counts.new r × (answer.new ≡ of_gathered r)) }
{
    let r = folder::folder(
        bytes, lengths, nodes, cuts, gates, memo, heads, next, marks, own, counts, less, work,
        reached,
    );
    *answer = match r {
        Ok(()) => [0, 0, 0],
        Err(refused) => [
            refused.why.number() as u64,
            refused.place as u64,
            refused.tree as u64,
        ],
    };
}
