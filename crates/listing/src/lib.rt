// Lists the cuts of a cut diagram in order, as many as fit into a room: each from its set, the next from the path of the last.
#![tactic(auto)]

ghost use Rattle.std.specs.Prelude.{◌≡◌, true, ◌-◌, ◌*◌, ◌≤◌, ◌<◌, length, OnSome};
ghost use Rattle.paper.specs.Sets.{members};
ghost use Rattle.paper.specs.Listing.{set_bytes};
ghost use Rattle.paper.specs.Refusals.{number_of};
ghost use Rattle.sets.specs.Words.{words, set_of};
ghost use Rattle.sets.specs.Beside.{Between, Ahead, Line};
ghost use Rattle.tables.specs.Table.{den};
ghost use Rattle.tables.specs.Lent.{Lent};
ghost use Rattle.walk.specs.After.{to_list};
ghost use Rattle.listing.specs.Bytes.{Placed, SomeStand, SomeMember, Told, ReadBack, LastRead};
ghost use Rattle.listing.specs.Answers.{Answered};
ghost use Rattle.listing.specs.Calls.{Stopped, Listing};
ghost use Rattle.listing.specs.Results.{count_of, used_of, last_of, finished_of};

use paper::refusal::Refusal;

// A path has at most one node for each event.
pub const DEPTH: usize = paper::EVENTS;

// Writes a cut behind the `used` bytes, if it fits there, and says how many bytes it took. `ahead` and `line` are of the cut before,
// and `step` says what stayed.
pub fn put_next(
    set: &[u64; sets::WORDS],
    step: walk::Step,
    ahead: &mut [usize; sets::WORDS],
    line: &mut [u8; sets::LINE],
    room: &mut [u8],
    used: usize,
) -> Option<usize>
    requires { (length set.now ≡ words) × (used ≤ length room.old) × Between set.now step.low step.high × Ahead set.now step.low ahead.old × Line set.now step.low line.old × (step.kept ≡ length (members step.low (set_of set.now))) }
    ensures { Placed room.old used (set_bytes (length set.now * 64) (set_of set.now)) result room.new × Ahead set.now step.high ahead.new × OnSome result (Line set.now (length set.now * 64) line.new) }
{
    sets::write_cut(
        set,
        step.kept,
        step.low,
        step.high,
        ahead,
        line,
        &mut room[used..],
    )
}

// A member, and the bytes of its record.
#[derive(Clone, Copy)]
pub struct Member {
    pub event: usize,
    pub width: usize,
}

// The member whose record stands at `at`.
fn member_at(room: &[u8], at: usize) -> Member
    requires { SomeMember room.now at }
    ensures { Told room.now at result.event result.width }
{
    let low = usize::from(room[at + 1]);
    if room[at] == 0x21 {
        return Member {
            event: low,
            width: 2,
        };
    }
    let high = usize::from(room[at + 2]);
    Member {
        event: low + 256 * high,
        width: 3,
    }
}

// The set of the members that stand from `from` to `to`.
fn read_back(room: &[u8], from: usize, to: usize) -> [u64; sets::WORDS]
    requires { SomeStand room.now from to }
    ensures { ReadBack room.now from to result }
{
    let mut out = sets::empty();
    let mut at = from;
    while at < to {
        let m = member_at(room, at);
        sets::add(&mut out, m.event);
        at += m.width;
    }
    out
}

// The last set: that of the last cut, whose bytes run from `from` to `used`; the one that the call started after where there are none.
pub fn last_set(
    room: &[u8],
    from: usize,
    used: usize,
    base: [u64; sets::WORDS],
) -> [u64; sets::WORDS]
    requires { (from ≤ used) × (from < used → SomeStand room.now from (used - 1)) }
    ensures { LastRead room.now from used base result }
{
    if from == used {
        return base;
    }
    read_back(room, from, used - 1)
}

// What a listing call writes: the cuts, the bytes used, the last set, and whether no cut follows it.
#[derive(Clone, Copy, Debug, PartialEq, Eq)]
pub struct Listed {
    pub count: usize,
    pub used: usize,
    pub last: [u64; sets::WORDS],
    pub finished: bool,
}

// The answer where the next cut does not fit.
pub fn stopped(count: usize, used: usize, last: [u64; sets::WORDS]) -> Result<Listed, Refusal>
    ensures { Stopped count used last (number_of result) 0 (count_of result) (used_of result) (last_of result) (finished_of result) }
{
    if count == 0 {
        return Err(Refusal::Room);
    }
    Ok(Listed {
        count,
        used,
        last,
        finished: false,
    })
}

// Writes as many whole cuts as fit, in order: of all, or of those after the set `base`.
fn list_cuts(
    nodes: &[u32],
    n: usize,
    count: usize,
    root: usize,
    begin: bool,
    base: [u64; sets::WORDS],
    room: &mut [u8],
) -> Result<Listed, Refusal>
    requires { (Lent true n nodes.now count root) × (length base ≡ words) }
    ensures { Listing n (to_list n (den nodes.now root) begin base) (set_of base) room.old room.new (number_of result) 0 (count_of result) (used_of result) (last_of result) (finished_of result) }
{
    let mut path = [0u32; DEPTH];
    let mut set = sets::empty();
    let mut ahead = [0usize; sets::WORDS];
    let mut line = [0u8; sets::LINE];
    let mut next = walk::start(nodes, n, count, root, begin, &base, &mut path, &mut set);
    let mut from = 0;
    let mut used = 0;
    let mut k = 0;
    while let Some(step) = next {
        let Some(w) = put_next(&set, step, &mut ahead, &mut line, room, used) else {
            let last = last_set(room, from, used, base);
            return stopped(k, used, last);
        };
        from = used;
        used += w;
        k += 1;
        next = walk::advance(nodes, n, count, &mut path, &mut set, step.depth);
    }
    let last = last_set(room, from, used, base);
    Ok(Listed {
        count: k,
        used,
        last,
        finished: true,
    })
}

// Lists the cuts of a lent cut diagram, from the beginning or after the set `s`.
pub fn list(
    nodes: &[u32],
    n: usize,
    count: usize,
    root: usize,
    begin: bool,
    s: [u64; sets::WORDS],
    room: &mut [u8],
) -> Result<Listed, Refusal>
    ensures { Answered n nodes.now count root begin s room.old room.new (number_of result) 0 (count_of result) (used_of result) (last_of result) (finished_of result) }
{
    if !tables::is_diagram(nodes, n, count, root, true) {
        return Err(Refusal::NoDiagram);
    }
    if begin {
        return list_cuts(nodes, n, count, root, true, sets::empty(), room);
    }
    if sets::lowest(&s, n) < sets::MOST {
        return Err(Refusal::Beyond);
    }
    list_cuts(nodes, n, count, root, false, s, room)
}
