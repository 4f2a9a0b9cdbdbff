// A set of events in words of 64 bits: bit i % 64 of word i / 64 is set exactly if event i is a member.
#![tactic(auto)]

ghost use Rattle.std.specs.Prelude.{◌≡◌, true, false, ◌++◌, ◌+◌, ◌*◌, ◌≤◌, ◌<◌, length, replicate, take, drop, OnSome};
ghost use Rattle.paper.specs.Sets.{put, members};
ghost use Rattle.paper.specs.Listing.{member, member_bytes, set_bytes};
ghost use Rattle.sets.specs.Words.{words, set_of, room, Few, size_of, Trail, Lowest};
ghost use Rattle.sets.specs.Bytes.{in_word, Put, Told, Spelled, Begun, Laid};
ghost use Rattle.sets.specs.Beside.{Between, Ahead, Line, Counted, bytes_by};

// A set that can hold every event of a tree has so many words, and holds so many events.
pub const WORDS: usize = paper::EVENTS / 64;

pub const MOST: usize = 64 * WORDS;

// So many bytes its members have at most.
pub const LINE: usize = 3 * MOST;

// The first word whose events' numbers take two bytes.
const WIDE: usize = paper::WIDE_FROM as usize / 64;

// The place of the lowest set bit of a word that is not 0.
fn low_bit(w: u64) -> usize
    requires { 0 < w }
    ensures { Trail w 64 result }
{
    w.trailing_zeros() as usize
}

// The empty set.
pub fn empty() -> [u64; WORDS]
    ensures { result ≡ replicate words 0 }
{
    [0u64; WORDS]
}

// Puts event `i` in.
pub fn add(ws: &mut [u64], i: usize)
    requires { i < room ws.old }
    ensures { set_of ws.new ≡ put i true (set_of ws.old) }
{
    let new = 1u64 << (i % 64);
    let k = i / 64;
    ws[k] |= new;
}

// Takes member `i` out.
pub fn remove(ws: &mut [u64], i: usize)
    requires { (i < room ws.old) × (set_of ws.old i ≡ true) }
    ensures { set_of ws.new ≡ put i false (set_of ws.old) }
{
    let old = 1u64 << (i % 64);
    let k = i / 64;
    ws[k] ^= old;
}

// The lowest member in the words from `from` on, or the room where there is none.
fn lowest_word(ws: &[u64], from: usize) -> usize
    requires { Few ws.now × (from ≤ length ws.now) }
    ensures { Lowest (set_of ws.now) (room ws.now) (from * 64) result }
{
    for k in from..ws.len() {
        let v = ws[k];
        if v != 0 {
            return k * 64 + low_bit(v);
        }
    }
    ws.len() * 64
}

// The lowest member from event `i` on, or the room where there is none.
pub fn lowest(ws: &[u64], i: usize) -> usize
    requires { Few ws.now }
    ensures { Lowest (set_of ws.now) (room ws.now) i result }
{
    let k = i / 64;
    if ws.len() <= k {
        return ws.len() * 64;
    }
    let w = ws[k] >> (i % 64);
    if w != 0 {
        return i + low_bit(w);
    }
    lowest_word(ws, k + 1)
}

// The number of members. Only the words from that of event `low` to that of event `high` are counted: `ahead` has how many stand ahead of the first of
// them, no member is above `high`, and `ahead` is right up to the word of `high` next.
fn recount(ws: &[u64], ahead: &mut [usize], low: usize, high: usize) -> usize
    requires { Few ws.now × Between ws.now low high × Ahead ws.now low ahead.old }
    ensures { (result ≡ size_of ws.now) × Ahead ws.now high ahead.new }
{
    let first = low / 64;
    let mut n = ahead[first] + ws[first].count_ones() as usize;
    for k in first + 1..high / 64 + 1 {
        ahead[k] = n;
        n += ws[k].count_ones() as usize;
    }
    n
}

// The bytes of the members below event `b`, of which there are `count`: two for each below event 256, three for each other. `ahead` has how many are below 256.
fn bytes_of(ahead: &[usize], count: usize, b: usize) -> usize
    requires { Counted ahead.now count b }
    ensures { result ≡ bytes_by ahead.now count b }
{
    if b <= paper::WIDE_FROM as usize {
        return 2 * count;
    }
    3 * count - ahead[WIDE]
}

// Writes the bytes of member `e` at `at`; answers where they end.
fn put_member(e: usize, room: &mut [u8], at: usize) -> usize
    requires { (e < 65536) × (at + length (member e) ≤ length room.old) }
    ensures { Put e at room.old room.new result }
{
    let low = (e % 256) as u8;
    if e < paper::WIDE_FROM as usize {
        room[at] = 0x21;
        room[at + 1] = low;
        return at + 2;
    }
    room[at] = 0x23;
    room[at + 1] = low;
    room[at + 2] = (e / 256) as u8;
    at + 3
}

// Writes the members that word `k` tells behind `at` bytes of the line and of the room that is left; answers where they end.
fn write_word(w: u64, k: usize, line: &mut [u8], left: &mut [u8], at: usize) -> usize
    requires { (k < 1024) × (at + length (member_bytes (in_word w (k * 64))) ≤ length line.old) × (at + length (member_bytes (in_word w (k * 64))) ≤ length left.old) }
    ensures { Told w (k * 64) at line.old line.new result × Told w (k * 64) at left.old left.new result }
{
    let mut v = w;
    let mut end = at;
    while v != 0 {
        let e = k * 64 + low_bit(v);
        put_member(e, line, end);
        end = put_member(e, left, end);
        v &= v - 1;
    }
    end
}

// Writes the members from event `low` on, of which none is above event `high`, behind those below it in the line and in the room that is left: there they are
// `at` bytes. Answers where all end.
fn write_from(
    ws: &[u64],
    low: usize,
    high: usize,
    line: &mut [u8],
    left: &mut [u8],
    at: usize,
) -> usize
    requires { Few ws.now × Between ws.now low high × Begun ws.now low line.old at × Begun ws.now low left.old at }
    ensures { Spelled ws.now line.old line.new (room ws.now) result × Spelled ws.now left.old left.new (room ws.now) result }
{
    let first = low / 64;
    let mut end = write_word(
        (ws[first] >> (low % 64)) << (low % 64),
        first,
        line,
        left,
        at,
    );
    for k in first + 1..high / 64 + 1 {
        end = write_word(ws[k], k, line, left, end);
    }
    end
}

// The first bytes of the line, `size` of them, at the front of the room that is left. By hand: `copy_from_slice`, of a length that is not fixed, would need
// `memmove` of the C library, and the archive for C asks it for no more than `memcpy` and `memset`.
fn copy(line: &[u8], left: &mut [u8], size: usize)
    requires { (size ≤ length line.now) × (size ≤ length left.old) }
    ensures { left.new ≡ take size line.now ++ drop size left.old }
{
    for k in 0..size {
        left[k] = line[k];
    }
}

// Writes a cut at the front of the room that is left, if it fits there, and says how many bytes it took. Ones give its size, below
// event 256 and from there on, and trailing zeros each member. Only the events from `low` to `high` may have changed since the cut before: ones are counted again
// in their words alone, and the members below `low`, which are `kept`, have their bytes in the line.
pub fn write_cut(
    ws: &[u64],
    kept: usize,
    low: usize,
    high: usize,
    ahead: &mut [usize],
    line: &mut [u8],
    left: &mut [u8],
) -> Option<usize>
    requires { Few ws.now × Between ws.now low high × Ahead ws.now low ahead.old × Line ws.now low line.old × (kept ≡ length (members low (set_of ws.now))) }
    ensures { Laid (set_bytes (room ws.now) (set_of ws.now)) left.old result left.new × Ahead ws.now high ahead.new × OnSome result (Line ws.now (room ws.now) line.new) }
{
    let size = recount(ws, ahead, low, high);
    let bytes = bytes_of(ahead, size, high + 1) + 1;
    if left.len() < bytes {
        return None;
    }
    let at = bytes_of(ahead, kept, low);
    copy(line, left, at);
    let end = write_from(ws, low, high, line, left, at);
    left[end] = 0x22;
    Some(end + 1)
}
