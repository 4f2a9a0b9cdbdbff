// The bytes that a line of text stands for: two digits to a byte, and (..)xN for N times what stands between.
ghost use Rattle.std.specs.Prelude.{◌≤◌, ◌<◌, length, IfSome};
ghost use Rattle.reading.specs.Cursors.{Inside, Moved};

// Where the line stands, how many bytes it has given, and where the last group starts in them.
#[derive(Clone, Copy)]
pub struct Cursor {
    pub at: usize,
    pub bytes: usize,
    pub group: usize,
}

// A number in decimal, and where it ends.
#[derive(Clone, Copy)]
pub struct Repeat {
    pub value: usize,
    pub next: usize,
}

// What a digit stands for.
fn digit(c: u8) -> Option<u8>
    ensures { IfSome result (λ d. d < 16) }
{
    match c {
        b'0'..=b'9' => Some(c - b'0'),
        b'A'..=b'F' => Some(c - b'A' + 10),
        _ => None,
    }
}

// The number that stands at `from`, of at most five digits.
fn times(line: &[u8], from: usize) -> Repeat
    requires { from ≤ length line.now }
    ensures { (from ≤ result.next) × (result.value ≤ 99999) }
{
    let mut value: usize = 0;
    for at in from..line.len() {
        let c = line[at];
        if !c.is_ascii_digit() || 9999 < value {
            return Repeat { value, next: at };
        }
        value = value * 10 + usize::from(c - b'0');
    }
    Repeat {
        value,
        next: line.len(),
    }
}

// The last `size` of n bytes, gone on with for `more` bytes.
fn go_on(bytes: &mut [u8], n: usize, size: usize, more: usize) -> usize
    requires { (1 ≤ size) × (size ≤ n) × (n ≤ length bytes.old) }
    ensures { (n ≤ result) × (result ≤ length bytes.new) }
{
    let end = n.saturating_add(more).min(bytes.len());
    for i in n..end {
        bytes[i] = bytes[i - size];
    }
    end
}

// xN: the group, of at most 4,096 bytes, N times.
fn repeated(line: &[u8], bytes: &mut [u8], c: Cursor) -> Cursor
    requires { (c.at < length line.now) × Inside c bytes.old }
    ensures { Moved c result × Inside result bytes.new }
{
    let n = times(line, c.at + 1);
    let size = c.bytes - c.group;
    if 0 < size && size <= 4096 && 0 < n.value {
        let end = go_on(bytes, c.bytes, size, (n.value - 1) * size);
        return Cursor {
            at: n.next,
            bytes: end,
            ..c
        };
    }
    Cursor { at: n.next, ..c }
}

// One sign of the line, or two digits.
fn token(line: &[u8], bytes: &mut [u8], c: Cursor) -> Cursor
    requires { (c.at < length line.now) × Inside c bytes.old }
    ensures { Moved c result × Inside result bytes.new }
{
    let at = c.at;
    let n = c.bytes;
    if line[at] == b'(' {
        return Cursor {
            at: at + 1,
            group: n,
            ..c
        };
    }
    if line[at] == b'x' {
        return repeated(line, bytes, c);
    }
    if at + 1 < line.len() && n < bytes.len() {
        if let (Some(high), Some(low)) = (digit(line[at]), digit(line[at + 1])) {
            bytes[n] = 16 * high + low;
            return Cursor {
                at: at + 2,
                bytes: n + 1,
                ..c
            };
        }
    }
    Cursor { at: at + 1, ..c }
}

// Writes the bytes of a line to the front of bytes, as many as it has room for; answers how many they are.
pub fn parse(line: &[u8], bytes: &mut [u8]) -> usize
    ensures { result ≤ length bytes.new }
{
    let mut c = Cursor {
        at: 0,
        bytes: 0,
        group: 0,
    };
    while c.at < line.len() {
        c = token(line, bytes, c);
    }
    c.bytes
}
