// One line of a text judged by the grammar, over a slice and with no copies. Places are offsets in the text.
#![tactic(auto)]

ghost use Rattle.std.specs.Prelude.{◌≡◌, true, ◌+◌, ◌<◌, ◌≤◌, length, drop};
ghost use Rattle.paper.specs.Bytes.{digit, letter_or_digit, in_line, lead, starts as starts_with, same};
ghost use Rattle.paper.specs.Grammar.{reserved, is_name, is_number, value as value_of, is_row, counted_of, right_of, chance_of, line_of};
ghost use Rattle.lines.specs.Reading.{name_at, Ends, Divides, Capped, Reads, ReadsAt, Steps};

// What a line says: a chance, or an equation, with the place of its first right name. A number is capped at 2^32 - 1.
#[derive(Clone, Copy)]
pub enum Kind {
    Chance(u32),
    Or(usize),
    And(usize),
    AtLeast(u32, usize),
}

// A line, or none in the grammar; the place of its line feed or the text's end; and the place of the next line.
#[derive(Clone, Copy)]
pub struct Read {
    pub kind: Option<Kind>,
    pub stop: usize,
    pub next: usize,
}

// Where the letters and digits from `i` on end.
pub fn name_end(s: &[u8], i: usize) -> usize
    requires { i ≤ length s.now }
    ensures { Ends letter_or_digit s.now i result }
{
    i + s[i..]
        .iter()
        .take_while(|b| b.is_ascii_alphanumeric())
        .count()
}

// Where the digits from `i` on end.
pub fn digits_end(s: &[u8], i: usize) -> usize
    requires { i ≤ length s.now }
    ensures { Ends digit s.now i result }
{
    i + s[i..].iter().take_while(|b| b.is_ascii_digit()).count()
}

// Where the line that `i` is in ends: its line feed, or the text's end.
pub fn line_end(s: &[u8], i: usize) -> usize
    requires { i ≤ length s.now }
    ensures { Ends in_line s.now i result }
{
    i + s[i..].iter().take_while(|b| **b != b'\n').count()
}

// Whether `w` stands at `i`.
pub fn starts(s: &[u8], i: usize, w: &[u8]) -> bool
    requires { i ≤ length s.now }
    ensures { result ≡ starts_with w.now (drop i s.now) }
{
    s[i..].starts_with(w)
}

// Whether the letters and digits from `i` to `e` are the word.
pub fn is_word(s: &[u8], i: usize, e: usize, w: &[u8]) -> bool
    requires { Ends letter_or_digit s.now i e }
    ensures { result ≡ same (name_at s.now i) w.now }
{
    &s[i..e] == w
}

// Whether they are a word that is no name.
fn is_reserved(s: &[u8], i: usize, e: usize) -> bool
    requires { Ends letter_or_digit s.now i e }
    ensures { result ≡ reserved (name_at s.now i) }
{
    is_word(s, i, e, b"and")
        || is_word(s, i, e, b"or")
        || is_word(s, i, e, b"at")
        || is_word(s, i, e, b"in")
        || is_word(s, i, e, b"p")
}

// Whether they are a name.
pub fn is_name(s: &[u8], i: usize, e: usize) -> bool
    requires { Ends letter_or_digit s.now i e }
    ensures { result ≡ is_name (name_at s.now i) }
{
    i < e && e - i <= 12 && s[i].is_ascii_alphabetic() && !is_reserved(s, i, e)
}

// Whether the digits from `i` to `e` are a number.
pub fn is_number(s: &[u8], i: usize, e: usize) -> bool
    requires { Ends digit s.now i e }
    ensures { result ≡ is_number (lead digit (drop i s.now)) }
{
    e - i == 1 || (i < e && b'1' <= s[i])
}

// The value of the digits from `i` to `e`, capped at 2^32 - 1.
pub fn value(s: &[u8], i: usize, e: usize) -> u32
    requires { Ends digit s.now i e }
    ensures { Capped (value_of (lead digit (drop i s.now))) result }
{
    let mut n: u32 = 0;
    for b in &s[i..e] {
        n = n.saturating_mul(10).saturating_add(u32::from(*b - b'0'));
    }
    n
}

// Whether names stand from `i` to the end, with `sep` between each and the next.
pub fn row(s: &[u8], i: usize, sep: &[u8]) -> bool
    requires i_in_bounds { i ≤ length s.now }
    requires divides { Divides letter_or_digit sep.now }
    ensures { result ≡ is_row sep.now (drop i s.now) }
{
    let mut j = i;
    loop {
        let e = name_end(s, j);
        if !is_name(s, j, e) {
            return false;
        }
        if e == s.len() {
            return true;
        }
        if !starts(s, e, sep) {
            return false;
        }
        j = e + sep.len();
    }
}

// The place of the name behind that at `i`, or the end.
pub fn next_name(s: &[u8], i: usize, sep: &[u8]) -> usize
    requires i_in_bounds { i ≤ length s.now }
    requires divides { Divides letter_or_digit sep.now }
    requires s_value { is_row sep.now (drop i s.now) ≡ true }
    ensures { Steps sep.now s.now i result }
{
    let e = name_end(s, i);
    if e == s.len() {
        return e;
    }
    e + sep.len()
}

// The line `p c 5000` that begins at `at`.
fn chance(s: &[u8], at: usize) -> Option<Kind>
    requires { at + 2 ≤ length s.now }
    ensures { Reads s.now (chance_of (drop (at + 2) s.now)) (name_at s.now at) at result }
{
    let i = at + 2;
    let e = name_end(s, i);
    if !is_name(s, i, e) {
        return None;
    }
    if !starts(s, e, b" ") {
        return None;
    }
    let j = e + 1;
    let d = digits_end(s, j);
    if d < s.len() {
        return None;
    }
    if !is_number(s, j, d) {
        return None;
    }
    Some(Kind::Chance(value(s, j, d)))
}

// The right side of an equation from its number on, `k in u, v`.
fn counted(s: &[u8], at: usize, i: usize) -> Option<Kind>
    requires { (at < i) × (i ≤ length s.now) }
    ensures { Reads s.now (counted_of (name_at s.now at) (drop i s.now)) (name_at s.now at) at result }
{
    let d = digits_end(s, i);
    if !is_number(s, i, d) {
        return None;
    }
    if !starts(s, d, b" in ") {
        return None;
    }
    let j = d + 4;
    if !row(s, j, b", ") {
        return None;
    }
    Some(Kind::AtLeast(value(s, i, d), j))
}

// The right side, from `i` on, of the equation that begins at `at`.
fn right(s: &[u8], at: usize, i: usize) -> Option<Kind>
    requires { (at < i) × (i ≤ length s.now) }
    ensures { Reads s.now (right_of (name_at s.now at) (drop i s.now)) (name_at s.now at) at result }
{
    if starts(s, i, b"at-least ") {
        let j = i + 9;
        return counted(s, at, j);
    }
    if row(s, i, b" or ") {
        return Some(Kind::Or(i));
    }
    if row(s, i, b" and ") {
        return Some(Kind::And(i));
    }
    None
}

// What the line from `at` to the end of `s` says.
pub fn judge(s: &[u8], at: usize) -> Option<Kind>
    requires { at ≤ length s.now }
    ensures { Reads s.now (line_of (drop at s.now)) (name_at s.now at) at result }
{
    if starts(s, at, b"p ") {
        return chance(s, at);
    }
    let e = name_end(s, at);
    if !is_name(s, at, e) {
        return None;
    }
    if !starts(s, e, b" = ") {
        return None;
    }
    let i = e + 3;
    right(s, at, i)
}

// The line of the text that begins at `at`.
pub fn line(text: &[u8], at: usize) -> Read
    requires { at < length text.now }
    ensures { ReadsAt text.now at result.kind result.stop result.next }
{
    let stop = line_end(text, at);
    if stop == text.len() {
        return Read {
            kind: None,
            stop,
            next: stop,
        };
    }
    let kind = judge(&text[..stop], at);
    Read {
        kind,
        stop,
        next: stop + 1,
    }
}
