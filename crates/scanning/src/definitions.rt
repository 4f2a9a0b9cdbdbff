// Where each name of a text is defined, and whether a left name stands twice.
ghost use Rattle.std.specs.Prelude.{◌≡◌, ◌<◌, ◌≤◌, length};
ghost use Rattle.scanning.specs.Scanning.{Gathered};
ghost use Rattle.scanning.specs.Judged.{is_equation, place_code, Defining, Defined, Site, ReadsOf};

use lines::{Kind, Read, line};
use names::{look, place};

fn is_equation(kind: Option<Kind>) -> bool
    ensures { result ≡ is_equation kind }
{
    matches!(kind, Some(Kind::Or(_) | Kind::And(_) | Kind::AtLeast(_, _)))
}

// How far the text is looked through, and the place of the first line whose left name stands twice.
#[derive(Clone, Copy)]
pub struct Told {
    pub next: usize,
    pub twice: Option<usize>,
}

// Keeps the place of the line that begins at `at` as its left name's, if it is an equation.
fn define_line(
    text: &[u8],
    at: usize,
    heads: &[u32],
    next: &[u32],
    names: &[u32],
    count: u32,
    defs: &mut [u32],
    twice: Option<usize>,
) -> Told
    requires gathered { Gathered text.now names.now heads.now next.now count }
    requires defining { Defining text.now count defs.old (place_code twice) at }
    requires at_in_bounds { at < length text.now }
    ensures { (at < result.next) × Defining text.now count defs.new (place_code result.twice) result.next }
{
    let r = line(text, at);
    let to = r.next;
    if !is_equation(r.kind) {
        return Told { next: to, twice };
    }
    let n = place(look(text, at, heads, next, names, count).unwrap());
    if defs[n] == 0 {
        defs[n] = (at + 1) as u32;
        return Told { next: to, twice };
    }
    Told {
        next: to,
        twice: twice.or(Some(at)),
    }
}

// Finds where each name is defined; answers the place of the first line whose left name stands twice.
pub fn define(
    text: &[u8],
    heads: &[u32],
    next: &[u32],
    names: &[u32],
    count: u32,
    defs: &mut [u32],
) -> Option<usize>
    requires gathered { Gathered text.now names.now heads.now next.now count }
    requires count_in_bounds { count ≤ length defs.old }
    ensures { Defined text.now count defs.new (place_code result) }
{
    defs.fill(0);
    let mut twice = None;
    let mut at = 0;
    while at < text.len() {
        let w = define_line(text, at, heads, next, names, count, defs, twice);
        twice = w.twice;
        at = w.next;
    }
    twice
}

// The line that defines the name with number `n`, read again: none where none does.
pub fn line_of(text: &[u8], defs: &[u32], n: usize) -> Read
    requires { Site text.now defs.now n }
    ensures { ReadsOf text.now defs.now n result.kind result.stop }
{
    let def = defs[n];
    if def == 0 {
        return Read {
            kind: None,
            stop: text.len(),
            next: text.len(),
        };
    }
    let at = place(def) - 1;
    line(text, at)
}
