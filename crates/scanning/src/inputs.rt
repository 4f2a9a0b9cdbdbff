// The inputs of all names as numbers, one name after the other, as the walk reads them.
ghost use Rattle.std.specs.Prelude.{◌≡◌, true, ◌+◌, ◌<◌, ◌≤◌, length, drop, take};
ghost use Rattle.paper.specs.Lists.{every};
ghost use Rattle.paper.specs.Bytes.{parts};
ghost use Rattle.paper.specs.Texts.{lines_of};
ghost use Rattle.paper.specs.Equations.{has, dict_in, numbers, inputs_in};
ghost use Rattle.scanning.specs.Scanning.{RowAt, Gathered};
ghost use Rattle.scanning.specs.Judged.{Places, Site};
ghost use Rattle.scanning.specs.Filling.{Put, Flat};

use crate::definitions::line_of;
use crate::numbering::next_in_line;
use lines::Kind;
use names::{look, place};

// Puts the numbers of a row's names behind the first `used` inputs.
fn fill_row(
    text: &[u8],
    stop: usize,
    i: usize,
    sep: &[u8],
    heads: &[u32],
    next: &[u32],
    names: &[u32],
    count: u32,
    inputs: &mut [u32],
    used: usize,
) -> usize
    requires gathered { Gathered text.now names.now heads.now next.now count }
    requires row_at { RowAt text.now stop sep.now i }
    requires text_value { every (λ y. has y (dict_in (lines_of text.now))) (parts sep.now (drop i (take stop text.now))) ≡ true }
    requires text_in_bounds { used + length (parts sep.now (drop i (take stop text.now))) ≤ length inputs.old }
    ensures { Put (numbers (dict_in (lines_of text.now)) (parts sep.now (drop i (take stop text.now)))) inputs.old used inputs.new result }
{
    let mut u = used;
    let mut j = i;
    while j < stop {
        let to = next_in_line(text, stop, j, sep);
        inputs[u] = look(text, j, heads, next, names, count).unwrap();
        u += 1;
        j = to;
    }
    u
}

// Puts the inputs of the name with number `n` behind the first `u` of the row.
fn fill_name(
    text: &[u8],
    n: usize,
    heads: &[u32],
    next: &[u32],
    names: &[u32],
    count: u32,
    defs: &[u32],
    row: &mut [u32],
    u: usize,
) -> usize
    requires gathered { Gathered text.now names.now heads.now next.now count }
    requires site { Site text.now defs.now n }
    requires n_in_bounds { u + length (inputs_in (lines_of text.now) n) ≤ length row.old }
    ensures { Put (inputs_in (lines_of text.now) n) row.old u row.new result }
{
    let r = line_of(text, defs, n);
    let stop = r.stop;
    let Some(kind) = r.kind else {
        return u;
    };
    match kind {
        Kind::Chance(_) => u,
        Kind::Or(i) => fill_row(text, stop, i, b" or ", heads, next, names, count, row, u),
        Kind::And(i) => fill_row(text, stop, i, b" and ", heads, next, names, count, row, u),
        Kind::AtLeast(_, i) => fill_row(text, stop, i, b", ", heads, next, names, count, row, u),
    }
}

// The inputs of all names, as the walk reads them: how many there are. Those of name n stand from `starts[n]` on.
pub fn fill(
    text: &[u8],
    heads: &[u32],
    next: &[u32],
    names: &[u32],
    count: u32,
    defs: &[u32],
    starts: &mut [u32],
    inputs: &mut [u32],
) -> usize
    requires gathered { Gathered text.now names.now heads.now next.now count }
    requires places { Places text.now count defs.now }
    requires count_in_bounds { (count < length starts.old) × (length text.now ≤ length inputs.old) }
    ensures { Flat (inputs_in (lines_of text.now)) count starts.new inputs.new result }
{
    let c = place(count);
    starts[0] = 0;
    let mut used: usize = 0;
    for n in 0..c {
        used = fill_name(text, n, heads, next, names, count, defs, inputs, used);
        starts[n + 1] = used as u32;
    }
    used
}
