// The chances of a text's names, and its first wrong line.
ghost use Rattle.std.specs.Prelude.{◌+◌, ◌<◌, ◌≤◌, length};
ghost use Rattle.lines.specs.Reading.{name_at};
ghost use Rattle.scanning.specs.Scanning.{Gathered};
ghost use Rattle.scanning.specs.Judged.{Places, Giving, Passes, Tells, Gives};

use lines::{Kind, line};
use names::{look, place};

// Keeps the chance v of the name at `at + 2`, if that name may have one: whether it may not.
fn give_chance(
    text: &[u8],
    at: usize,
    v: u32,
    heads: &[u32],
    next: &[u32],
    names: &[u32],
    count: u32,
    defs: &[u32],
    marks: &mut [u32],
    chances: &mut [u32],
) -> bool
    requires gathered { Gathered text.now names.now heads.now next.now count }
    requires places { Places text.now count defs.now }
    requires at_in_bounds { (at + 2 ≤ length text.now) × (count ≤ length marks.old) × (count ≤ length chances.old) }
    ensures { Tells text.now count marks.old chances.old (name_at text.now (at + 2)) v marks.new chances.new result }
{
    let Some(f) = look(text, at + 2, heads, next, names, count) else {
        return true;
    };
    let n = place(f);
    if 0 < defs[n] {
        return true;
    }
    if 0 < marks[n] {
        return true;
    }
    marks[n] = 1;
    chances[n] = v;
    false
}

// Judges the line that begins at `at`: the place of the next one, or none where it is wrong.
fn give_line(
    text: &[u8],
    at: usize,
    heads: &[u32],
    next: &[u32],
    names: &[u32],
    count: u32,
    defs: &[u32],
    marks: &mut [u32],
    chances: &mut [u32],
) -> Option<usize>
    requires gathered { Gathered text.now names.now heads.now next.now count }
    requires places { Places text.now count defs.now }
    requires giving { Giving text.now count marks.old chances.old at }
    requires at_in_bounds { at < length text.now }
    ensures { Passes text.now count marks.new chances.new at result }
{
    let r = line(text, at);
    if let Kind::Chance(v) = r.kind? {
        if give_chance(text, at, v, heads, next, names, count, defs, marks, chances) {
            return None;
        }
    }
    Some(r.next)
}

// The names' chances, or the place of the first wrong line.
pub fn give(
    text: &[u8],
    heads: &[u32],
    next: &[u32],
    names: &[u32],
    count: u32,
    defs: &[u32],
    marks: &mut [u32],
    chances: &mut [u32],
) -> Result<(), usize>
    requires gathered { Gathered text.now names.now heads.now next.now count }
    requires places { Places text.now count defs.now }
    requires count_in_bounds { (count ≤ length marks.old) × (count ≤ length chances.old) }
    ensures { Gives text.now count chances.new result }
{
    marks.fill(0);
    chances.fill(0);
    let mut at = 0;
    while at < text.len() {
        let Some(to) = give_line(text, at, heads, next, names, count, defs, marks, chances) else {
            return Err(at);
        };
        at = to;
    }
    Ok(())
}
