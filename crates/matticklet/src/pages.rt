// The lines of the cuts, one room after another.
ghost use Rattle.std.specs.Prelude.{true};
ghost use Rattle.tables.specs.Table.{den};
ghost use Rattle.tables.specs.Lent.{Lent};
ghost use Rattle.listing.specs.Answers.{GoodStart};
ghost use Rattle.matticklet.specs.Pages.{Page};

use std::io;

// A room of a listing, and the text that it can come to: at most three bytes for each byte, and a number to spare.
const ROOM: usize = 16384;

const TEXT: usize = 49172;

// A page: the bytes of its text, the last set, and whether no cut follows.
#[derive(Clone, Copy)]
pub struct Turned {
    pub text: usize,
    pub last: [u64; sets::WORDS],
    pub finished: bool,
}

// Puts the lines of the next cuts into the text.
fn page(
    cuts: &[u32],
    events: usize,
    count: usize,
    root: usize,
    begin: bool,
    s: [u64; sets::WORDS],
    text: &mut [u8; TEXT],
) -> Turned
    requires lent { Lent true events cuts.now count root }
    requires good_start { GoodStart events begin s }
    ensures { Page events (den cuts.now root) begin s text.new result.text result.last result.finished }
{
    let mut room = [0u8; ROOM];
    let r = followup::next_room(cuts, events, count, root, begin, s, &mut room);
    let used = r.used;
    let n = text::cuts::spell(&room, used, text);
    let last = r.last;
    Turned {
        text: n,
        last,
        finished: r.finished,
    }
}

// Writes a line for each cut: all of them could be written, or an error. It ends because the cuts that are left grow fewer.
pub fn say_cuts(
    rt: &impl Print,
    cuts: &[u32],
    events: usize,
    count: usize,
    root: usize,
) -> io::Result<()>
    requires { Lent true events cuts.now count root }
{
    let mut text = [0u8; TEXT];
    let mut begin = true;
    let mut s = sets::empty();
    loop {
        let p = page(cuts, events, count, root, begin, s, &mut text);
        let n = p.text;
        rt.write_all(&text[..n])?;
        if p.finished {
            return Ok(());
        }
        begin = false;
        s = p.last;
    }
}
