// The product's calls one after another, for a program: the tables of a done analysis are listed room by room and bracketed, and never refused.
#![tactic(auto)]

ghost use Rattle.std.specs.Prelude.{true, ◌≤◌, ◌/◌, length};
ghost use Rattle.tables.specs.Table.{den};
ghost use Rattle.tables.specs.Lent.{Lent};
ghost use Rattle.listing.specs.Answers.{GoodStart};
ghost use Rattle.followup.specs.Rooms.{longest, Next};
ghost use Rattle.followup.specs.Tops.{Priced, Topped};

use bracket::Ends;
use listing::Listed;
use records::Tree;

// Lists the next cuts into a room that is long enough for any cut.
pub fn next_room(
    cuts: &[u32],
    events: usize,
    count: usize,
    root: usize,
    begin: bool,
    s: [u64; sets::WORDS],
    room: &mut [u8],
) -> Listed
    requires lent { Lent true events cuts.now count root }
    requires good_start { GoodStart events begin s }
    requires longest_in_bounds { longest ≤ length room.old }
    ensures { Next events (den cuts.now root) begin s room.new 0 0 result.count result.used result.last result.finished }
{
    let Ok(listed) = analyser::list(cuts, events, count, root, begin, s, room) else {
        unreachable!()
    };
    listed
}

// Encloses the chance of a tree's root.
pub fn top(
    tree: Tree,
    nodes: &[u32],
    count: usize,
    root: usize,
    lows: &mut [u32],
    highs: &mut [u32],
) -> Ends
    requires priced { Priced tree nodes.now count root }
    requires nodes_in_bounds { (length nodes.now / 3 ≤ length lows.old) × (length nodes.now / 3 ≤ length highs.old) }
    ensures { Topped tree nodes.now root 0 0 result.low result.high }
{
    let events = tree.event_count;
    let all = tree.events;
    let chances = arrays::chances_of(all);
    let Ok(ends) = analyser::bracket(nodes, events, count, root, &chances, lows, highs) else {
        unreachable!()
    };
    ends
}
