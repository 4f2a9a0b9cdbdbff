// Which event matters most, for other languages.
ghost use Rattle.std.specs.Prelude.{◌≡◌};
ghost use Rattle.importance.specs.Weighed.{Weighed};
ghost use Rattle.paper.specs.Answers.{Verdict};
ghost use Rattle.exported.specs.Numbers.{of_verdict};

// How much each event matters to the chance of a lent diagram's root, and the events ranked. The answer: number, place.
#[unsafe(no_mangle)]
pub extern "C" fn matticklet_importance(
    nodes: &[u32],
    events: usize,
    count: usize,
    root: usize,
    chances: &[u32],
    lows: &mut [u32],
    highs: &mut [u32],
    rank: &mut [u32],
    down: &mut [u32],
    up: &mut [u32],
    marks: &mut [u32],
    answer: &mut [u64; 2],
)
    ensures { (v : Verdict) × (Weighed events nodes.now count root chances.now v.number v.place lows.old highs.old rank.old down.old up.old marks.old lows.new highs.new rank.new down.new up.new marks.new × (answer.new ≡ of_verdict v)) }
{
    let r = importance::importance(
        nodes, events, count, root, chances, lows, highs, rank, down, up, marks,
    );
    *answer = crate::plain(r);
}
