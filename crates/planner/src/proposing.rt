// The event in the most cuts that are left, ties to the lower number, again and again until no cut left holds an event.
ghost use Rattle.std.specs.Prelude.{◌≡◌, ◌≤◌, ◌<◌, length};
ghost use Rattle.paper.specs.Sets.{none};
ghost use Rattle.paper.specs.Planner.{Plans};
ghost use Rattle.sets.specs.Words.{words, set_of};
ghost use Rattle.remaining.specs.Families.{family};
ghost use Rattle.planner.specs.Taking.{Most, Taking};

// The event with the greatest count, the lowest such.
fn most(counts: &[u64], n: usize) -> usize
    requires { (1 ≤ n) × (n ≤ length counts.now) }
    ensures { Most counts.now n result }
{
    let mut best = 0;
    for i in 1..n {
        if counts[best] < counts[i] {
            best = i;
        }
    }
    best
}

// From the counts of all cuts: each event that is taken costs one counting of the cuts that it leaves.
pub fn take_all(
    cuts: &[u32],
    events: usize,
    count: usize,
    root: usize,
    counts: &mut [u64],
    below: &mut [u64],
    ways: &mut [u64],
) -> [u64; sets::WORDS]
    requires { Taking events cuts.now count root counts.old below.old ways.old }
    ensures { (length result ≡ words) × Plans events (family cuts.now root) none (set_of result) × (below.new ≡ below.old) × (ways.new ≡ ways.old) }
{
    let mut set = sets::empty();
    let mut e = most(counts, events);
    while counts[e] != 0 {
        sets::add(&mut set, e);
        let Ok(()) = remaining::holding(cuts, events, count, root, set, counts, below, ways) else {
            unreachable!();
        };
        e = most(counts, events);
    }
    set
}
