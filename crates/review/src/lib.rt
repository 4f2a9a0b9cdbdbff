// The walk over the reportable cuts of a cut diagram: from one to the next, past every part of the diagram that has none.
// Whether a part has one is told exactly, by whole numbers: each node is weighed once.
// Beside the crate walk: there no branch is tested, and a test as a closure would take a contract longer than its walk.
#![tactic(auto)]

pub mod weighing; // the fewest members and the likeliest set of each node

ghost use Rattle.std.specs.Prelude.{◌≡◌, [], true, false, ◌+◌, ◌*◌, ◌^◌, ◌≤◌, ◌<◌, length, take, MatchOption};
ghost use Rattle.paper.specs.Limits.{billion};
ghost use Rattle.paper.specs.Lists.{keep};
ghost use Rattle.paper.specs.Cuts.{sets_of};
ghost use Rattle.algebra.proofs.Reports.{product_of};
ghost use Rattle.digits.specs.Digits.{number, Number};
ghost use Rattle.sets.specs.Words.{words, set_of};
ghost use Rattle.tables.specs.Flags.{Says};
ghost use Rattle.tables.specs.Table.{den};
ghost use Rattle.bracket.specs.Bracketed.{chance_in, Chances};
ghost use Rattle.walk.specs.Paths.{events_of, along, around, Open, Carries, Spotted, Ended};
ghost use Rattle.walk.specs.Follows.{Parts, Shorter, Longer, Follows, Starts};
ghost use Rattle.walk.specs.After.{to_list};
ghost use Rattle.review.specs.Weights.{Weighed};
ghost use Rattle.review.specs.Hopes.{worth, Hope, Promising, Landed};

// The edge: so many billionths.
const EDGE: u64 = 1_000;

// Multiplies the number 1 in `ds` by the chances of the path's events.
fn product_on(
    nodes: &[u32],
    n: usize,
    count: usize,
    chances: &[u32],
    path: &[u32],
    depth: usize,
    ds: &mut [u64],
)
    requires { Open n nodes.now count path.now depth 1 × (n ≤ length chances.now) × Chances n chances.now × (number ds.old ≡ 1 * billion ^ 0) × Number ds.old 1 × (n + 1 < length ds.old) }
    ensures { (number ds.new ≡ product_of (chance_in chances.now) (events_of nodes.now (take depth path.now))) × Number ds.new (depth + 1) }
{
    for k in 0..depth {
        let i = tables::wide(path[k]);
        let e = tables::event_of(nodes, i);
        digits::scale(ds, k + 1, u64::from(chances[e]));
    }
}

// Whether some set below node `at`, put together with the path's events, is reportable: by the fewest members, or by the likeliest set, exactly.
fn hope(
    nodes: &[u32],
    n: usize,
    count: usize,
    chances: &[u32],
    few: &[u32],
    picks: &[u32],
    edition: u32,
    path: &[u32],
    depth: usize,
    at: usize,
) -> bool
    requires { Open n nodes.now count path.now depth at × Weighed n chances.now nodes.now few.now picks.now count }
    ensures { Says result (Hope (worth edition chances.now n) nodes.now (along nodes.now (take depth path.now)) at) }
{
    if depth + weighing::few_in(few, at) <= 2 {
        return true;
    }
    if edition != 2 {
        return false;
    }
    let mut ds = digits::place(1, 0);
    product_on(nodes, n, count, chances, path, depth, &mut ds);
    let m = weighing::likeliest(nodes, n, count, chances, picks, at, &mut ds, depth + 1);
    digits::scale(&mut ds, depth + m + 2, digits::BASE);
    let edge = digits::place(EDGE, depth + m);
    digits::at_most(&edge, &ds, depth + m + 3)
}

// Goes down from the spot `p`, below which some set is reportable, to the first such set: past each failed branch that has none. The path's events are below `p.low`.
fn descend(
    nodes: &[u32],
    n: usize,
    count: usize,
    chances: &[u32],
    few: &[u32],
    picks: &[u32],
    edition: u32,
    path: &mut [u32],
    set: &mut [u64; sets::WORDS],
    p: walk::Spot,
) -> walk::Step
    requires { Open n nodes.now count path.old p.depth p.node × Hope (worth edition chances.now n) nodes.now (along nodes.now (take p.depth path.old)) p.node × Carries nodes.now path.old p.depth set.old × Parts n nodes.now (set_of set.old) p.node p.low × Weighed n chances.now nodes.now few.now picks.now count }
    ensures { Landed (worth edition chances.now n) n nodes.now count path.new result.depth (around nodes.now (take p.depth path.old) (sets_of (den nodes.now p.node))) × Carries nodes.now path.new result.depth set.new × Longer n (set_of set.old) (set_of set.new) p.low result.high × (result.kept ≡ p.depth) × (result.low ≡ p.low) }
{
    let mut d = p.depth;
    let mut i = p.node;
    let mut high = p.low;
    while 2 <= i {
        let f = tables::failed_of(nodes, i);
        path[d] = i as u32;
        let k = d + 1;
        if hope(nodes, n, count, chances, few, picks, edition, path, k, f) {
            high = tables::event_of(nodes, i);
            sets::add(set, high);
            d = k;
            i = f;
        } else {
            i = tables::sound_of(nodes, i);
        }
    }
    walk::Step {
        depth: d,
        kept: p.depth,
        low: p.low,
        high,
    }
}

// The deepest sound branch of a node on the path below which some set is reportable.
fn climb(
    nodes: &[u32],
    n: usize,
    count: usize,
    chances: &[u32],
    few: &[u32],
    picks: &[u32],
    edition: u32,
    path: &[u32],
    set: &mut [u64; sets::WORDS],
    depth: usize,
) -> Option<walk::Spot>
    requires { Open n nodes.now count path.now depth 1 × Carries nodes.now path.now depth set.old × Weighed n chances.now nodes.now few.now picks.now count }
    ensures { MatchOption result (Ended n nodes.now count path.now set.new (keep (worth edition chances.now n) (around nodes.now (take depth path.now) []))) (λ p. Promising (worth edition chances.now n) n nodes.now count path.now p.depth p.node (around nodes.now (take depth path.now) []) × Carries nodes.now path.now p.depth set.new × Parts n nodes.now (set_of set.new) p.node p.low × Shorter (set_of set.old) (set_of set.new) p.low) }
{
    for d in (0..depth).rev() {
        let i = tables::wide(path[d]);
        let low = tables::event_of(nodes, i);
        sets::remove(set, low);
        let node = tables::sound_of(nodes, i);
        if hope(nodes, n, count, chances, few, picks, edition, path, d, node) {
            return Some(walk::Spot {
                node,
                depth: d,
                low,
            });
        }
    }
    None
}

// From the path of a cut, `d` nodes deep, to the path of the next reportable one.
pub fn advance(
    nodes: &[u32],
    n: usize,
    count: usize,
    chances: &[u32],
    few: &[u32],
    picks: &[u32],
    edition: u32,
    path: &mut [u32],
    set: &mut [u64; sets::WORDS],
    d: usize,
) -> Option<walk::Step>
    requires { Open n nodes.now count path.old d 1 × Carries nodes.now path.old d set.old × Weighed n chances.now nodes.now few.now picks.now count }
    ensures { MatchOption result (Ended n nodes.now count path.new set.new (keep (worth edition chances.now n) (around nodes.now (take d path.old) []))) (λ s. Landed (worth edition chances.now n) n nodes.now count path.new s.depth (around nodes.now (take d path.old) []) × Carries nodes.now path.new s.depth set.new × Follows n (set_of set.old) (set_of set.new) s.kept s.low s.high) }
{
    let p = climb(nodes, n, count, chances, few, picks, edition, path, set, d)?;
    Some(descend(nodes, n, count, chances, few, picks, edition, path, set, p))
}

// Where a listing starts, reportable or not: at the root, or at the first cut after the set `s`.
pub fn spot(
    nodes: &[u32],
    n: usize,
    count: usize,
    root: usize,
    begin: bool,
    s: &[u64],
    path: &mut [u32],
    set: &mut [u64; sets::WORDS],
) -> Option<walk::Spot>
    requires { (Open n nodes.now count path.old 0 root) × (length s.now ≡ words) × Carries nodes.now path.old 0 set.old }
    ensures { MatchOption result (Ended n nodes.now count path.new set.new (to_list n (den nodes.now root) begin s.now)) (λ p. Spotted n nodes.now count path.new p.depth p.node (to_list n (den nodes.now root) begin s.now) × Carries nodes.now path.new p.depth set.new × Parts n nodes.now (set_of set.new) p.node p.low) }
{
    if !begin {
        return walk::seek(nodes, n, count, root, s, path, set);
    }
    if root == 0 {
        return None;
    }
    Some(walk::Spot {
        node: root,
        depth: 0,
        low: 0,
    })
}

// From a spot on, the first spot to go down from: that one, or one that the path leads to.
fn settle(
    nodes: &[u32],
    n: usize,
    count: usize,
    chances: &[u32],
    few: &[u32],
    picks: &[u32],
    edition: u32,
    path: &[u32],
    set: &mut [u64; sets::WORDS],
    p: walk::Spot,
) -> Option<walk::Spot>
    requires { Spotted n nodes.now count path.now p.depth p.node (around nodes.now (take p.depth path.now) (sets_of (den nodes.now p.node))) × Carries nodes.now path.now p.depth set.old × Parts n nodes.now (set_of set.old) p.node p.low × Weighed n chances.now nodes.now few.now picks.now count }
    ensures { MatchOption result (Ended n nodes.now count path.now set.new (keep (worth edition chances.now n) (around nodes.now (take p.depth path.now) (sets_of (den nodes.now p.node))))) (λ q. Promising (worth edition chances.now n) n nodes.now count path.now q.depth q.node (around nodes.now (take p.depth path.now) (sets_of (den nodes.now p.node))) × Carries nodes.now path.now q.depth set.new × Parts n nodes.now (set_of set.new) q.node q.low) }
{
    let d = p.depth;
    let at = p.node;
    if hope(nodes, n, count, chances, few, picks, edition, path, d, at) {
        return Some(p);
    }
    climb(nodes, n, count, chances, few, picks, edition, path, set, d)
}

// The first reportable cut from the spot `p` of a listing's start on.
pub fn start_from(
    nodes: &[u32],
    n: usize,
    count: usize,
    chances: &[u32],
    few: &[u32],
    picks: &[u32],
    edition: u32,
    path: &mut [u32],
    set: &mut [u64; sets::WORDS],
    p: walk::Spot,
) -> Option<walk::Step>
    requires { Spotted n nodes.now count path.old p.depth p.node (around nodes.now (take p.depth path.old) (sets_of (den nodes.now p.node))) × Carries nodes.now path.old p.depth set.old × Parts n nodes.now (set_of set.old) p.node p.low × Weighed n chances.now nodes.now few.now picks.now count }
    ensures { MatchOption result (Ended n nodes.now count path.new set.new (keep (worth edition chances.now n) (around nodes.now (take p.depth path.old) (sets_of (den nodes.now p.node))))) (λ m. Landed (worth edition chances.now n) n nodes.now count path.new m.depth (around nodes.now (take p.depth path.old) (sets_of (den nodes.now p.node))) × Carries nodes.now path.new m.depth set.new × Starts n (set_of set.new) m.kept m.low m.high) }
{
    let q = settle(nodes, n, count, chances, few, picks, edition, path, set, p)?;
    let m = descend(nodes, n, count, chances, few, picks, edition, path, set, q);
    Some(walk::Step {
        kept: 0,
        low: 0,
        ..m
    })
}

// The first reportable cut: of all, or of those after the set `s`.
pub fn start(
    nodes: &[u32],
    n: usize,
    count: usize,
    root: usize,
    begin: bool,
    s: &[u64],
    chances: &[u32],
    few: &[u32],
    picks: &[u32],
    edition: u32,
    path: &mut [u32],
    set: &mut [u64; sets::WORDS],
) -> Option<walk::Step>
    requires { Open n nodes.now count path.old 0 root × (length s.now ≡ words) × Carries nodes.now path.old 0 set.old × Weighed n chances.now nodes.now few.now picks.now count }
    ensures { MatchOption result (Ended n nodes.now count path.new set.new (keep (worth edition chances.now n) (to_list n (den nodes.now root) begin s.now))) (λ m. Landed (worth edition chances.now n) n nodes.now count path.new m.depth (to_list n (den nodes.now root) begin s.now) × Carries nodes.now path.new m.depth set.new × Starts n (set_of set.new) m.kept m.low m.high) }
{
    let p = spot(nodes, n, count, root, begin, s, path, set)?;
    start_from(nodes, n, count, chances, few, picks, edition, path, set, p)
}
