// The walk over a cut diagram: a path of nodes in an array leads from one cut to the next, and what is left at its end stays the same.
// The set of the path's events goes with it.
#![tactic(auto)]

ghost use Rattle.std.specs.Prelude.{◌≡◌, [], suc, ◌<◌, length, take, MatchOption};
ghost use Rattle.paper.specs.Sets.{Within};
ghost use Rattle.paper.specs.Cuts.{sets_of};
ghost use Rattle.paper.specs.Order.{rest};
ghost use Rattle.sets.specs.Words.{words, set_of};
ghost use Rattle.tables.specs.Table.{den};
ghost use Rattle.walk.specs.Paths.{around, Open, Carries, Spotted, Reached, Ended};
ghost use Rattle.walk.specs.Follows.{Parts, Shorter, Longer, Follows, Starts};
ghost use Rattle.walk.specs.After.{to_list};

// A node to go down from, how many entries of the path lead to it, and the lowest event in which the cuts from there differ from the set before them.
#[derive(Clone, Copy)]
pub struct Spot {
    pub node: usize,
    pub depth: usize,
    pub low: usize,
}

// A cut: the depth of its path, the lowest event in which it differs from the cut before, how many members are below it, and an event above which there is no member.
// Of the first cut all is new.
#[derive(Clone, Copy)]
pub struct Step {
    pub depth: usize,
    pub kept: usize,
    pub low: usize,
    pub high: usize,
}

// Goes down failed branches from the spot `p` to the leaf 1 and puts each node on the path. The path's events are below `p.low`.
fn descend(
    nodes: &[u32],
    n: usize,
    count: usize,
    path: &mut [u32],
    set: &mut [u64; sets::WORDS],
    p: Spot,
) -> Step
    requires { (Open n nodes.now count path.old p.depth p.node) × (0 < p.node) × Carries nodes.now path.old p.depth set.old × Parts n nodes.now (set_of set.old) p.node p.low }
    ensures { Reached n nodes.now count path.new result.depth (around nodes.now (take p.depth path.old) (sets_of (den nodes.now p.node))) × Carries nodes.now path.new result.depth set.new × Longer n (set_of set.old) (set_of set.new) p.low result.high × (result.kept ≡ p.depth) × (result.low ≡ p.low) }
{
    let mut d = p.depth;
    let mut i = p.node;
    let mut high = p.low;
    while 2 <= i {
        path[d] = i as u32;
        d += 1;
        high = tables::event_of(nodes, i);
        sets::add(set, high);
        i = tables::failed_of(nodes, i);
    }
    Step {
        depth: d,
        kept: p.depth,
        low: p.low,
        high,
    }
}

// The deepest sound branch other than 0 of a node on the path.
fn climb(
    nodes: &[u32],
    n: usize,
    count: usize,
    path: &[u32],
    set: &mut [u64; sets::WORDS],
    depth: usize,
) -> Option<Spot>
    requires { (Open n nodes.now count path.now depth 1) × Carries nodes.now path.now depth set.old }
    ensures { MatchOption result (Ended n nodes.now count path.now set.new (around nodes.now (take depth path.now) [])) (λ p. Spotted n nodes.now count path.now p.depth p.node (around nodes.now (take depth path.now) []) × Carries nodes.now path.now p.depth set.new × Parts n nodes.now (set_of set.new) p.node p.low × Shorter (set_of set.old) (set_of set.new) p.low) }
{
    for d in (0..depth).rev() {
        let i = tables::wide(path[d]);
        let low = tables::event_of(nodes, i);
        sets::remove(set, low);
        let node = tables::sound_of(nodes, i);
        if node != 0 {
            return Some(Spot {
                node,
                depth: d,
                low,
            });
        }
    }
    None
}

// From the path of a cut to the path of the next.
pub fn advance(
    nodes: &[u32],
    n: usize,
    count: usize,
    path: &mut [u32],
    set: &mut [u64; sets::WORDS],
    depth: usize,
) -> Option<Step>
    requires { (Open n nodes.now count path.old depth 1) × Carries nodes.now path.old depth set.old }
    ensures { MatchOption result (Ended n nodes.now count path.new set.new (around nodes.now (take depth path.old) [])) (λ s. Reached n nodes.now count path.new s.depth (around nodes.now (take depth path.old) []) × Carries nodes.now path.new s.depth set.new × Follows n (set_of set.old) (set_of set.new) s.kept s.low s.high) }
{
    let p = climb(nodes, n, count, path, set, depth)?;
    Some(descend(nodes, n, count, path, set, p))
}

// Follows the set `s` from the root: the cuts after it, if any, are those from the answer's node down, and those left by the path.
pub fn seek(
    nodes: &[u32],
    n: usize,
    count: usize,
    root: usize,
    s: &[u64],
    path: &mut [u32],
    set: &mut [u64; sets::WORDS],
) -> Option<Spot>
    requires { (Open n nodes.now count path.old 0 root) × (length s.now ≡ words) × Carries nodes.now path.old 0 set.old }
    ensures { MatchOption result (Ended n nodes.now count path.new set.new (rest n (set_of s.now) (sets_of (den nodes.now root)))) (λ p. Spotted n nodes.now count path.new p.depth p.node (rest n (set_of s.now) (sets_of (den nodes.now root))) × Carries nodes.now path.new p.depth set.new × Parts n nodes.now (set_of set.new) p.node p.low) }
{
    let mut node = root;
    let mut i = 0;
    let mut depth = 0;
    while 2 <= node {
        let e = tables::event_of(nodes, node);
        let low = sets::lowest(s, i);
        if low < e {
            return Some(Spot { node, depth, low });
        }
        i = e + 1;
        if e < low {
            node = tables::sound_of(nodes, node);
        } else {
            path[depth] = node as u32;
            depth += 1;
            sets::add(set, e);
            node = tables::failed_of(nodes, node);
        }
    }
    if node == 1 {
        let low = sets::lowest(s, i);
        if low < n {
            return Some(Spot { node, depth, low });
        }
    }
    climb(nodes, n, count, path, set, depth)
}

// The first cut after the set `s`.
pub fn next_after(
    nodes: &[u32],
    n: usize,
    count: usize,
    root: usize,
    s: &[u64],
    path: &mut [u32],
    set: &mut [u64; sets::WORDS],
) -> Option<Step>
    requires { (Open n nodes.now count path.old 0 root) × (length s.now ≡ words) × Carries nodes.now path.old 0 set.old }
    ensures { MatchOption result (Ended n nodes.now count path.new set.new (rest n (set_of s.now) (sets_of (den nodes.now root)))) (λ m. Reached n nodes.now count path.new m.depth (rest n (set_of s.now) (sets_of (den nodes.now root))) × Carries nodes.now path.new m.depth set.new × (m.high < n) × Within (suc m.high) (set_of set.new)) }
{
    let p = seek(nodes, n, count, root, s, path, set)?;
    Some(descend(nodes, n, count, path, set, p))
}

// The first cut to be listed: of all, or of those after the set `s`.
pub fn start(
    nodes: &[u32],
    n: usize,
    count: usize,
    root: usize,
    begin: bool,
    s: &[u64],
    path: &mut [u32],
    set: &mut [u64; sets::WORDS],
) -> Option<Step>
    requires { (Open n nodes.now count path.old 0 root) × (length s.now ≡ words) × Carries nodes.now path.old 0 set.old }
    ensures { MatchOption result (Ended n nodes.now count path.new set.new (to_list n (den nodes.now root) begin s.now)) (λ m. Reached n nodes.now count path.new m.depth (to_list n (den nodes.now root) begin s.now) × Carries nodes.now path.new m.depth set.new × Starts n (set_of set.new) m.kept m.low m.high) }
{
    if !begin {
        let m = next_after(nodes, n, count, root, s, path, set)?;
        return Some(Step {
            kept: 0,
            low: 0,
            ..m
        });
    }
    if root == 0 {
        return None;
    }
    let p = Spot {
        node: root,
        depth: 0,
        low: 0,
    };
    Some(descend(nodes, n, count, path, set, p))
}
