// Tables of nodes: reading them, clearing them, and the check of a lent one (number 12). A node is three numbers, event, branch with the event failed, branch
// with it sound; slot k, three numbers from 3 * k on, is node number k + 2.
#![tactic(auto)]

ghost use Rattle.std.specs.Prelude.{◌≡◌, ℕ, ◌+◌, ◌-◌, ◌*◌, ◌≤◌, ◌<◌, length, replicate};
ghost use Rattle.paper.specs.Limits.{most_numbers};
ghost use Rattle.tables.specs.Table.{event_at, failed_at, sound_at, event_of, failed_of, sound_of};
ghost use Rattle.tables.specs.Flags.{Says};
ghost use Rattle.tables.specs.Lent.{Above, Node, Kind, Lent};
ghost use Rattle.tables.specs.Check.{Before, Failed};

// A number of a table, as an index.
pub fn wide(x: u32) -> usize
    ensures { result ≡ x }
{
    x as usize
}

// The three numbers in slot `k`. A function for each: one that took the part as a number would have callers say `1` for the failed branch.
pub fn event_at(nodes: &[u32], k: usize) -> usize
    requires { 3 * k + 2 < length nodes.now }
    ensures { result ≡ event_at nodes.now k }
{
    wide(nodes[3 * k])
}

pub fn failed_at(nodes: &[u32], k: usize) -> usize
    requires { 3 * k + 2 < length nodes.now }
    ensures { result ≡ failed_at nodes.now k }
{
    wide(nodes[3 * k + 1])
}

pub fn sound_at(nodes: &[u32], k: usize) -> usize
    requires { 3 * k + 2 < length nodes.now }
    ensures { result ≡ sound_at nodes.now k }
{
    wide(nodes[3 * k + 2])
}

// The same of node number `i`.
pub fn event_of(nodes: &[u32], i: usize) -> usize
    requires { (2 ≤ i) × (3 * (i - 2) + 2 < length nodes.now) }
    ensures { result ≡ event_of nodes.now i }
{
    event_at(nodes, i - 2)
}

pub fn failed_of(nodes: &[u32], i: usize) -> usize
    requires { (2 ≤ i) × (3 * (i - 2) + 2 < length nodes.now) }
    ensures { result ≡ failed_of nodes.now i }
{
    failed_at(nodes, i - 2)
}

pub fn sound_of(nodes: &[u32], i: usize) -> usize
    requires { (2 ≤ i) × (3 * (i - 2) + 2 < length nodes.now) }
    ensures { result ≡ sound_of nodes.now i }
{
    sound_at(nodes, i - 2)
}

// Zero throughout.
pub fn clear(work: &mut [u32])
    ensures { work.new ≡ replicate (length work.old) 0 }
{
    work.fill(0);
}

// Whether node `b` stands before node `i` and has a higher event than `e`.
fn earlier(nodes: &[u32], i: usize, e: usize, b: usize) -> bool
    requires { (2 ≤ b) × (3 * (i - 2) + 2 < length nodes.now) }
    ensures { Says result ((b < i) × (e < event_of nodes.now b)) }
{
    if i <= b {
        return false;
    }
    e < event_of(nodes, b)
}

// Whether node `i` keeps the rules as far as its event `e` and its failed branch `f` go. Earlier nodes have their events in range, so of a branch
// that is one of them it is enough that its event is higher.
fn failed_ok(nodes: &[u32], n: usize, i: usize, e: usize, f: usize, cut: bool) -> bool
    requires { (2 ≤ i) × (3 * (i - 2) + 2 < length nodes.now) × Before n nodes.now i }
    ensures { Says result (Failed cut n nodes.now i e f) }
{
    if 2 <= f {
        return earlier(nodes, i, e, f);
    }
    if cut {
        if f == 0 {
            return false;
        }
    }
    e < n
}

// Whether it keeps them as far as its sound branch `s` goes.
fn sound_ok(nodes: &[u32], i: usize, e: usize, s: usize) -> bool
    requires { (2 ≤ i) × (3 * (i - 2) + 2 < length nodes.now) }
    ensures { Says result ((s < i) × Above nodes.now e s) }
{
    if 2 <= s {
        return earlier(nodes, i, e, s);
    }
    true
}

// Whether node `i`, behind nodes whose events are in range, keeps the rules of a diagram, or of a cut diagram.
fn node_ok(nodes: &[u32], n: usize, i: usize, cut: bool) -> bool
    requires { (2 ≤ i) × (3 * (i - 2) + 2 < length nodes.now) × Before n nodes.now i }
    ensures { Says result (Node n nodes.now i × Kind cut nodes.now i) }
{
    let e = event_of(nodes, i);
    let f = failed_of(nodes, i);
    let s = sound_of(nodes, i);
    if !failed_ok(nodes, n, i, e, f, cut) {
        return false;
    }
    if !sound_ok(nodes, i, e, s) {
        return false;
    }
    if cut {
        return true;
    }
    f != s
}

// Whether the nodes 2 to count + 1 all keep the rules, reached from the root or not.
fn nodes_ok(nodes: &[u32], n: usize, count: usize, cut: bool) -> bool
    requires { (3 * count ≤ length nodes.now) × (length nodes.now ≤ most_numbers) }
    ensures { Says result ((i : ℕ) → 2 ≤ i → i < count + 2 → Node n nodes.now i × Kind cut nodes.now i) }
{
    for i in 2..count + 2 {
        if !node_ok(nodes, n, i, cut) {
            return false;
        }
    }
    true
}

// Whether a lent diagram of `n` events is one; it is refused with 12 otherwise. `cut` says which kind it must be.
pub fn is_diagram(nodes: &[u32], n: usize, count: usize, root: usize, cut: bool) -> bool
    ensures { Says result (Lent cut n nodes.now count root) }
{
    let len = nodes.len();
    if n < 1 {
        return false;
    }
    if paper::EVENTS < n {
        return false;
    }
    if len % 3 != 0 {
        return false;
    }
    if paper::TABLE < len {
        return false;
    }
    if len / 3 < count {
        return false;
    }
    if count + 2 <= root {
        return false;
    }
    nodes_ok(nodes, n, count, cut)
}
