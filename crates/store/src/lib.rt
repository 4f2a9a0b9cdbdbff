// A table of nodes that grows and holds no triple twice, and the memo beside it. Slot k of `nodes`, three numbers from 3 * k on, is node number k + 2;
// `heads` and `next` are chains of falling node numbers, one for each first slot.
#![tactic(auto)]

ghost use Rattle.std.specs.Prelude.{◌≡◌, true, false, ◌+◌, ◌*◌, ◌<◌, ◌≤◌, length};
ghost use Rattle.paper.specs.Diagrams.{node, mk_d};
ghost use Rattle.algebra.specs.Families.{mk_z};
ghost use Rattle.tables.specs.Table.{den};
ghost use Rattle.store.specs.Store.{mix, First, Triple, Store, Put, Sought};
ghost use Rattle.store.specs.Building.{BuildsOne, Finishes};
ghost use Rattle.store.specs.Placing.{Puts};
ghost use Rattle.store.specs.Memo.{Places, Used, There, Place, Keeps, Recalls};

// A node, and the count of nodes with it.
#[derive(Clone, Copy, PartialEq, Eq, Debug)]
pub struct Built {
    pub node: u32,
    pub count: usize,
}

// No room for a node: the table is full at this count.
#[derive(Clone, Copy, PartialEq, Eq, Debug)]
pub struct Full {
    pub count: usize,
}

// What the memo says: the result, or the place where it is to be kept.
// By hand: a result that is still to be made is no error, as in a Result, and its place is no nothing, as in an Option.
#[derive(Clone, Copy)]
pub enum Known {
    Node(u32),
    Unknown(usize),
}

// Two numbers taken apart at the earlier of their events: what they become with it failed, f1 and g1, and sound, f0 and g0.
#[derive(Clone, Copy)]
pub struct Parts {
    pub e: u32,
    pub f1: u32,
    pub g1: u32,
    pub f0: u32,
    pub g0: u32,
}

// Three numbers mixed to 32 bits.
fn mixed(e: u32, failed: u32, sound: u32) -> u64
    ensures { (result ≡ mix e failed sound) × (result < 4294967296) }
{
    let a = e as u64;
    let b = failed as u64;
    let c = sound as u64;
    let x = a * 906908087 % 4294967296 + b * 1641373853 % 4294967296;
    (x + c * 2345438705 % 4294967296) % 4294967296
}

// Where the search for a triple begins: what its three numbers mix to, times what they mix to at event 0, scaled to the slots. A product, since
// a sum alone keeps nodes that lie on a line on a line of slots. However many slots there are, the products fit 64 bits.
pub fn first_slot(e: u32, failed: u32, sound: u32, slots: usize) -> usize
    requires { 1 ≤ slots }
    ensures { First e failed sound slots result }
{
    let x = mixed(e, failed, sound);
    let y = x * mixed(0, failed, sound) % 4294967296;
    let few = slots as u64 % 4294967296;
    (y * few / 4294967296) as usize
}

// Whether slot k holds the triple.
fn holds(nodes: &[u32], k: usize, e: u32, failed: u32, sound: u32) -> bool
    requires { 3 * k + 3 ≤ length nodes.now }
    ensures yes { result ≡ true → Triple nodes.now k e failed sound }
    ensures no { result ≡ false → Triple nodes.now k e failed sound → ⊥ }
{
    let at = 3 * k;
    nodes[at] == e && nodes[at + 1] == failed && nodes[at + 2] == sound
}

// The node in chain h that is the triple.
fn find(
    nodes: &[u32],
    heads: &[u32],
    next: &[u32],
    count: usize,
    h: usize,
    e: u32,
    failed: u32,
    sound: u32,
) -> Option<u32>
    requires store { Store nodes.now heads.now next.now count }
    requires first { First e failed sound (length heads.now) h }
    ensures { Sought nodes.now count e failed sound result }
{
    let mut i = heads[h];
    while 2 <= i {
        let k = (i - 2) as usize;
        if holds(nodes, k, e, failed, sound) {
            return Some(i);
        }
        i = next[k];
    }
    None
}

// Writes the triple into slot `count`.
fn put(nodes: &mut [u32], count: usize, e: u32, failed: u32, sound: u32)
    requires { 3 * count + 3 ≤ length nodes.old }
    ensures { Put nodes.old count e failed sound nodes.new }
{
    let at = 3 * count;
    nodes[at] = e;
    nodes[at + 1] = failed;
    nodes[at + 2] = sound;
}

// The node that is the triple, added where no stored node is it: then the count grows.
pub fn find_or_add(
    nodes: &mut [u32],
    heads: &mut [u32],
    next: &mut [u32],
    count: usize,
    e: u32,
    failed: u32,
    sound: u32,
) -> Result<Built, Full>
    requires store { Store nodes.old heads.old next.old count }
    requires failed_bound { failed < count + 2 }
    requires sound_bound { sound < count + 2 }
    ensures { Puts nodes.old heads.old next.old count (node e (den nodes.old failed) (den nodes.old sound)) nodes.new heads.new next.new result }
{
    let h = first_slot(e, failed, sound, heads.len());
    if let Some(node) = find(nodes, heads, next, count, h, e, failed, sound) {
        return Ok(Built { node, count });
    }
    if nodes.len() < 3 * count + 3 {
        return Err(Full { count });
    }
    put(nodes, count, e, failed, sound);
    next[count] = heads[h];
    let node = (count + 2) as u32;
    heads[h] = node;
    Ok(Built {
        node,
        count: count + 1,
    })
}

// The node of an event over two branches; where the failed branch is the dropped one, the sound branch. A table of functions drops a branch
// that is its sibling, a table of cuts one that is no set.
pub fn make(
    nodes: &mut [u32],
    heads: &mut [u32],
    next: &mut [u32],
    count: usize,
    e: u32,
    failed: u32,
    sound: u32,
    dropped: u32,
) -> Result<Built, Full>
    requires store { Store nodes.old heads.old next.old count }
    requires failed_bound { failed < count + 2 }
    requires sound_bound { sound < count + 2 }
    ensures function { dropped ≡ sound → BuildsOne nodes.old count (mk_d e (den nodes.old failed) (den nodes.old sound)) nodes.new heads.new next.new result }
    ensures family { dropped ≡ 0 → BuildsOne nodes.old count (mk_z e (den nodes.old failed) (den nodes.old sound)) nodes.new heads.new next.new result }
{
    if failed == dropped {
        return Ok(Built { node: sound, count });
    }
    find_or_add(nodes, heads, next, count, e, failed, sound)
}

// How many numbers of a memo of that length are used: whole quadruples, and no more than a hash of 32 bits reaches.
pub fn used(length: usize) -> usize
    ensures { Used length result }
{
    (length - length % 4).min(4294967296)
}

// The place of an operation in the memo.
fn place(memo: &[u32], op: u32, f: u32, g: u32) -> usize
    requires { Places memo.now }
    ensures { Place memo.now result }
{
    let s = (mixed(op, f, g) * (memo.len() as u64) / 4294967296) as usize;
    s - s % 4
}

// Whether the memo has the operation at that place.
fn hit(memo: &[u32], at: usize, op: u32, f: u32, g: u32) -> bool
    requires { Place memo.now at }
    ensures { result ≡ true → There memo.now at op f g }
{
    memo[at] == op && memo[at + 1] == f && memo[at + 2] == g
}

// What the memo says of the operation.
pub fn recall(memo: &[u32], op: u32, f: u32, g: u32) -> Known
    requires { Places memo.now }
    ensures { Recalls memo.now op f g result }
{
    let at = place(memo, op, f, g);
    if hit(memo, at, op, f, g) {
        return Known::Node(memo[at + 3]);
    }
    Known::Unknown(at)
}

// Keeps a result at its place, over what stood there.
pub fn keep(memo: &mut [u32], at: usize, op: u32, f: u32, g: u32, r: u32)
    requires { Place memo.old at }
    ensures { Keeps memo.old op f g r memo.new }
{
    memo[at] = op;
    memo[at + 1] = f;
    memo[at + 2] = g;
    memo[at + 3] = r;
}

// Makes the node over two branches, and keeps it in the memo as the answer to an operation.
pub fn finish(
    nodes: &mut [u32],
    heads: &mut [u32],
    next: &mut [u32],
    memo: &mut [u32],
    count: usize,
    op: u32,
    f: u32,
    g: u32,
    at: usize,
    e: u32,
    failed: u32,
    sound: u32,
    dropped: u32,
) -> Result<Built, Full>
    requires store { Store nodes.old heads.old next.old count }
    requires failed_bound { failed < count + 2 }
    requires sound_bound { sound < count + 2 }
    requires place { Place memo.old at }
    ensures function { dropped ≡ sound → Finishes nodes.old memo.old count (mk_d e (den nodes.old failed) (den nodes.old sound)) op f g nodes.new heads.new next.new memo.new result }
    ensures family { dropped ≡ 0 → Finishes nodes.old memo.old count (mk_z e (den nodes.old failed) (den nodes.old sound)) op f g nodes.new heads.new next.new memo.new result }
{
    let built = make(nodes, heads, next, count, e, failed, sound, dropped)?;
    keep(memo, at, op, f, g, built.node);
    Ok(built)
}
