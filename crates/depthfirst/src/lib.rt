// The depth-first walk over equations, left to right, with a lent stack in place of recursion: the order in which names are left, or a ring;
// the numbers of events and gates; and the one root.
#![tactic(auto)]

ghost use Rattle.std.specs.Prelude.{◌≡◌, ◌<◌, ◌≤◌, length, take, get_or};
ghost use Rattle.paper.specs.Walks.{visit};
ghost use Rattle.depthfirst.specs.Inputs.{inputs_of, Arrays};
ghost use Rattle.depthfirst.specs.Marking.{Rooms, Idle, Clear, Listed, Passed, Stands, Opened, Closed, Stretched, InputsMarked, Bares};
ghost use Rattle.depthfirst.specs.Answers.{WalksOn, Walks, WalksAll, Numberable, Numbers, RootIs};

// A walk came back to an open name: the places of the stack from `from` up to `to` are a ring.
#[derive(Clone, Copy, PartialEq, Eq, Debug)]
pub struct RingError {
    pub from: usize,
    pub to: usize,
}

// How many of some names are events, and how many gates.
#[derive(Clone, Copy)]
pub struct Counts {
    pub events: u32,
    pub gates: u32,
}

// No name is met.
fn clear(mark: &mut [u32], count: u32)
    requires { count ≤ length mark.old }
    ensures { Clear count mark.new }
{
    mark[..count as usize].fill(0);
}

// The first place from `p` on, before `end`, whose name is not left yet.
fn pass(inputs: &[u32], mark: &[u32], count: u32, p: u32, end: u32) -> Option<u32>
    requires { Listed count inputs.now mark.now end }
    ensures { Passed count inputs.now mark.now p end result }
{
    for q in p..end {
        let y = inputs[q as usize];
        if mark[y as usize] < 2 {
            return Some(q);
        }
    }
    None
}

// The place of an open name on the stack.
fn place(stack: &[u32], depth: usize, y: u32) -> usize
    requires stands { Stands stack.now depth y }
    requires depth_in_bounds { depth ≤ length stack.now }
    ensures { (result < depth) × (get_or stack.now result 0 ≡ y) }
{
    stack[..depth].iter().rposition(|x| *x == y).unwrap()
}

// Opens the name `y`.
fn enter(starts: &[u32], y: u32, mark: &mut [u32], stack: &mut [u32], at: &mut [u32], depth: usize)
    requires { (y < length starts.now) × (y < length mark.old) × (depth < length stack.old) × (depth < length at.old) }
    ensures { Opened starts.now mark.old stack.old at.old depth y mark.new stack.new at.new }
{
    mark[y as usize] = 1;
    stack[depth] = y;
    at[depth] = starts[y as usize];
}

// Leaves the name `x`.
fn leave(x: u32, mark: &mut [u32], order: &mut [u32], left: usize)
    requires { (x < length mark.old) × (left < length order.old) }
    ensures { Closed mark.old order.old left x mark.new order.new }
{
    mark[x as usize] = 2;
    order[left] = x;
}

// Walks from `root`, where `left` names are left already.
fn walk_on(
    starts: &[u32],
    inputs: &[u32],
    count: u32,
    root: u32,
    mark: &mut [u32],
    stack: &mut [u32],
    at: &mut [u32],
    order: &mut [u32],
    left: usize,
) -> Result<usize, RingError>
    requires arrays { Arrays starts.now inputs.now count }
    requires rooms { Rooms count mark.old stack.old at.old order.old }
    requires idle { Idle starts.now inputs.now count mark.old order.old left }
    requires root_lt_count { root < count }
    ensures { WalksOn starts.now inputs.now count mark.new stack.new order.new (λ k. visit (inputs_of starts.now inputs.now) k (take left order.old) root) result }
{
    if 2 <= mark[root as usize] {
        return Ok(left);
    }
    enter(starts, root, mark, stack, at, 0);
    let mut depth: usize = 1;
    let mut n = left;
    // By hand: the walk goes up and down its stack, and counts no index.
    while 0 < depth {
        let top = depth - 1;
        let x = stack[top];
        let p = at[top];
        let next = x as usize + 1;
        let end = starts[next];
        match pass(inputs, mark, count, p, end) {
            Some(q) => {
                let y = inputs[q as usize];
                if mark[y as usize] == 1 {
                    let from = place(stack, depth, y);
                    return Err(RingError { from, to: depth });
                }
                at[top] = q;
                enter(starts, y, mark, stack, at, depth);
                depth += 1;
            }
            None => {
                leave(x, mark, order, n);
                n += 1;
                depth = top;
            }
        }
    }
    Ok(n)
}

// The walk from `root`: the names that it leads to, in the order in which the walk leaves them, or a ring.
pub fn walk(
    starts: &[u32],
    inputs: &[u32],
    count: u32,
    root: u32,
    mark: &mut [u32],
    stack: &mut [u32],
    at: &mut [u32],
    order: &mut [u32],
) -> Result<usize, RingError>
    requires arrays { Arrays starts.now inputs.now count }
    requires rooms { Rooms count mark.old stack.old at.old order.old }
    requires root_lt_count { root < count }
    ensures { Walks starts.now inputs.now count root stack.new order.new result }
{
    clear(mark, count);
    walk_on(starts, inputs, count, root, mark, stack, at, order, 0)
}

// A walk from every name not yet left: all names, each behind its inputs, or a ring, wherever it is.
pub fn walk_all(
    starts: &[u32],
    inputs: &[u32],
    count: u32,
    mark: &mut [u32],
    stack: &mut [u32],
    at: &mut [u32],
    order: &mut [u32],
) -> Result<usize, RingError>
    requires arrays { Arrays starts.now inputs.now count }
    requires rooms { Rooms count mark.old stack.old at.old order.old }
    ensures { WalksAll starts.now inputs.now count stack.new order.new result }
{
    clear(mark, count);
    let mut left: usize = 0;
    for i in 0..count {
        left = walk_on(starts, inputs, count, i, mark, stack, at, order, left)?;
    }
    Ok(left)
}

// Numbers the first `left` names of an order: the events from 0 on, and the gates from 0 on.
pub fn number(
    starts: &[u32],
    inputs: &[u32],
    count: u32,
    order: &[u32],
    left: usize,
    numbers: &mut [u32],
) -> Counts
    requires { Numberable starts.now inputs.now count order.now left numbers.old }
    ensures { Numbers (inputs_of starts.now inputs.now) (take left order.now) numbers.new result.events result.gates }
{
    let mut events: u32 = 0;
    let mut gates: u32 = 0;
    for i in 0..left {
        let x = order[i] as usize;
        let next = x + 1;
        if starts[x] < starts[next] {
            numbers[x] = gates;
            gates += 1;
        } else {
            numbers[x] = events;
            events += 1;
        }
    }
    Counts { events, gates }
}

// Marks the names at the places `p` to `end`.
fn mark_stretch(inputs: &[u32], count: u32, p: u32, end: u32, mark: &mut [u32])
    requires { Listed count inputs.now mark.old end }
    ensures { Stretched inputs.now mark.old p end mark.new }
{
    for q in p..end {
        let y = inputs[q as usize];
        mark[y as usize] = 1;
    }
}

// Marks every name that is an input.
fn mark_inputs(starts: &[u32], inputs: &[u32], count: u32, mark: &mut [u32])
    requires arrays { Arrays starts.now inputs.now count }
    requires count_in_bounds { count ≤ length mark.old }
    requires clear { Clear count mark.old }
    ensures { InputsMarked (inputs_of starts.now inputs.now) count count mark.new }
{
    for x in 0..count as usize {
        let p = starts[x];
        let end = starts[x + 1];
        mark_stretch(inputs, count, p, end, mark);
    }
}

// The first name from `a` on that is not marked.
fn first_bare(mark: &[u32], count: u32, a: u32) -> Option<u32>
    requires count_in_bounds { count ≤ length mark.now }
    requires a_le_count { a ≤ count }
    ensures { Bares count mark.now a result }
{
    for x in a..count {
        if mark[x as usize] == 0 {
            return Some(x);
        }
    }
    None
}

// The root: the one name that is an input of none.
pub fn one_root(starts: &[u32], inputs: &[u32], count: u32, mark: &mut [u32]) -> Option<u32>
    requires arrays { Arrays starts.now inputs.now count }
    requires count_in_bounds { count ≤ length mark.old }
    ensures { RootIs starts.now inputs.now count result }
{
    clear(mark, count);
    mark_inputs(starts, inputs, count, mark);
    let root = first_bare(mark, count, 0)?;
    match first_bare(mark, count, root + 1) {
        Some(_) => None,
        None => Some(root),
    }
}
