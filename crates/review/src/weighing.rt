// What is weighed of each node, from the lowest up: the fewest members of a set below it, and where its likeliest set is.
ghost use Rattle.std.specs.Prelude.{◌≡◌, true, ◌+◌, ◌-◌, ◌*◌, ◌^◌, ◌≤◌, ◌<◌, length};
ghost use Rattle.paper.specs.Limits.{billion};
ghost use Rattle.digits.specs.Digits.{number, Number};
ghost use Rattle.tables.specs.Flags.{Says};
ghost use Rattle.tables.specs.Lent.{Lent};
ghost use Rattle.bracket.specs.Bracketed.{Chances};
ghost use Rattle.review.specs.Weights.{likeliest_at, with_event, few_in, Fews, Picks, Weighed};

// The fewest members of a set below node `i`.
pub fn few_in(few: &[u32], i: usize) -> usize
    requires { 2 ≤ i → i - 2 < length few.now }
    ensures { result ≡ few_in few.now i }
{
    if i == 0 {
        return 3;
    }
    if i == 1 {
        return 0;
    }
    tables::wide(few[i - 2])
}

// Multiplies the number in `ds`, which uses `used` digits, by the product of the likeliest set below node `at`, and says how many members that set has.
pub fn likeliest(
    nodes: &[u32],
    n: usize,
    count: usize,
    chances: &[u32],
    picks: &[u32],
    at: usize,
    ds: &mut [u64],
    used: usize,
) -> usize
    requires { Lent true n nodes.now count at × Picks n chances.now nodes.now picks.now count (at + 1) × Number ds.old used × (used + n < length ds.old) }
    ensures { (result ≡ (likeliest_at chances.now nodes.now at).members) × (number ds.new ≡ number ds.old * (likeliest_at chances.now nodes.now at).chance) × Number ds.new (used + result + 1) × (result ≤ n) }
{
    let mut i = at;
    let mut u = used;
    while 2 <= i {
        if picks[i - 2] == 0 {
            i = tables::sound_of(nodes, i);
        } else {
            let e = tables::event_of(nodes, i);
            digits::scale(ds, u, u64::from(chances[e]));
            u += 1;
            i = tables::failed_of(nodes, i);
        }
    }
    if i == 0 {
        digits::scale(ds, u, 0);
        return u - used;
    }
    u - used
}

// Whether the likeliest set below the failed branch `f`, with the event `e`, is no less likely than the likeliest one below the sound branch `s`.
fn likelier(
    nodes: &[u32],
    n: usize,
    count: usize,
    chances: &[u32],
    picks: &[u32],
    e: usize,
    f: usize,
    s: usize,
) -> bool
    requires { (e < n) × Lent true n nodes.now count f × Lent true n nodes.now count s × Picks n chances.now nodes.now picks.now count (f + 1) × Picks n chances.now nodes.now picks.now count (s + 1) }
    ensures { Says result ((likeliest_at chances.now nodes.now s).chance * billion ^ (with_event chances.now e (likeliest_at chances.now nodes.now f)).members ≤ (with_event chances.now e (likeliest_at chances.now nodes.now f)).chance * billion ^ (likeliest_at chances.now nodes.now s).members) }
{
    let mut xs = digits::place(1, 0);
    digits::scale(&mut xs, 1, u64::from(chances[e]));
    let x = likeliest(nodes, n, count, chances, picks, f, &mut xs, 2);
    let mut ys = digits::place(1, 0);
    let y = likeliest(nodes, n, count, chances, picks, s, &mut ys, 1);
    digits::lift(&mut xs, x + 3, y);
    digits::lift(&mut ys, y + 2, x + 1);
    digits::at_most(&ys, &xs, x + y + 3)
}

// Weighs node `i`, whose branches have lower numbers and are weighed.
fn weigh_node(
    nodes: &[u32],
    n: usize,
    count: usize,
    chances: &[u32],
    few: &mut [u32],
    picks: &mut [u32],
    i: usize,
)
    requires { Lent true n nodes.now count i × (2 ≤ i) × Fews nodes.now few.old count i × Picks n chances.now nodes.now picks.old count i }
    ensures { Fews nodes.now few.new count (i + 1) × Picks n chances.now nodes.now picks.new count (i + 1) }
{
    let e = tables::event_of(nodes, i);
    let f = tables::failed_of(nodes, i);
    let s = tables::sound_of(nodes, i);
    let x = few_in(few, f) + 1;
    let y = few_in(few, s);
    let b = likelier(nodes, n, count, chances, picks, e, f, s);
    few[i - 2] = x.min(y) as u32;
    picks[i - 2] = u32::from(b);
}

// One pass over the nodes, from the lowest up.
pub fn weigh(
    nodes: &[u32],
    n: usize,
    count: usize,
    chances: &[u32],
    few: &mut [u32],
    picks: &mut [u32],
)
    requires { Lent true n nodes.now count 1 × (n ≤ length chances.now) × Chances n chances.now × (count ≤ length few.old) × (count ≤ length picks.old) }
    ensures { Weighed n chances.now nodes.now few.new picks.new count }
{
    for i in 2..count + 2 {
        weigh_node(nodes, n, count, chances, few, picks, i);
    }
}
