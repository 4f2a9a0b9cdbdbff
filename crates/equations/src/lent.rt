// The lists that an import is lent: whether each is long enough, and the nine of them that are work made zero again.
ghost use Rattle.std.specs.Prelude.{List, ℕ, ◌<◌, length};
ghost use Rattle.tables.specs.Flags.{Says};
ghost use Rattle.equations.specs.Lists.{lists, Long, NamesFit, OrderFits, Worked};

// A place of a text is a number of 32 bits, and so is one more.
const PLACES: usize = 4_294_967_295;

// Whether the lists that the names are found by are longer than the text.
fn names_fit(
    size: usize,
    heads: &[u32],
    next: &[u32],
    names: &[u32],
    defs: &[u32],
    marks: &[u32],
    amounts: &[u32],
) -> bool
    ensures { Says result (NamesFit size heads.now next.now names.now defs.now marks.now amounts.now) }
{
    size < heads.len()
        && size < next.len()
        && size < names.len()
        && size < defs.len()
        && size < marks.len()
        && size < amounts.len()
}

// Whether the lists that the walk and the answer take are.
fn order_fits(
    size: usize,
    starts: &[u32],
    rights: &[u32],
    order: &[u32],
    ring: &[u32],
    shown: &[u32],
) -> bool
    ensures { Says result (OrderFits size starts.now rights.now order.now ring.now shown.now) }
{
    size < starts.len()
        && size < rights.len()
        && size < order.len()
        && size < ring.len()
        && size < shown.len()
}

// Whether number 9 is not due.
pub fn long_enough(
    size: usize,
    heads: &[u32],
    next: &[u32],
    names: &[u32],
    defs: &[u32],
    marks: &[u32],
    amounts: &[u32],
    starts: &[u32],
    rights: &[u32],
    order: &[u32],
    ring: &[u32],
    shown: &[u32],
) -> bool
    ensures { Says result (Long size (lists heads.now next.now names.now defs.now marks.now amounts.now starts.now rights.now order.now ring.now shown.now)) }
{
    size < PLACES
        && names_fit(size, heads, next, names, defs, marks, amounts)
        && order_fits(size, starts, rights, order, ring, shown)
}

// The nine lists that are work, zero again.
pub fn clear_work(
    heads: &mut [u32],
    next: &mut [u32],
    names: &mut [u32],
    defs: &mut [u32],
    marks: &mut [u32],
    amounts: &mut [u32],
    starts: &mut [u32],
    rights: &mut [u32],
    order: &mut [u32],
)
    ensures { (R W R' W' : List ℕ) → Worked (lists heads.old next.old names.old defs.old marks.old amounts.old starts.old rights.old order.old R W) (lists heads.new next.new names.new defs.new marks.new amounts.new starts.new rights.new order.new R' W') }
{
    heads.fill(0);
    next.fill(0);
    names.fill(0);
    defs.fill(0);
    marks.fill(0);
    amounts.fill(0);
    starts.fill(0);
    rights.fill(0);
    order.fill(0);
}
