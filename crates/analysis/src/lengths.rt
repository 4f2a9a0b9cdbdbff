// Number 9: the lengths of what is lent.
ghost use Rattle.std.specs.Prelude.{◌+◌, ◌/◌, ◌≡◌, length};
ghost use Rattle.tables.specs.Flags.{Says};
ghost use Rattle.memory.specs.Memory.{area_length, TableLength, Areas, Lengths, memory, capacity};

// Whether a table's length obeys the rules.
fn table_ok(table: &[u32]) -> bool
    ensures { Says result (TableLength table.now) }
{
    if table.len() % 3 != 0 {
        return false;
    }
    if paper::TABLE < table.len() {
        return false;
    }
    true
}

// The smallest length of a work area.
fn area_length(nodes: &[u32], cuts: &[u32]) -> usize
    requires { (TableLength nodes.now) × (TableLength cuts.now) }
    ensures { result ≡ area_length (capacity nodes.now) (capacity cuts.now) }
{
    let a = nodes.len() / 3;
    let b = cuts.len() / 3;
    if a < b {
        return b + 2;
    }
    a + 2
}

// Whether the four work areas are long enough.
fn areas_ok(
    nodes: &[u32],
    cuts: &[u32],
    heads: &[u32],
    next: &[u32],
    marks: &[u32],
    own: &[u32],
) -> bool
    requires { (TableLength nodes.now) × (TableLength cuts.now) }
    ensures { Says result (Areas nodes.now cuts.now heads.now next.now marks.now own.now) }
{
    let least = area_length(nodes, cuts);
    if heads.len() < least {
        return false;
    }
    if next.len() < least {
        return false;
    }
    if marks.len() < least {
        return false;
    }
    if own.len() < least {
        return false;
    }
    true
}

// Whether every lent length obeys the rules, for a tree of so many gates: otherwise 9.
pub fn lengths_ok(
    nodes: &[u32],
    cuts: &[u32],
    gates: &[u32],
    added: &[u32],
    memo: &[u32],
    heads: &[u32],
    next: &[u32],
    marks: &[u32],
    own: &[u32],
    gate_count: usize,
) -> bool
    ensures { Says result (Lengths gate_count (memory nodes.now cuts.now gates.now added.now memo.now heads.now next.now marks.now own.now)) }
{
    if !table_ok(nodes) {
        return false;
    }
    if !table_ok(cuts) {
        return false;
    }
    if gates.len() < gate_count {
        return false;
    }
    if added.len() < gate_count {
        return false;
    }
    if memo.len() % 4 != 0 {
        return false;
    }
    if !areas_ok(nodes, cuts, heads, next, marks, own) {
        return false;
    }
    true
}
