// One node of a cut diagram, and one event of a set.
ghost use Rattle.std.specs.Prelude.{◌≡◌, true, ◌≤◌, ◌<◌};
ghost use Rattle.paper.specs.Limits.{limits};
ghost use Rattle.sets.specs.Words.{set_of};
ghost use Rattle.tables.specs.Lent.{Lent};
ghost use Rattle.remaining.specs.Nodes.{Reads};

// A node: its event, the branch with the event failed, and the branch with it sound.
#[derive(Clone, Copy)]
pub struct Node {
    pub event: usize,
    pub failed: usize,
    pub sound: usize,
}

// Node `i`.
pub fn read_node(nodes: &[u32], n: usize, count: usize, i: usize) -> Node
    requires { Lent true n nodes.now count i × (2 ≤ i) }
    ensures { Reads n nodes.now i result.event result.failed result.sound }
{
    let event = tables::event_of(nodes, i);
    let failed = tables::failed_of(nodes, i);
    let sound = tables::sound_of(nodes, i);
    Node {
        event,
        failed,
        sound,
    }
}

// Whether event `e` is a member of the set.
pub fn holds(set: &[u64; sets::WORDS], e: usize) -> bool
    requires { e < limits.events }
    ensures { result ≡ set_of set.now e }
{
    let w = set[e / 64];
    (w >> (e % 64)) % 2 == 1
}
