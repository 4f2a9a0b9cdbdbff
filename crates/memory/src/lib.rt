// What an analysis is lent, and what it answers where it is done.
#![tactic(auto)]

ghost use Rattle.memory.specs.Memory.{memory, AllZero, Settled};

use tables::clear;

// What a done analysis answers: the counts of both tables and both roots.
#[derive(Clone, Copy, Debug, PartialEq, Eq)]
pub struct Tables {
    pub nodes: usize,
    pub cut_nodes: usize,
    pub root: usize,
    pub cut_root: usize,
}

// All that was lent becomes zero, to the last number.
pub fn wipe(
    nodes: &mut [u32],
    cuts: &mut [u32],
    gates: &mut [u32],
    added: &mut [u32],
    memo: &mut [u32],
    heads: &mut [u32],
    next: &mut [u32],
    marks: &mut [u32],
    own: &mut [u32],
)
    ensures { AllZero (memory nodes.old cuts.old gates.old added.old memo.old heads.old next.old marks.old own.old) (memory nodes.new cuts.new gates.new added.new memo.new heads.new next.new marks.new own.new) }
{
    clear(nodes);
    clear(cuts);
    clear(gates);
    clear(added);
    clear(memo);
    clear(heads);
    clear(next);
    clear(marks);
    clear(own);
}

// The memo and the work areas become zero.
pub fn settle(
    memo: &mut [u32],
    heads: &mut [u32],
    next: &mut [u32],
    marks: &mut [u32],
    own: &mut [u32],
)
    ensures { Settled memo.old heads.old next.old marks.old own.old memo.new heads.new next.new marks.new own.new }
{
    clear(memo);
    clear(heads);
    clear(next);
    clear(marks);
    clear(own);
}
