// What follows from the definitions of typed equations alone: the tree that a text says, its function, its rules, and one answer to each text.
#![tactic(auto)]

pub fn nothing() {}
