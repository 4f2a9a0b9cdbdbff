// Decision diagrams as values and the theorems about them: specs/ has the operations, proofs/ what they mean in the paper's words.
#![tactic(auto)]

pub fn nothing() {}
