// The examples that the rule book marks, and messages and calls worked out by hand, as tables in specs/; that the
// definitions agree with every row is proved in proofs/. There is no code here: the crate runs prints messages.
#![tactic(auto)]
