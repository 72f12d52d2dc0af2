// What a rig owes over a whole list of calls: the statement is in specs/, its proof in proofs/. This crate
// has no code.
#![tactic(auto)]
