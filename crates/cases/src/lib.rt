// The marked cases of documents 01 and 02: specifications and proofs only.
#![tactic(auto)]
