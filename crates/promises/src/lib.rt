// What the pool promises over any run from a fresh pool. This crate has theorems only: specs/ has the words, proofs/Promises.antt states them.
#![tactic(auto)]
