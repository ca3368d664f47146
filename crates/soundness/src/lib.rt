// "Every event on a sound pool leaves a sound pool." (document 01, "A sound pool"). This crate has theorems only: proofs/Kept.antt states them.
#![tactic(auto)]
