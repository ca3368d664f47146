// Laws of the definitions of document 01 (crate `rules`). This crate has laws only, in proofs/: whoever reasons about a pool uses them in place of a definition's
// text, so that a changed definition is paid for here and nowhere else.
#![tactic(auto)]
