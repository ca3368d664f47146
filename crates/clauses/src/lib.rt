// "A sound pool" of document 01 as tests on lent tables: specs/ has the tests, proofs/ that they are true exactly of a sound pool.
#![tactic(auto)]
