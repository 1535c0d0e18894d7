//! Lemmas on tests, numbers, orders, options, results and lists, which the proofs of the crates above cite. It has no
//! code.
#![tactic(auto)]
