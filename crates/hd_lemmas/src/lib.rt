//! Lemmas for the proofs of other crates: on tests, options, results, lists, finite maps and counts, on the
//! words of `hd_rules`, and on the fields of a text.
//!
//! There is no code here: the lemmas are in `proofs/`, and the proofs of other crates import them.
#![tactic(auto)]
