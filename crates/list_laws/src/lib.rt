//! Lemmas on lists, entries and tests that several crates need and std doesn't have. There is no code: `proofs/` is
//! the crate, and a proof cites it as `Rattle.list_laws.proofs.FILE`.
#![tactic(auto)]
