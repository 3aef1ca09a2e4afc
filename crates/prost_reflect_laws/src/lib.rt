//! What is proved of the definitions of the wire format: of what bytes mean and are written as, of faults, of unknown fields
//! and of reductions.
//!
//! There is no code here: each function has an empty body, and its contract is a law, as that bytes spell at most one list of
//! records, that what is written of a well-typed content means it again, and that a type with fields left out hands on what the
//! full type reads.
//!
//! Begin with `laws`, which has one function a law; `field_laws` and `laws/faults` have those of unknown fields and of faults,
//! `passage` those of reductions, and `laws/instances` worked examples, also of statements near the laws that are false. The
//! statements stand in `specs/`, the lemmas behind them in `proofs/`.
#![tactic(auto)]

pub mod field_laws;
pub mod laws;
pub mod passage;
