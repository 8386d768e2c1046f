//! Incremental evaluation, as definitions and laws without code, over any keys, any values and any node functions.
//!
//! `specs/Value` says what a key's value is at one state of the files, `specs/Rotation` how the labels of a cycle are
//! shown, `specs/Graph` when a graph of records is consistent with a history of the files and what an edit marks,
//! `specs/Journal` which runs are justified, and `specs/Choices` with `specs/States` which choices are possible while
//! nodes are evaluated. The laws are in `proofs/`; they are claimed where a contract of a crate above cites them.
//!
//! Begin at `specs/Value.antt`.
#![tactic(auto)]
