//! What a finished log of the loop says: how far its frames came, which roles it left, what each
//! device heard, which exchanges it is made of, and what it did to the tape in the drive.
//!
//! The definitions stand in `specs/` and the laws on them in `proofs/`; there is no code here. A log
//! is a list of entries, oldest first. Party 0 is the host and party k the k-th device. Exchanges are
//! read on a `Loop`: how many devices there are, which party is the controller, and which the drive.
#![tactic(auto)]
