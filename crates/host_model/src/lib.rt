//! What a command of the host is, and what a whole run is: what a script asks for, what each command replies and
//! leaves, what its log says, and what a run leaves by how it ends.
//!
//! The definitions stand in `specs/`, and the laws on them and worked examples in `proofs/`; there is no code here.
#![tactic(auto)]
