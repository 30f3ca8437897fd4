//! What arguments of the program spell: the names of files, the label of a volume, and its number of slots; and what is
//! written about an argument that spells none.
#![tactic(auto)]

mod names;
mod volumes;

pub use names::{NoNames, name_spelt, names_spelt, new_name_spelt, refuse_new_name};
pub use volumes::{label_spelt, refuse_label, refuse_slots, slots_spelt};
