//! What the directory entry of a file says: the name of its type, how many bytes it has, and its date. And the name
//! that the file has on the host, which states its name, type and implementation field.
#![tactic(auto)]

mod dates;
mod host_names;
mod sizes;
mod types;

pub use dates::{Moment, date_in};
pub use host_names::{
    HOST_NAME_LENGTH, HostEntry, entry_of_host_name, host_name_text, name_of_spelling,
    put_host_name,
};
pub use sizes::bytes_told;
pub use types::type_name;
