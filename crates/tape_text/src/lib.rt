//! What `tape` prints: the listing of a volume in columns or as rows of CSV, what is free of it, its records as a map
//! or as a picture, and the lines of a text file.
#![tactic(auto)]

mod cells;
mod columns;
mod dates;
mod fields;
mod free;
mod holders;
mod lines;
mod map;
mod pages;
mod picture;
mod shown;
mod table;
mod texts;
mod volume;

pub use pages::Pages;
pub use table::first_csv_row;
pub use texts::{put_text, text_size};
