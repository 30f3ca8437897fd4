//! The arguments of `tape`: which job they ask for, and when they are refused.
//!
//! The program takes `tape dir [--all] [--csv] IMAGE...`, `tape out IMAGE FOLDER [NAME...]`, `tape get IMAGE NAME`,
//! `tape raw IMAGE NAME`, `tape free IMAGE`, `tape map [--svg] IMAGE`, `tape why IMAGE`, `tape diff IMAGE OTHER`,
//! `tape new [--disc] [--small] IMAGE LABEL SLOTS`, `tape put [-q] IMAGE NAME`, `tape set [-q] IMAGE NAME`,
//! `tape in [--over] [--mend] [-q] IMAGE FILE...`, `tape purge IMAGE NAME...`, `tape rename IMAGE OLD NEW`,
//! `tape adopt IMAGE`, `tape upgrade IMAGE`, `tape help [JOB]`, `tape --help` and `tape --version`; each job takes
//! `--help` too. [`parse`] reads the arguments, and [`job_of`] gives the job that they ask for.
#![tactic(auto)]

mod command;
mod help;
mod jobs;
mod rules;

pub use command::{NotRead, job_of, parse};
pub use help::{VERSION_TEXT, help_text, missing};
pub use jobs::{Job, Topic};
