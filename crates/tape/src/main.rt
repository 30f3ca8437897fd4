//! The program `tape`: lists images of tapes and discs, takes files out of them, compares, explains and changes them.
#![tactic(auto)]

mod changes;
mod copies;
mod diff;
mod files;
mod hosted;
mod images;
mod incoming;
mod mounted;
mod new;
mod performing;
mod put;
mod several;
mod showing;
mod whole;
mod why;

use exits::exit;
use il_ports::{StdSink, StdSource};
use performing::perform;
use std::io::IsTerminal;
use std::process::ExitCode;
use std::{env, io};
use system_files::SystemImages;
use tape_drives::{SystemDrives, SystemFolders, SystemMakers, SystemReaders};
use tape_jobs::Progress;

/// The arguments after the program's name.
fn words_of(rt: &HostRuntime) -> io::Result<Vec<String>> {
    Ok(env::args(rt)?.skip(1).collect::<Vec<String>>(rt.alloc())?)
}

fn main(rt: HostRuntime) -> ExitCode {
    let mut error = StdSink::new(rt.stderr());
    let mut input = StdSource::new(rt.stdin());
    let out = StdSink::new(io::writer(&rt));
    let mut drives = SystemDrives::new(&rt);
    let mut readers = SystemReaders::new(&rt);
    let mut folders = SystemFolders::new(&rt);
    let mut makers = SystemMakers::new(&rt);
    let mut host = SystemImages::new(&rt);
    let progress = Progress {
        terminal: rt.stderr().is_terminal().then(|| StdSink::new(rt.stderr())),
    };
    let words = words_of(&rt);
    let (status, _) = perform(
        rt.alloc(),
        words,
        &mut drives,
        &mut readers,
        &mut folders,
        &mut makers,
        &mut host,
        &mut input,
        progress,
        out,
        &mut error,
    );
    exit(status)
}
