//! The program `il`: answers the script on standard input over the image of a tape, by frames on a simulated loop; or
//! checks the trace of such a run against the tapes before it and after it.
#![tactic(auto)]

mod checking;
mod devices;
mod messages;
mod performing;
mod running;
mod telling;

use devices::{new_printer, printer_after, second_controller};
use il_device::Device;
use il_ports::StdSink;
use performing::perform_with;
use std::env;
use std::io::{self, BufReader};
use std::process::ExitCode;
use system_files::SystemImages;
use telling::no_memory;

/// The arguments after the program's name.
fn words_of(rt: &HostRuntime) -> io::Result<Vec<String>> {
    Ok(env::args(rt)?.skip(1).collect::<Vec<String>>(rt.alloc())?)
}

fn main(rt: HostRuntime) -> ExitCode {
    let mut error = StdSink::new(rt.stderr());
    let Ok(reader) = BufReader::new(rt.alloc(), rt.reader()) else {
        return no_memory(&mut error).0;
    };
    let Ok(printer) = new_printer(rt.alloc()) else {
        return no_memory(&mut error).0;
    };
    let printer: Box<dyn Device> = printer;
    let Ok(after) = printer_after(rt.alloc(), printer) else {
        return no_memory(&mut error).0;
    };
    perform_with(
        rt.alloc(),
        words_of(&rt),
        reader,
        io::writer(&rt),
        &mut error,
        SystemImages::new(&rt),
        SystemImages::new(&rt),
        after,
        second_controller(),
    )
    .close()
}
