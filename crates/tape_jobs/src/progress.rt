ghost use Rattle.std.specs.Prelude.{◌≡◌};
ghost use Rattle.tape_jobs.specs.Out.{HasRoomForName};

use il_ports::{Sink, write_all};
use il_script::Page;
use lif_dir::Name;

/// Where the progress of a long job is told: on a terminal, or nowhere. No clause says what is told.
#[derive(Drop)]
pub struct Progress<P: Drop> {
    /// The terminal, if there is one.
    pub terminal: Option<P>,
}

impl<P: Sink + Drop> Progress<P> {
    /// Tells that the job is at this file, as `3 of 20 NAME`. It is lost if it cannot be written.
    pub(crate) fn tell(&mut self, number: usize, count: usize, name: &Name, line: &mut Page)
        requires room { HasRoomForName line.old }
        ensures room { line.new.room ≡ line.old.room }
    {
        let Some(terminal) = &mut self.terminal else {
            return;
        };
        line.clear();
        line.put_number(u32::try_from(number).unwrap_or(u32::MAX));
        line.put(b" of ");
        line.put_number(u32::try_from(count).unwrap_or(u32::MAX));
        line.put(b" ");
        let _ = write_all(terminal, line.text());
        line.clear();
        line.put_name(&name.bytes());
        line.put(b"\n");
        let _ = write_all(terminal, line.text());
    }
}
