ghost use Rattle.std.specs.Prelude.{◌≡◌, ◌≤◌, ◌*◌, true, length, IfOk};
ghost use Rattle.lif_model.specs.Apply.{Dir};
ghost use Rattle.tape_jobs.specs.Dir.{DirDid, HasRoomFor, WritesListing, styled_text, volume_text};
ghost use Rattle.tape_volumes.specs.Volumes.{StaysBeside, StopLeaves};

use crate::slot_counts::are_few;
use il_ports::Sink;
use il_script::{Page, Reply};
use lif_dir::SlotTable;
use lif_header::Header;
use std::alloc::{AllocError, Global};
use tape_text::Pages;
use tape_volumes::{VolumeJob, Volumes, Went, written};

/// Which text is written for a volume.
#[derive(Clone, Copy, Debug)]
pub enum Style<'a> {
    /// Its listing in columns, after the name of the image if it has a heading.
    Columns(Option<&'a str>),
    /// Its listing as rows of CSV, which begin with the name of the image.
    Rows(&'a str),
    /// Its line, and the largest file that can be added.
    Free,
    /// What each record belongs to, in rows of characters.
    Map,
    /// What each record belongs to, as an SVG file.
    Picture,
}

/// Takes the pages for a text of a volume on a medium of `size` records. The only error is want of memory.
fn pages_for(alloc: Global, style: Style<'_>, size: u16) -> Result<Pages, AllocError>
    ensures { IfOk result (λ pages. HasRoomFor style.entry size pages) }
{
    match style {
        Style::Columns(heading) => Pages::new(alloc, heading, size),
        Style::Rows(image) => Pages::for_rows(alloc, image.as_bytes(), size),
        Style::Free | Style::Map | Style::Picture => Pages::new(alloc, None, size),
    }
}

/// Returns the text for a volume with this header and these slots, on a medium of `size` records. It takes no memory.
fn text_for(
    style: Style<'_>,
    all: bool,
    size: u16,
    header: &Header,
    slots: &SlotTable,
    pages: Pages,
) -> Page
    requires few { length slots.now.slots ≤ 8 * size }
    requires room { HasRoomFor style size pages }
    ensures { result.text ≡ styled_text style.entry all size header.now slots.now.slots }
{
    match style {
        Style::Columns(heading) => pages.listing(heading, all, size, header, slots),
        Style::Rows(image) => pages.rows(image.as_bytes(), all, size, header, slots),
        Style::Free => pages.free_text(size, header, slots),
        Style::Map => pages.map_text(size, header, slots),
        Style::Picture => pages.picture_text(size, header, slots),
    }
}

/// Writes the text for the directory that is kept in memory. A directory has at most eight slots for each record of the
/// medium, and the pages have room for these.
fn write_listing<V: Volumes, K: Sink>(
    volumes: &V,
    style: Style<'_>,
    all: bool,
    pages: Pages,
    out: &mut K,
) -> Went
    requires valid { (V.seen volumes.now).valid }
    requires kept { (V.seen volumes.now).mounted.kept ≡ true }
    requires room { HasRoomFor style (V.seen volumes.now).mounted.records pages }
    ensures { WritesListing result
        (volume_text style.entry all (V.seen volumes.now).mounted.records) (V.seen volumes.now).mounted.tape
        (K.written out.old) (K.written out.new) (K.faults out.old) (K.faults out.new) }
{
    let size = volumes.size();
    let Some((header, slots)) = volumes.directory() else {
        unreachable!()
    };
    if !are_few(slots, size) {
        return Went::OutOfMemory;
    }
    let page = text_for(style, all, size, &header, slots, pages);
    written(out, page.text())
}

/// Writes a text for one image. All memory is taken before the directory is read, since to read it may settle or finish
/// the tape.
pub fn dir<V: Volumes, K: Sink>(
    alloc: Global,
    volumes: &mut V,
    style: Style<'_>,
    all: bool,
    out: &mut K,
) -> Went
    requires valid { (V.seen volumes.old).valid }
    ensures valid { (V.seen volumes.new).valid }
    ensures lists { DirDid result style.entry all (V.seen volumes.old).mounted (V.seen volumes.new).mounted
        (K.written out.old) (K.written out.new) (K.faults out.old) (K.faults out.new) }
    ensures beside { StaysBeside (StopLeaves Dir (V.seen volumes.old).mounted)
        (V.seen volumes.old) (V.seen volumes.new) }
{
    let Ok(pages) = pages_for(alloc, style, volumes.size()) else {
        return Went::OutOfMemory;
    };
    match volumes.list() {
        Reply::Ok => write_listing(volumes, style, all, pages, out),
        Reply::No(code) => Went::Refused(code),
        Reply::FaultFrame | Reply::FaultMedium => Went::Fault,
    }
}

/// A job that writes a text for one image to standard output.
#[derive(Drop)]
pub struct Listing<'a, K: Drop> {
    /// Which text is written.
    pub style: Style<'a>,
    /// Whether a listing has the redo file too. The other texts do not depend on this.
    pub all: bool,
    /// Standard output.
    pub out: K,
}

impl<'a, K: Sink + Drop> VolumeJob for Listing<'a, K> {
    ghost use Rattle.lif_model.specs.Apply.{Dir};
    ghost use Rattle.tape_jobs.specs.Dir.{DirDid};
    ghost use Rattle.tape_volumes.specs.Volumes.{StopLeaves};

    ghost asks = { λ job. Unit {0} };

    ghost does = { λ old new went s t. DirDid went old.style old.all s t
        (K.written old.out) (K.written new.out) (K.faults old.out) (K.faults new.out) };

    ghost leaves = { λ job s x. StopLeaves Dir s x };

    fn work<V: Volumes>(&mut self, alloc: Global, volumes: &mut V) -> Went {
        dir(alloc, volumes, self.style, self.all, &mut self.out)
    }
}
