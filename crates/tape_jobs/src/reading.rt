ghost use Rattle.std.specs.Prelude.{◌≡◌, ◌≤◌, ◌/◌, [], IfOk, length};
ghost use Rattle.lif_model.specs.Apply.{Fetch};
ghost use Rattle.lif_model.specs.Shelf.{largest_image};
ghost use Rattle.lif_dir.specs.Entries.{name_bytes};
ghost use Rattle.tape_jobs.specs.Reading.{HasRoomForFile, ReadDid, WritesFilePart, part_told, size_of};
ghost use Rattle.tape_volumes.specs.Volumes.{StaysBeside, StopLeaves, content_in};

use il_ports::Sink;
use il_script::{Code, Page, Reply};
use lif_dir::Name;
use std::alloc::{AllocError, Global};
use tape_names::bytes_told;
use tape_text::{put_text, text_size};
use tape_volumes::{FileRead, VolumeJob, Volumes, Went, written};

/// The type of a text file.
const TEXT_TYPE: u16 = 1;

/// The bytes of the largest image, that of a disc.
const LARGEST_IMAGE: usize = 630_784;

/// What is written of a file.
#[derive(Clone, Copy, Debug, PartialEq, Eq)]
pub enum Part {
    /// The lines of a text file, each with a line feed.
    Lines,
    /// As many bytes as the file tells: a text by its end, and any other file by its implementation field.
    Bytes,
}

/// Writes the lines of a text file.
fn write_lines<K: Sink>(file: FileRead<'_>, page: &mut Page, out: &mut K) -> Went
    requires page { HasRoomForFile page.old }
    requires fits { length file.bytes.now ≤ largest_image }
    ensures { WritesFilePart result Part.Lines (part_told Part.Lines (content_in file.entry))
        (K.written out.old) (K.written out.new) (K.faults out.old) (K.faults out.new) }
{
    if file.kind == TEXT_TYPE && put_text(page, file.bytes) {
        written(out, page.text())
    } else {
        Went::Refused(Code::NotText)
    }
}

/// How many bytes of its records a file has, if it tells that.
fn size_of(file: &FileRead<'_>) -> Option<usize>
    requires fits { length file.now.bytes.now ≤ largest_image }
    ensures { result ≡ size_of (content_in file.now) }
{
    if file.kind == TEXT_TYPE {
        return text_size(file.bytes);
    }
    let records = (file.bytes.len() / 256) as u32;
    let size = bytes_told(file.kind, &file.field, records)?;
    Some(size as usize)
}

/// Writes as many bytes of a file as it tells.
fn write_bytes<K: Sink>(file: FileRead<'_>, out: &mut K) -> Went
    requires fits { length file.bytes.now ≤ largest_image }
    ensures { WritesFilePart result Part.Bytes (part_told Part.Bytes (content_in file.entry))
        (K.written out.old) (K.written out.new) (K.faults out.old) (K.faults out.new) }
{
    match size_of(&file) {
        Some(size) => {
            let count = size.min(file.bytes.len());
            written(out, &file.bytes[..count])
        }
        None => Went::NoSize,
    }
}

/// Writes a part of a file.
fn write_part<K: Sink>(part: Part, file: FileRead<'_>, page: &mut Page, out: &mut K) -> Went
    requires page { HasRoomForFile page.old }
    requires fits { length file.bytes.now ≤ largest_image }
    ensures { WritesFilePart result part (part_told part (content_in file.entry))
        (K.written out.old) (K.written out.new) (K.faults out.old) (K.faults out.new) }
{
    match part {
        Part::Lines => write_lines(file, page, out),
        Part::Bytes => write_bytes(file, out),
    }
}

/// Reads the file of that name, and writes a part of it.
fn read<V: Volumes, K: Sink>(
    volumes: &mut V,
    part: Part,
    name: &Name,
    page: &mut Page,
    out: &mut K,
) -> Went
    requires valid { (V.seen volumes.old).valid }
    requires page { HasRoomForFile page.old }
    ensures valid { (V.seen volumes.new).valid }
    ensures reads { ReadDid result part (name_bytes name.now) (V.seen volumes.old).mounted (V.seen volumes.new).mounted
        (K.written out.old) (K.written out.new) (K.faults out.old) (K.faults out.new) }
    ensures beside { StaysBeside (StopLeaves (Fetch (name_bytes name.now)) (V.seen volumes.old).mounted)
        (V.seen volumes.old) (V.seen volumes.new) }
{
    match volumes.fetch(name) {
        Reply::Ok => write_part(part, volumes.file(), page, out),
        Reply::No(code) => Went::Refused(code),
        Reply::FaultFrame | Reply::FaultMedium => Went::Fault,
    }
}

/// An empty page with room for every file.
pub fn page_for_file(alloc: Global) -> Result<Page, AllocError>
    ensures { IfOk result (λ page. HasRoomForFile page) }
{
    Page::new(alloc, LARGEST_IMAGE)
}

/// The jobs that read one file.
#[derive(Drop)]
pub struct Reading<'a, K: Drop> {
    /// What is written of the file.
    pub part: Part,
    /// The name of the file.
    pub name: &'a Name,
    /// A page for the lines.
    pub page: Page,
    /// Standard output.
    pub out: K,
}

impl<'a, K: Sink + Drop> VolumeJob for Reading<'a, K> {
    ghost use Rattle.std.specs.Prelude.{◌≡◌};
    ghost use Rattle.lif_model.specs.Apply.{Fetch};
    ghost use Rattle.lif_dir.specs.Entries.{name_bytes};
    ghost use Rattle.tape_jobs.specs.Reading.{HasRoomForFile, ReadDid};
    ghost use Rattle.tape_volumes.specs.Volumes.{StopLeaves};

    ghost asks = { λ job. HasRoomForFile job.page };

    ghost does = { λ old new went s t. ReadDid went old.part (name_bytes old.name.now) s t
        (K.written old.out) (K.written new.out) (K.faults old.out) (K.faults new.out) };

    ghost leaves = { λ job s x. StopLeaves (Fetch (name_bytes job.name.now)) s x };

    fn work<V: Volumes>(&mut self, _: Global, volumes: &mut V) -> Went {
        read(volumes, self.part, self.name, &mut self.page, &mut self.out)
    }
}
