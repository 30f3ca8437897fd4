//! One run, and what it leaves.

ghost use Rattle.std.specs.Prelude.{◌≡◌, ◌≤◌, length, IfOk};
ghost use Rattle.std.specs.List.{All};
ghost use Rattle.il_ring.specs.Rings.{MayStand};

use crate::images::formatted;
use il_device::{Device, Printer, Quiet};
use il_guest::Guest;
use il_host::{Ended, Rig, run_il};
use il_ports::{Medium, MemoryMedium, MemorySink, MemorySource};
use il_same::same;
use itoa::Buffer;
use std::alloc::{AllocError, Global};
use std::process::Abort;
use std::test::Fail;

/// What is on the loop after the drive.
#[derive(Clone, Copy)]
pub enum Behind {
    Nothing,
    Printer,
    /// A device that sends nothing.
    Quiet,
    /// As many devices as there is room for: 28 that send nothing, and a printer.
    Full,
}

/// What a run is given. The lists name the calls that fail, counted from 1.
#[derive(Clone, Copy)]
pub struct Given<'a> {
    /// With a space between two of them.
    pub words: &'a str,
    /// The bytes of the image TAPE, where there is one.
    pub image: Option<&'a [u8]>,
    pub script: &'a [u8],
    /// How many bytes of the script come at once.
    pub piece: usize,
    pub behind: Behind,
    /// Whether there is a second controller, which asks the addresses 1 and 2. A full loop has no room for it.
    pub guest: bool,
    pub failing_inserts: &'a [u64],
    pub failing_reads: &'a [u64],
    /// With the bytes that each leaves in its record.
    pub failing_writes: &'a [(u64, [u8; 256])],
    pub failing_takes: &'a [u64],
    pub failing_puts: &'a [u64],
    /// How many bytes the output has room for.
    pub room: usize,
}

/// What a run leaves.
#[derive(Drop)]
pub struct Left {
    pub status: u8,
    pub output: Vec<u8>,
    /// The image TAPE as it then is.
    pub image: Option<Vec<u8>>,
    /// The writes, each a record and its bytes.
    pub writes: Vec<(u16, [u8; 256])>,
    /// How many frames the device after the drive took.
    pub frames: Option<u64>,
    /// The last address that the second controller asks, and whether it is idle.
    pub guest: Option<(u8, bool)>,
}

impl Left {
    /// Whether the run ended with this status and wrote this output.
    pub(crate) fn ended_with(&self, status: u8, output: &[u8]) -> bool {
        same((self.output.as_slice(), self.status), (output, status))
    }

    /// These bytes of the image TAPE, where it has them.
    pub(crate) fn part(&self, from: usize, to: usize) -> Option<&[u8]> {
        self.image.as_deref()?.get(from..to)
    }
}

impl<'a> Given<'a> {
    /// A quiet run of a script over an image, without a fault, with a printer after the drive and a second controller.
    pub(crate) fn script(image: &'a [u8], script: &'a [u8]) -> Given<'a> {
        Given {
            words: "--quiet TAPE",
            image: Some(image),
            script,
            piece: 4096,
            behind: Behind::Printer,
            guest: true,
            failing_inserts: &[],
            failing_reads: &[],
            failing_writes: &[],
            failing_takes: &[],
            failing_puts: &[],
            room: 2_000_000,
        }
    }

    /// A run of a script with these words, where there is no image.
    pub(crate) fn without_image(script: &'a [u8], words: &'a str) -> Given<'a> {
        Given {
            image: None,
            words,
            ..Given::script(&[], script)
        }
    }

    /// The same with these words.
    pub(crate) fn with_words(self, words: &'a str) -> Given<'a> {
        Given { words, ..self }
    }
}

pub(crate) fn words_of(alloc: Global, words: &str) -> Result<Vec<String>, AllocError> {
    let mut all = Vec::new(alloc);
    for word in words.split(' ') {
        if !word.is_empty() {
            all.push(String::from_str(alloc, word)?)?;
        }
    }
    Ok(all)
}

/// A shelf with an image of this name, where there is one.
pub(crate) fn shelf_of(
    alloc: Global,
    name: &str,
    image: Option<&[u8]>,
) -> Result<Vec<(String, Vec<u8>)>, AllocError> {
    let mut shelf = Vec::new(alloc);
    if let Some(bytes) = image {
        shelf.push((
            String::from_str(alloc, name)?,
            Vec::from_slice(alloc, bytes)?,
        ))?;
    }
    Ok(shelf)
}

fn printer(alloc: Global) -> Result<Box<dyn Device>, AllocError>
    ensures stand { IfOk result (λ b. MayStand (⟦<Box<dyn Device> as Device>⟧.state b)) }
{
    let printer: Box<dyn Device> = Box::new(alloc, Printer::new(alloc)?)?;
    Ok(printer)
}

fn quiet(alloc: Global) -> Result<Box<dyn Device>, AllocError>
    ensures stand { IfOk result (λ b. MayStand (⟦<Box<dyn Device> as Device>⟧.state b)) }
{
    let quiet: Box<dyn Device> = Box::new(alloc, Quiet::new())?;
    Ok(quiet)
}

/// A list of one device.
fn only(alloc: Global, device: Box<dyn Device>) -> Result<Vec<Box<dyn Device>>, AllocError>
    requires { MayStand (⟦<Box<dyn Device> as Device>⟧.state device) }
    ensures few { IfOk result (λ devices. length devices.items ≤ 29) }
    ensures stand { IfOk result (λ devices. All (λ b. MayStand (⟦<Box<dyn Device> as Device>⟧.state b)) devices.items) }
{
    let mut devices = Vec::new(alloc);
    devices.push(device)?;
    Ok(devices)
}

/// As many devices as a ring has beside its drive, the last of them a printer.
fn twenty_nine(alloc: Global) -> Result<Vec<Box<dyn Device>>, AllocError>
    ensures few { IfOk result (λ devices. length devices.items ≤ 29) }
    ensures stand { IfOk result (λ devices. All (λ b. MayStand (⟦<Box<dyn Device> as Device>⟧.state b)) devices.items) }
{
    let mut devices = Vec::new(alloc);
    'quiets: for _ in 0..28usize {
        devices.push(quiet(alloc)?)?;
    }
    devices.push(printer(alloc)?)?;
    Ok(devices)
}

pub(crate) fn devices_of(alloc: Global, behind: Behind) -> Result<Vec<Box<dyn Device>>, AllocError>
    ensures few { IfOk result (λ devices. length devices.items ≤ 29) }
    ensures stand { IfOk result (λ devices. All (λ b. MayStand (⟦<Box<dyn Device> as Device>⟧.state b)) devices.items) }
{
    match behind {
        Behind::Nothing => Ok(Vec::new(alloc)),
        Behind::Printer => only(alloc, printer(alloc)?),
        Behind::Quiet => only(alloc, quiet(alloc)?),
        Behind::Full => twenty_nine(alloc),
    }
}

/// The words that plan one fault, at this crossing.
pub(crate) fn words_with(
    alloc: Global,
    option: &str,
    crossing: u64,
    change: &str,
) -> Result<String, AllocError> {
    let mut digits = Buffer::new();
    let mut words = String::from_str(alloc, "--quiet ")?;
    for part in [option, digits.format(crossing), change, " TAPE"] {
        words.push_str(part)?;
    }
    Ok(words)
}

/// The medium of a run. No tape is in.
fn medium_of(alloc: Global, given: &Given) -> Result<MemoryMedium, AllocError>
    ensures { IfOk result (λ m. (⟦<MemoryMedium as Medium>⟧.view m).record_count ≡ 0) }
{
    MemoryMedium::new(
        alloc,
        shelf_of(alloc, "TAPE", given.image)?,
        Vec::from_slice(alloc, given.failing_reads)?,
        Vec::from_slice(alloc, given.failing_writes)?,
        Vec::from_slice(alloc, given.failing_inserts)?,
        6_000,
    )
}

/// The rig of a run. No tape is in.
fn rig_of(alloc: Global, given: &Given) -> Result<Rig<MemoryMedium>, AllocError>
    ensures { IfOk result (λ rig. (⟦<MemoryMedium as Medium>⟧.view rig.medium).record_count ≡ 0) }
{
    let guest = if given.guest {
        Some(Guest::new(2))
    } else {
        None
    };
    Ok(Rig {
        after: devices_of(alloc, given.behind)?,
        medium: medium_of(alloc, given)?,
        before: Vec::new(alloc),
        guest,
    })
}

/// The source that holds the script of a run.
fn source_of(alloc: Global, given: &Given) -> Result<MemorySource, AllocError> {
    let script = Vec::from_slice(alloc, given.script)?;
    let failing = Vec::from_slice(alloc, given.failing_takes)?;
    Ok(MemorySource::new(script, given.piece.max(1), failing))
}

/// The image TAPE on this medium.
fn image_on(alloc: Global, medium: &MemoryMedium) -> Result<Option<Vec<u8>>, AllocError> {
    match medium.image("TAPE") {
        Some(bytes) => Ok(Some(Vec::from_slice(alloc, bytes)?)),
        None => Ok(None),
    }
}

/// What a run leaves that ended with this status, this output and this rig.
fn left_of(
    alloc: Global,
    status: u8,
    output: &[u8],
    rig: &Rig<MemoryMedium>,
) -> Result<Left, AllocError> {
    let frames = rig.after.first().map(|device| device.frames());
    let guest = match &rig.guest {
        Some(guest) => Some((guest.last(), guest.is_idle())),
        None => None,
    };
    Ok(Left {
        status,
        output: Vec::from_slice(alloc, output)?,
        image: image_on(alloc, &rig.medium)?,
        writes: Vec::from_slice(alloc, rig.medium.writes())?,
        frames,
        guest,
    })
}

/// Runs `il` over the ports in memory.
pub(crate) fn run(alloc: Global, given: &Given) -> Result<Left, Fail> {
    let words = words_of(alloc, given.words)?;
    let mut script = source_of(alloc, given)?;
    let failing_puts = Vec::from_slice(alloc, given.failing_puts)?;
    let mut out = MemorySink::new(alloc, given.room, failing_puts)?;
    let rig = rig_of(alloc, given)?;
    if !rig.fits() {
        return Err(Fail::from("a rig that fits"));
    }
    let Ended { status, rig } = run_il(alloc, words.as_slice(), &mut script, &mut out, rig);
    Ok(left_of(alloc, status, out.written(), &rig)?)
}

/// What a run of this script with these words leaves over a formatted volume.
pub(crate) fn run_formatted(alloc: Global, words: &str, script: &[u8]) -> Result<Left, Fail> {
    let tape = formatted(alloc)?;
    run(alloc, &Given::script(&tape, script).with_words(words))
}

/// The image that a run leaves.
pub(crate) fn image_after(alloc: Global, given: &Given) -> Result<Vec<u8>, Fail> {
    Ok(run(alloc, given)?.image.ok_or("an image")?)
}

/// A run ends with this status and this output. The number tells it from others of its kind.
pub(crate) fn nth_answers(
    rt: &impl Abort,
    alloc: Global,
    number: usize,
    given: &Given,
    status: u8,
    output: &[u8],
) -> Result<(), Fail> {
    let left = run(alloc, given)?;
    assert!(rt;
        left.ended_with(status, output),
        "the status and the output, {number}"
    );
    Ok(())
}

/// A run ends with this status and this output.
pub(crate) fn answers(
    rt: &impl Abort,
    alloc: Global,
    given: &Given,
    status: u8,
    output: &[u8],
) -> Result<(), Fail> {
    nth_answers(rt, alloc, 1, given, status, output)
}

/// Quiet runs of these scripts over this image end with these statuses and outputs.
pub(crate) fn each_answers(
    rt: &impl Abort,
    alloc: Global,
    image: &[u8],
    rows: &[(&[u8], u8, &[u8])],
) -> Result<(), Fail> {
    for (number, (script, status, output)) in rows.iter().enumerate() {
        let given = Given::script(image, script);
        nth_answers(rt, alloc, number, &given, *status, output)?;
    }
    Ok(())
}

/// A quiet run of this script over a formatted volume ends with this status and this output.
pub(crate) fn formatted_answers(
    rt: &impl Abort,
    alloc: Global,
    script: &[u8],
    status: u8,
    output: &[u8],
) -> Result<(), Fail> {
    let tape = formatted(alloc)?;
    answers(rt, alloc, &Given::script(&tape, script), status, output)
}
