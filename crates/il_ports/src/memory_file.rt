ghost use Rattle.std.specs.Prelude.{◌≡◌, ◌*◌, ◌+◌, ◌<◌, ◌≤◌, ◌^◌, ◌++◌, ◌∷◌, [], ℕ, List, length, take, get_or, OnOk, OnErr, IfOk};
ghost use Rattle.il_ports.specs.Files.{byte_at, Overlaid, Mixed, GrowsTo};
ghost use Rattle.il_ports.specs.MemoryFiles.{failing_kind};

use crate::tape_file::{Access, TapeFile};
use std::alloc::{AllocError, Global};
use std::io::{self, ErrorKind};

/// The bytes that a file in memory may have, 2^40.
const MOST_BYTES: u64 = 1 << 40;

/// Makes the file at least `end` bytes long: it adds zeros.
fn grow(bytes: &mut Vec<u8>, end: usize) -> Result<(), AllocError>
    ensures same { (i : ℕ) → byte_at bytes.new.items i ≡ byte_at bytes.old.items i }
    ensures size { GrowsTo end bytes.old.items bytes.new.items }
    ensures long { OnOk result (end ≤ length bytes.new.items) }
{
    'zeros: while bytes.len() < end {
        bytes.push(0)?;
    }
    Ok(())
}

/// Puts a piece over what is there.
fn put_over(bytes: &mut [u8], from: usize, piece: &[u8])
    requires { from + length piece.now ≤ length bytes.old }
    ensures { Overlaid from piece.now bytes.old bytes.new }
{
    bytes[from..from + piece.len()].copy_from_slice(piece);
}

/// Puts a piece over what is there, or after it: a gap is filled with zeros.
fn overlay(bytes: &mut Vec<u8>, from: usize, piece: &[u8]) -> Result<(), AllocError>
    requires small { from < 2 ^ 40 }
    requires short { length piece.now < 2 ^ 40 }
    ensures ok { OnOk result (Overlaid from piece.now bytes.old.items bytes.new.items) }
    ensures err { OnErr result (Mixed from (length piece.now) bytes.old.items bytes.new.items) }
{
    grow(bytes, from + piece.len())?;
    put_over(bytes, from, piece);
    Ok(())
}

/// Puts other bytes in the place of those that are there, which it keeps.
fn replace(
    alloc: Global,
    bytes: &mut Vec<u8>,
    past: &mut Vec<Vec<u8>>,
    next: Vec<u8>,
) -> Result<(), AllocError>
    ensures ok { OnOk result (bytes.new.items ≡ next.items) }
    ensures err { OnErr result (bytes.new.items ≡ bytes.old.items) }
    ensures past { OnOk result ((v : _) × (v.items ≡ bytes.old.items) × (past.new.items ≡ past.old.items ++ v ∷ [])) }
    ensures past_err { OnErr result (past.new.items ≡ past.old.items) }
{
    past.push(bytes.to_vec(alloc)?)?;
    *bytes = next;
    Ok(())
}

/// Brings these bytes to the disk.
fn bring(
    alloc: Global,
    seen: &[u8],
    kept: &mut Vec<u8>,
    past: &mut Vec<Vec<u8>>,
) -> Result<(), AllocError>
    ensures ok { OnOk result (kept.new.items ≡ seen.now) }
    ensures err { OnErr result (kept.new.items ≡ kept.old.items) }
    ensures past { OnOk result ((v : _) × (v.items ≡ kept.old.items) × (past.new.items ≡ past.old.items ++ v ∷ [])) }
    ensures past_err { OnErr result (past.new.items ≡ past.old.items) }
{
    let next = seen.to_vec(alloc)?;
    replace(alloc, kept, past, next)
}

/// How the first entry of that call says that it fails.
pub(crate) fn listed(fails: &[(u64, ErrorKind)], call: u64) -> Option<ErrorKind>
    ensures { result ≡ failing_kind call fails.now }
{
    for fail in fails {
        if fail.0 == call {
            return Some(fail.1);
        }
    }
    None
}

/// A file in memory. Its calls are counted from 1. A listed call fails with the kind that the list gives, by the first
/// entry of its number: a claim is then refused, a write leaves half of its bytes, and a sync drops what waited for it.
/// Each read and write moves at most `most` bytes. The file keeps the bytes that were on the disk before each sync.
#[derive(Drop)]
pub struct MemoryFile {
    alloc: Global,
    name: Vec<u8>,
    /// What reads give, and what is on the disk.
    seen: Vec<u8>,
    kept: Vec<u8>,
    past: Vec<Vec<u8>>,
    most: usize,
    fails: Vec<(u64, ErrorKind)>,
    calls: u64,
    failures: u64,
    held: Option<Access>,
    is_broken: bool,
}

impl MemoryFile {
    ghost use Rattle.std.specs.Prelude.{◌≡◌, ◌⊎◌, length, false, None, Some, IfErr, IfOk, OnOk, OnErr};
    ghost use Rattle.std.specs.IoError.{error_kind};
    ghost use Rattle.std.specs.declared.io.ErrorKind.TheVariants.{OutOfMemory, FileTooLarge};
    ghost use Rattle.lif_model.specs.Causes.{HasCause, Rose, next_count};
    ghost use Rattle.il_ports.specs.Files.{IsSettledFile, Mixed, Overlaid};
    ghost use Rattle.il_ports.specs.MemoryFiles.{memory_view, FailsAsListed};

    /// A file of that name with these bytes, all of them on the disk.
    pub(crate) fn new(
        alloc: Global,
        name: &str,
        bytes: &[u8],
        most: usize,
        fails: Vec<(u64, ErrorKind)>,
    ) -> Result<MemoryFile, AllocError>
        ensures named { IfOk result (λ f. f.name.items ≡ name.now) }
        ensures seen { IfOk result (λ f. f.seen.items ≡ bytes.now) }
        ensures kept { IfOk result (λ f. f.kept.items ≡ bytes.now) }
        ensures past { IfOk result (λ f. f.past.items ≡ []) }
        ensures sound { IfOk result (λ f. f.is_broken ≡ false) }
        ensures most { IfOk result (λ f. f.most ≡ most) }
        ensures fails { IfOk result (λ f. f.fails ≡ fails) }
        ensures calls { IfOk result (λ f. f.calls ≡ 0) }
        ensures failures { IfOk result (λ f. f.failures ≡ 0) }
        ensures held { IfOk result (λ f. f.held ≡ None) }
    {
        Ok(MemoryFile {
            alloc,
            name: name.as_bytes().to_vec(alloc)?,
            seen: bytes.to_vec(alloc)?,
            kept: bytes.to_vec(alloc)?,
            past: Vec::new(alloc),
            most,
            fails,
            calls: 0,
            failures: 0,
            held: None,
            is_broken: false,
        })
    }

    /// What is on the disk.
    pub fn kept(&self) -> &[u8]
        ensures { (⟦<MemoryFile as TapeFile>⟧.view self.now).kept ≡ Some result.now }
    {
        &self.kept
    }

    /// What was on the disk before each successful sync, oldest first. A successful settle empties this list.
    pub fn past(&self) -> &[Vec<u8>]
        ensures { length result.now ≡ (⟦<MemoryFile as TapeFile>⟧.view self.now).moment }
    {
        &self.past
    }

    /// How many calls were made, up to the largest number of the type.
    pub fn calls(&self) -> u64
        ensures { result ≡ self.now.calls }
    {
        self.calls
    }

    /// Counts a call, and says how it fails, if it does.
    fn next_call(&mut self) -> Option<ErrorKind>
        ensures same { self.new ≡ record self.old { calls = self.new.calls } }
        ensures counts { self.new.calls ≡ next_count self.old.calls }
        ensures listed { result ≡ failing_kind (next_count self.old.calls) self.old.fails.items }
    {
        self.calls = self.calls.saturating_add(1);
        listed(&self.fails, self.calls)
    }

    /// Counts a failure.
    fn failed(&mut self, kind: ErrorKind) -> io::Error
        ensures rose { Rose self.old.failures self.new.failures }
        ensures same { self.new ≡ record self.old { failures = self.new.failures } }
        ensures kind { error_kind result ≡ kind }
    {
        self.failures = self.failures.saturating_add(1);
        kind.into()
    }

    /// Counts a call, which fails or not.
    fn ask(&mut self) -> io::Result<()>
        ensures cause { HasCause self.old.failures self.new.failures result }
        ensures same { self.new ≡ record self.old { calls = self.new.calls; failures = self.new.failures } }
        ensures counts { self.new.calls ≡ next_count self.old.calls }
        ensures listed { FailsAsListed error_kind self.old.calls self.old.fails.items result }
    {
        match self.next_call() {
            None => Ok(()),
            Some(kind) => Err(self.failed(kind)),
        }
    }

    /// Writes bytes over what reads give.
    fn lay(&mut self, from: u64, bytes: &[u8]) -> Result<(), ErrorKind>
        ensures same { self.new ≡ record self.old { seen = self.new.seen } }
        ensures ok { OnOk result (Overlaid from bytes.now self.old.seen.items self.new.seen.items) }
        ensures err { OnErr result (Mixed from (length bytes.now) self.old.seen.items self.new.seen.items) }
        ensures kind { IfErr result (λ kind. (kind ≡ OutOfMemory) ⊎ (kind ≡ FileTooLarge)) }
    {
        if from >= MOST_BYTES || bytes.len() as u64 >= MOST_BYTES {
            return Err(ErrorKind::FileTooLarge);
        }
        match overlay(&mut self.seen, from as usize, bytes) {
            Ok(()) => Ok(()),
            Err(_) => Err(ErrorKind::OutOfMemory),
        }
    }
}

impl TapeFile for MemoryFile {
    ghost use Rattle.std.specs.Prelude.{◌≡◌, is_none};
    ghost use Rattle.il_ports.specs.Files.{SetApart, Claimed, Measured, Resized};
    ghost use Rattle.std.specs.IoError.{error_kind};
    ghost use Rattle.lif_model.specs.Causes.{next_count};
    ghost use Rattle.il_ports.specs.MemoryFiles.{memory_view, memory_is_file};
    ghost use Rattle.il_ports.specs.MemoryFiles.{failing_kind, FailsAsListed, FailsIfListed};

    ghost view = { λ f. memory_view f.name.items f.seen.items f.kept.items f.held f.is_broken f.failures f.past.items };

    ghost is_file = { λ f. memory_is_file f.name.items f.seen.items f.kept.items f.held f.is_broken f.failures f.past.items };

    fn claim(&mut self, access: Access) -> bool
        ensures did { Claimed access
            (⟦<MemoryFile as TapeFile>⟧.view self.old) (⟦<MemoryFile as TapeFile>⟧.view self.new) result }
        ensures listed { result ≡ is_none (failing_kind (next_count self.old.calls) self.old.fails.items) }
        ensures counts { self.new.calls ≡ next_count self.old.calls }
    {
        let granted = self.next_call().is_none();
        if granted {
            self.held = Some(access);
        }
        granted
    }

    fn apart(&mut self) -> io::Result<()>
        ensures did { SetApart
            (⟦<MemoryFile as TapeFile>⟧.view self.old) (⟦<MemoryFile as TapeFile>⟧.view self.new) result }
        ensures listed { FailsAsListed error_kind self.old.calls self.old.fails.items result }
        ensures counts { self.new.calls ≡ next_count self.old.calls }
    {
        self.ask()
    }

    fn len(&mut self) -> io::Result<u64>
        ensures did { Measured
            (⟦<MemoryFile as TapeFile>⟧.view self.old) (⟦<MemoryFile as TapeFile>⟧.view self.new) result }
        ensures listed { FailsAsListed error_kind self.old.calls self.old.fails.items result }
        ensures counts { self.new.calls ≡ next_count self.old.calls }
    {
        self.ask()?;
        Ok(self.seen.len() as u64)
    }

    fn read_at(&mut self, from: u64, into: &mut [u8]) -> io::Result<usize> {
        self.ask()?;
        let size = self.seen.len();
        if from >= size as u64 {
            return Ok(0);
        }
        let from = from as usize;
        let count = self.most.max(1).min(into.len()).min(size - from);
        into[..count].copy_from_slice(&self.seen[from..from + count]);
        Ok(count)
    }

    fn write_at(&mut self, from: u64, bytes: &[u8]) -> io::Result<usize> {
        if let Err(error) = self.ask() {
            let _ = self.lay(from, &bytes[..bytes.len() / 2]);
            return Err(error);
        }
        let count = self.most.max(1).min(bytes.len());
        match self.lay(from, &bytes[..count]) {
            Ok(()) => Ok(count),
            Err(kind) => Err(self.failed(kind)),
        }
    }

    fn set_len(&mut self, size: u64) -> io::Result<()>
        ensures did { Resized size
            (⟦<MemoryFile as TapeFile>⟧.view self.old) (⟦<MemoryFile as TapeFile>⟧.view self.new) result }
        ensures listed { FailsIfListed error_kind self.old.calls self.old.fails.items result }
        ensures counts { self.new.calls ≡ next_count self.old.calls }
    {
        self.ask()?;
        if size >= MOST_BYTES {
            return Err(self.failed(ErrorKind::FileTooLarge));
        }
        self.seen.truncate(size as usize);
        match grow(&mut self.seen, size as usize) {
            Ok(()) => Ok(()),
            Err(_) => Err(self.failed(ErrorKind::OutOfMemory)),
        }
    }

    fn sync(&mut self) -> io::Result<()> {
        if let Err(error) = self.ask() {
            self.is_broken = true;
            return Err(error);
        }
        match bring(self.alloc, &self.seen, &mut self.kept, &mut self.past) {
            Ok(()) => Ok(()),
            Err(_) => {
                self.is_broken = true;
                Err(self.failed(ErrorKind::OutOfMemory))
            }
        }
    }

    fn settle(&mut self) -> io::Result<()> {
        self.ask()?;
        match self.seen.to_vec(self.alloc) {
            Ok(kept) => {
                self.kept = kept;
                self.past = Vec::new(self.alloc);
                Ok(())
            }
            Err(_) => Err(self.failed(ErrorKind::OutOfMemory)),
        }
    }
}
