ghost use Rattle.std.specs.Prelude.{◌≡◌, ◌==◌, ◌<◌, ◌≤◌, if◌then◌else◌, ℕ, [], length, get_or, vec_len, MatchOption, Some, None, true, string_bytes};
ghost use Rattle.std.specs.Vec.{vec_capacity};
ghost use Rattle.std.specs.String.{string_capacity};
ghost use Rattle.lif_model.specs.Shelf.{image_of, cut};
ghost use Rattle.lif_model.specs.Redo.{changed};
ghost use Rattle.il_ports.specs.Drive.{images_of, place_of, IsOffer, IsFirst, IsUnwritten, has_size, longest_name};

use crate::image::{Size, copy_of, lay_in, lay_out};
use crate::medium::{Inserted, Medium, New};
use crate::stream::{Failed, faulted};
use std::alloc::{AllocError, Global};

const LONGEST_NAME: usize = 4096;

/// Which image is in the drive.
#[derive(Clone, Copy)]
enum Drive {
    Empty,
    /// The one at this place of the shelf.
    Shelved(usize),
    /// One that was made.
    Made,
}

/// What an insert finds.
enum Offer<'a> {
    /// An image: its place on the shelf, its bytes, and how many records it reads as.
    Take(usize, &'a [u8], u16),
    /// An image with too many bytes.
    BadSize(u64),
    NoSuch,
    /// No image, but one of so many records is to be made.
    Make(u16),
    /// The same, and its name is too long.
    TooLong,
}

/// The place and the bytes of the first image of that name.
pub(crate) fn find<'a>(images: &'a [(String, Vec<u8>)], name: &str) -> Option<(usize, &'a [u8])>
    ensures place { MatchOption result (place_of name.now (images_of images.now) ≡ None)
        (λ found. place_of name.now (images_of images.now) ≡ Some found.0) }
    ensures bytes { MatchOption result (image_of name.now (images_of images.now) ≡ None)
        (λ found. image_of name.now (images_of images.now) ≡ Some found.1.now) }
{
    for (place, image) in images.iter().enumerate() {
        if image.0.as_str() == name {
            return Some((place, &image.1));
        }
    }
    None
}

fn offered<'a>(images: &'a [(String, Vec<u8>)], name: &str, new: New) -> Offer<'a>
    ensures { IsOffer name.now new (images_of images.now) result }
{
    match find(images, name) {
        Some((place, bytes)) => match Size::of(bytes.len() as u64) {
            Some(size) => Offer::Take(place, bytes, size.records()),
            None => Offer::BadSize(bytes.len() as u64),
        },
        None => match new.size() {
            None => Offer::NoSuch,
            Some(_) if name.len() > LONGEST_NAME => Offer::TooLong,
            Some(size) => Offer::Make(size.records()),
        },
    }
}

/// What record n holds after a write at that place.
fn behind_write<'a>(n: usize, place: u16, new: &'a [u8; 256], old: &'a [u8; 256]) -> &'a [u8; 256]
    ensures { result.now ≡ (if place == n then new.now else old.now) }
{
    if usize::from(place) == n { new } else { old }
}

/// Makes two equal tapes, of so many records, of what the image reads as.
fn put_in(bytes: &[u8], records: u16, tape: &mut Vec<[u8; 256]>, first: &mut Vec<[u8; 256]>)
    requires tape { records ≤ length tape.old.items }
    requires first { length first.old.items ≡ length tape.old.items }
    ensures content { tape.new.items ≡ cut records bytes.now }
    ensures same { first.new.items ≡ tape.new.items }
    ensures size { length tape.new.items ≡ records }
    ensures shaped { (k : ℕ) → k < records → length (get_or tape.new.items k []) ≡ 256 }
{
    tape.truncate(records as usize);
    first.truncate(records as usize);
    lay_in(bytes, tape);
    first.copy_from_slice(tape);
}

/// A shelf in memory, with a drive that takes tapes and discs. Calls of each kind are counted from 1; those that the
/// lists name fail. So does an insert that would make an image with a name of more than 4,096 bytes, and a write for
/// which no room is left. A failing write that is listed leaves the bytes that the list gives; where no room is left,
/// it leaves the tape as it was.
///
/// Every write that reached the tape is kept, with the bytes that it left. A power stop leaves the tape as it is
/// between two writes, or with any bytes in the record of the next.
#[derive(Drop)]
pub struct MemoryMedium {
    images: Vec<(String, Vec<u8>)>,
    drive: Drive,
    /// The name of the image that was made, in room that was reserved.
    made: String,
    /// What the tape holds while one is in the drive, and what it held when it was inserted.
    tape: Vec<[u8; 256]>,
    first: Vec<[u8; 256]>,
    reads: Vec<u64>,
    writes: Vec<(u64, [u8; 256])>,
    inserts: Vec<u64>,
    reads_made: u64,
    writes_made: u64,
    inserts_made: u64,
    faults: u64,
    /// Every write that reached the tape, with the bytes that it left, in room that was reserved.
    history: Vec<(u16, [u8; 256])>,
    room: usize,
    ghost size: { has_size drive (length tape.items) ≡ true },
    ghost shaped: { (k : ℕ) → k < length tape.items → length (get_or tape.items k []) ≡ 256 },
    ghost first_size: { length first.items ≡ length tape.items },
    ghost replays: { tape.items ≡ changed history.items first.items },
    ghost in_place: { IsFirst drive (images_of images.items) },
    ghost unwritten: { IsUnwritten drive history.items },
    ghost name_room: { longest_name ≤ string_capacity made },
    ghost history_room: { (vec_len history ≤ room) × (room ≤ vec_capacity history) },
}

impl MemoryMedium {
    ghost use Rattle.std.specs.Prelude.{◌≡◌, ◌<◌, ◌≤◌, ◌*◌, [], length, IfOk, IfSome, IsSome, Some, None, string_bytes};
    ghost use Rattle.std.specs.Option.{option_copied};
    ghost use Rattle.lif_model.specs.Tape.{Tape, record_at};
    ghost use Rattle.lif_model.specs.Shelf.{image_of, bytes_of};
    ghost use Rattle.lif_model.specs.History.{stopped_at};
    ghost use Rattle.il_ports.specs.Drive.{images_of, is_made, is_inside, records_in};
    ghost use Rattle.il_ports.specs.MemoryMedium.{state_of, listed_bytes, holding};

    /// A medium with these images, the first of each name counting, and no tape in the drive. `reads` and `inserts`
    /// list the calls that fail, `writes` the calls that fail and what they leave in the record, the first entry of a
    /// number counting. There is room for `room` writes. All memory is taken here: two blank discs, the room for the
    /// writes, and room for a made image's name of 4,096 bytes.
    pub fn new(
        alloc: Global,
        shelf: Vec<(String, Vec<u8>)>,
        reads: Vec<u64>,
        writes: Vec<(u64, [u8; 256])>,
        inserts: Vec<u64>,
        room: usize,
    ) -> Result<MemoryMedium, AllocError>
        ensures { IfOk result (λ m. state_of m ≡ record {
          shelf = images_of shelf.items;
          inside = None;
          tape = None;
          first = None;
          reads = reads.items;
          writes = writes.items;
          inserts = inserts.items;
          reads_made = 0;
          writes_made = 0;
          inserts_made = 0;
          faults = 0;
          history = [];
          room = room;
        }) }
    {
        let made = String::with_capacity(alloc, LONGEST_NAME)?;
        let history = Vec::with_capacity(alloc, room)?;
        let mut tape = vec![in alloc; [0; 256]; Size::Disc.records() as usize]?;
        let mut first = vec![in alloc; [0; 256]; Size::Disc.records() as usize]?;
        put_in(&[], Size::Disc.records(), &mut tape, &mut first);
        Ok(MemoryMedium {
            images: shelf,
            drive: Drive::Empty,
            made,
            tape,
            first,
            reads,
            writes,
            inserts,
            reads_made: 0,
            writes_made: 0,
            inserts_made: 0,
            faults: 0,
            history,
            room,
        })
    }

    /// The bytes of the first image of that name, for the one in the drive those of its tape. None comes exactly
    /// where there is no such image.
    pub fn image(&self, name: &str) -> Option<&[u8]>
        ensures { option_copied result ≡ image_of name.now (state_of self.now).shelf }
    {
        if self.has_made(name) {
            return Some(self.tape.as_flattened());
        }
        let (place, bytes) = find(&self.images, name)?;
        if self.has_inside(place) {
            return Some(self.tape.as_flattened());
        }
        Some(bytes)
    }

    /// Every write that reached the tape, oldest first: the number of the record, and the bytes that it left.
    pub fn writes(&self) -> &[(u16, [u8; 256])]
        ensures { result.now ≡ (state_of self.now).history }
    {
        &self.history
    }

    /// Fills `into` with the tape as it was after the first `writes` writes since it was inserted. With `torn` the
    /// record of the next write holds these bytes: so a power stop within that write may leave it. A tape is in the
    /// drive, so many writes were made, with `torn` one more, and `into` has as many bytes as the tape.
    pub fn image_at(&self, writes: u64, torn: Option<&[u8; 256]>, into: &mut [u8])
        requires inside { IsSome (state_of self.now).tape }
        requires size { length into.old ≡ 256 * records_in (state_of self.now).tape }
        requires made { writes ≤ length (state_of self.now).history }
        requires next { IsSome torn → writes < length (state_of self.now).history }
        ensures { (first : Tape) → (state_of self.now).first ≡ Some first → into.new ≡ bytes_of (stopped_at first (state_of self.now).history writes (option_copied torn.entry)) }
    {
        for n in 0..self.tape.len() {
            lay_out(self.record_at(n, writes as usize, torn), n, into);
        }
    }

    /// The record as it was after these writes, or within the next one.
    fn record_at<'a>(
        &'a self,
        n: usize,
        writes: usize,
        torn: Option<&'a [u8; 256]>,
    ) -> &'a [u8; 256]
        requires within { n < length self.now.first.items }
        requires made { writes ≤ length self.now.history.items }
        requires next { IsSome torn → writes < length self.now.history.items }
        ensures { result.now ≡ record_at (stopped_at self.now.first.items self.now.history.items writes (option_copied torn.entry)) n }
    {
        let mut bytes = &self.first[n];
        for write in &self.history[..writes] {
            bytes = behind_write(n, write.0, &write.1, bytes);
        }
        match torn {
            Some(torn) => behind_write(n, self.history[writes].0, torn, bytes),
            None => bytes,
        }
    }

    /// What the first entry of this write's number says that it leaves.
    fn listed(&self) -> Option<[u8; 256]>
        ensures content { result ≡ listed_bytes (state_of self.now).writes_made (state_of self.now).writes }
        ensures whole { IfSome result (λ bytes. length bytes ≡ 256) }
    {
        for write in &self.writes {
            if write.0 == self.writes_made {
                return Some(copy_of(&write.1));
            }
        }
        None
    }

    /// Writes a record of the tape in the drive, and keeps the write.
    fn keep(&mut self, n: u16, bytes: &[u8; 256])
        requires within { n < records_in (state_of self.old).tape }
        requires room { length (state_of self.old).history < (state_of self.old).room }
        ensures { state_of self.new ≡ holding n bytes.now (state_of self.old) }
    {
        self.tape[n as usize] = *bytes;
        self.history.push((n, *bytes)).unwrap();
    }

    /// Whether an image of that name was made. It is in the drive.
    fn has_made(&self, name: &str) -> bool
        ensures { result ≡ is_made self.now.drive (string_bytes self.now.made) name.now }
    {
        match self.drive {
            Drive::Made => self.made.as_str() == name,
            Drive::Empty | Drive::Shelved(_) => false,
        }
    }

    /// Whether the image at that place of the shelf is in the drive.
    fn has_inside(&self, place: usize) -> bool
        ensures { result ≡ is_inside self.now.drive place }
    {
        match self.drive {
            Drive::Shelved(inside) => inside == place,
            Drive::Empty | Drive::Made => false,
        }
    }
}

impl Medium for MemoryMedium {
    ghost use Rattle.std.specs.Prelude.{◌≡◌, ◌≢◌, ◌<◌, ◌≤◌, ◌↔◌, ◌⊎◌, ℕ, Some, None, length, Contains, IsErr, IsSome, string_bytes};
    ghost use Rattle.lif_model.specs.Tape.{Tape, DidRead};
    ghost use Rattle.lif_model.specs.Shelf.{image_of};
    ghost use Rattle.lif_model.specs.Stops.{Torn, Wrote, Elapses};
    ghost use Rattle.lif_model.specs.Causes.{HasCause, next_count};
    ghost use Rattle.il_ports.specs.Media.{MediumView};
    ghost use Rattle.il_ports.specs.Inserting.{InsertResult, OthersAreKept};
    ghost use Rattle.il_ports.specs.Counted.{faults_after};
    ghost use Rattle.il_ports.specs.Drive.{images_of, records_in, longest_name};
    ghost use Rattle.il_ports.specs.MemoryMedium.{state_of, IsLeft, inside_after, listed_bytes, bytes_left, holding};
    ghost use Rattle.il_ports.specs.declared.medium.New.TheVariants.{No};
    ghost use Rattle.il_ports.specs.InDrive.{size_is, tape_is, image_is, left_now, left_only, left_none};

    ghost view = { λ m. record {
      shelf = Some (state_of m).shelf;
      inside = (state_of m).inside;
      tape = (state_of m).tape;
      record_count = records_in (state_of m).tape;
      faults = (state_of m).faults;
      moment = length (state_of m).history;
      left_since = IsLeft (state_of m).first (state_of m).history;
    } };

    ghost refuses = { λ m w name made. Contains (state_of m).inserts (next_count (state_of m).inserts_made)
        ⊎ ((image_of name (state_of m).shelf ≡ None) × (made ≢ None) × (longest_name < length name)) };

    ghost is_medium = { λ m. record {
      sizes = λ some. size_is m.drive m.tape.items m.size some;
      is_tape = λ t is. tape_is m.drive m.tape.items m.shaped t is;
      is_image = λ s name t same named told. image_is m.drive (string_bytes m.made) m.tape.items (images_of m.images.items) m.in_place s name t same named told;
      leaves_now = λ k t le told. left_now m.drive m.first.items m.tape.items m.history.items m.replays k t le told;
      leaves_only = λ t c told left. left_only m.drive m.first.items m.tape.items m.history.items m.replays t c told left;
      leaves_none = λ s c _ none left. left_none m.drive m.first.items m.tape.items m.history.items m.size (length m.history.items) c none left;
    } };

    fn insert(&mut self, name: &str, new: New) -> Result<Inserted, Failed>
        requires { records_in (state_of self.old).tape ≡ 0 }
        ensures answer { InsertResult name.now new (Some (state_of self.old).shelf) (Some (state_of self.new).shelf)
            (state_of self.new).inside (state_of self.new).tape (records_in (state_of self.new).tape) result }
        ensures moment { length (state_of self.old).history ≤ length (state_of self.new).history }
        ensures since { (m : ℕ) (c : Tape) → IsLeft (state_of self.new).first (state_of self.new).history m c
            → IsLeft (state_of self.old).first (state_of self.old).history m c ⊎ ((state_of self.new).tape ≡ Some c) }
        ensures cause { HasCause (state_of self.old).faults (state_of self.new).faults result }
        ensures listed { IsErr result ↔ (Contains (state_of self.old).inserts (next_count (state_of self.old).inserts_made)
            ⊎ ((image_of name.now (state_of self.old).shelf ≡ None) × (new ≢ No) × (longest_name < length name.now))) }
        ensures counts { state_of self.new ≡ record (state_of self.old) {
          shelf = (state_of self.new).shelf;
          inside = inside_after name.now result;
          tape = (state_of self.new).tape;
          first = (state_of self.new).tape;
          inserts_made = next_count (state_of self.old).inserts_made;
          faults = faults_after (state_of self.old).faults result;
        } }
    {
        self.inserts_made = self.inserts_made.saturating_add(1);
        if self.inserts.contains(&self.inserts_made) {
            return Err(faulted(&mut self.faults));
        }
        match offered(&self.images, name, new) {
            Offer::Take(place, bytes, records) => {
                put_in(bytes, records, &mut self.tape, &mut self.first);
                self.drive = Drive::Shelved(place);
                Ok(Inserted::Tape)
            }
            Offer::BadSize(size) => Ok(Inserted::BadSize(size)),
            Offer::NoSuch => Ok(Inserted::NoSuch),
            Offer::Make(records) => {
                put_in(&[], records, &mut self.tape, &mut self.first);
                self.made.clear();
                self.made.push_str(name).unwrap();
                self.drive = Drive::Made;
                Ok(Inserted::Tape)
            }
            Offer::TooLong => Err(faulted(&mut self.faults)),
        }
    }

    fn size(&self) -> u16 {
        match self.drive {
            Drive::Empty => 0,
            Drive::Shelved(_) | Drive::Made => self.tape.len() as u16,
        }
    }

    fn read(&mut self, n: u16, into: &mut [u8; 256]) -> Result<(), Failed>
        requires { n < records_in (state_of self.old).tape }
        ensures content { DidRead n into.new (state_of self.old).tape result }
        ensures cause { HasCause (state_of self.old).faults (state_of self.new).faults result }
        ensures listed { IsErr result ↔ Contains (state_of self.old).reads (next_count (state_of self.old).reads_made) }
        ensures counts { state_of self.new ≡ record (state_of self.old) {
          reads_made = next_count (state_of self.old).reads_made;
          faults = faults_after (state_of self.old).faults result;
        } }
    {
        self.reads_made = self.reads_made.saturating_add(1);
        if self.reads.contains(&self.reads_made) {
            return Err(faulted(&mut self.faults));
        }
        *into = self.tape[n as usize];
        Ok(())
    }

    fn write(&mut self, n: u16, from: &[u8; 256]) -> Result<(), Failed>
        requires { n < records_in (state_of self.old).tape }
        ensures content { Wrote n from.now (state_of self.old).tape (state_of self.new).tape result }
        ensures others { OthersAreKept (state_of self.old).inside (Some (state_of self.old).shelf) (Some (state_of self.new).shelf) }
        ensures inside { (state_of self.new).inside ≡ (state_of self.old).inside }
        ensures size { records_in (state_of self.new).tape ≡ records_in (state_of self.old).tape }
        ensures time { Elapses (length (state_of self.old).history) (length (state_of self.new).history)
            (IsLeft (state_of self.old).first (state_of self.old).history) (IsLeft (state_of self.new).first (state_of self.new).history)
            (state_of self.old).tape (Torn n) }
        ensures cause { HasCause (state_of self.old).faults (state_of self.new).faults result }
        ensures listed { IsErr result ↔ (((state_of self.old).room ≤ length (state_of self.old).history)
            ⊎ IsSome (listed_bytes (next_count (state_of self.old).writes_made) (state_of self.old).writes)) }
        ensures full { (state_of self.old).room ≤ length (state_of self.old).history → state_of self.new ≡ record (state_of self.old) {
          writes_made = next_count (state_of self.old).writes_made;
          faults = next_count (state_of self.old).faults;
        } }
        ensures kept { length (state_of self.old).history < (state_of self.old).room →
            state_of self.new ≡ record (holding n (bytes_left (next_count (state_of self.old).writes_made) (state_of self.old).writes from.now) (state_of self.old)) {
              writes_made = next_count (state_of self.old).writes_made;
              faults = faults_after (state_of self.old).faults result;
            } }
    {
        self.writes_made = self.writes_made.saturating_add(1);
        if self.history.len() == self.room {
            return Err(faulted(&mut self.faults));
        }
        match self.listed() {
            Some(bytes) => {
                self.keep(n, &bytes);
                Err(faulted(&mut self.faults))
            }
            None => {
                self.keep(n, from);
                Ok(())
            }
        }
    }
}
