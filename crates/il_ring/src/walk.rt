ghost use Rattle.std.specs.Prelude.{◌≡◌, ◌+◌, ◌<◌, ◌≤◌, length, map, Some};
ghost use Rattle.il_device.specs.Takes.{Takes};
ghost use Rattle.il_ring.specs.Books.{IsClear, KeepsBooks};
ghost use Rattle.il_ring.specs.Journeys.{Passage, Journey, DriveTakes, trip_of, answered};

use crate::books::Books;
use crate::flight::Flight;
use il_device::{Device, Out};
use il_drive::Drive;
use il_ports::Medium;

/// A frame crosses a link and is taken by the device after it, or it is lost.
fn pass<D: Device>(
    device: &mut D,
    party: u8,
    books: &mut Books,
    flight: Option<Flight>,
) -> Option<Flight>
    requires { length books.old.log < books.old.room }
    ensures passage { Passage Takes books.old.plan party (trip_of books.old flight) (D.state device.old) (trip_of books.new result) (D.state device.new) }
    ensures books { KeepsBooks 1 books.old books.new }
{
    let flight = books.cross(flight?, party)?;
    let out = device.take(flight.now);
    Some(go_on(books, flight, party, out))
}

/// A frame crosses the link to the drive, which takes it, or it is lost.
pub(crate) fn pass_drive<M: Medium>(
    drive: &mut Drive<M>,
    party: u8,
    books: &mut Books,
    flight: Option<Flight>,
) -> Option<Flight>
    requires { length books.old.log < books.old.room }
    ensures passage { Passage (DriveTakes M.view) books.old.plan party (trip_of books.old flight) drive.old (trip_of books.new result) drive.new }
    ensures books { KeepsBooks 1 books.old books.new }
{
    let flight = books.cross(flight?, party)?;
    let out = drive.take(flight.now);
    Some(go_on(books, flight, party, out))
}

/// What goes on after a party that has answered.
#[inline(always)]
pub(crate) fn go_on(books: &mut Books, flight: Flight, party: u8, out: Out) -> Flight
    requires { length books.old.log < books.old.room }
    ensures trip { trip_of books.new (Some result) ≡ answered books.old.crossings books.old.log party flight out }
    ensures books { KeepsBooks 1 books.old books.new }
{
    match out {
        Out::Pass(frame) => Flight {
            now: frame,
            ..flight
        },
        Out::Source(frame) => {
            books.finish(flight, party);
            Flight::sourced(party, frame)
        }
    }
}

/// A frame goes past devices, the first of which is the party `first`.
fn walk<D: Device>(
    devices: &mut [D],
    first: u8,
    books: &mut Books,
    flight: Option<Flight>,
) -> Option<Flight>
    requires room { length books.old.log + length devices.old ≤ books.old.room }
    requires parties { first + length devices.old < 256 }
    ensures journey { Journey books.old.plan first (trip_of books.old flight) (map D.state devices.old) (trip_of books.new result) (map D.state devices.new) }
    ensures books { KeepsBooks (length devices.old) books.old books.new }
{
    let mut on = flight;
    let mut party = first;
    for device in devices.iter_mut() {
        on = pass(device, party, books, on);
        party += 1;
    }
    on
}

/// Does the same as `walk` for a list.
pub(crate) fn walk_past<D: Device>(
    devices: &mut Vec<D>,
    first: u8,
    books: &mut Books,
    flight: Option<Flight>,
) -> Option<Flight>
    requires room { length books.old.log + length devices.old.items ≤ books.old.room }
    requires parties { first + length devices.old.items < 256 }
    ensures journey { Journey books.old.plan first (trip_of books.old flight) (map D.state devices.old.items) (trip_of books.new result) (map D.state devices.new.items) }
    ensures books { KeepsBooks (length devices.old.items) books.old books.new }
    ensures len { length devices.new.items ≡ length devices.old.items }
{
    walk(devices, first, books, flight)
}

// ---- if nothing is planned

// Here a flight goes to each hop by value and comes back by value. After a `&mut` it would be in memory, where
// each hop writes its frame and the next reads it by another width, which the processor cannot forward: see
// `Flight::again`.

/// A frame crosses a link at which nothing is planned, and is taken by the device after it.
#[inline(always)]
fn pass_clear<D: Device>(device: &mut D, party: u8, books: &mut Books, flight: Flight) -> Flight
    requires room { length books.old.log < books.old.room }
    requires clear { IsClear books.old.plan books.old.crossings 1 }
    ensures passage { Passage Takes books.old.plan party (trip_of books.old (Some flight)) (D.state device.old) (trip_of books.new (Some result)) (D.state device.new) }
    ensures books { KeepsBooks 1 books.old books.new }
    ensures counted { books.new.crossings ≡ books.old.crossings + 1 }
{
    books.cross_clear();
    let out = device.take(flight.now);
    go_on_clear(books, flight, party, out)
}

/// A frame crosses the link to the drive, at which nothing is planned, and the drive takes it.
#[inline(always)]
pub(crate) fn pass_drive_clear<M: Medium>(
    drive: &mut Drive<M>,
    party: u8,
    books: &mut Books,
    flight: Flight,
) -> Flight
    requires room { length books.old.log < books.old.room }
    requires clear { IsClear books.old.plan books.old.crossings 1 }
    ensures passage { Passage (DriveTakes M.view) books.old.plan party (trip_of books.old (Some flight)) drive.old (trip_of books.new (Some result)) drive.new }
    ensures books { KeepsBooks 1 books.old books.new }
    ensures counted { books.new.crossings ≡ books.old.crossings + 1 }
{
    books.cross_clear();
    let out = drive.take(flight.now);
    // The drive often sends a frame of its own, so `finish` is inlined here.
    go_on(books, flight, party, out)
}

/// What goes on after another party, which seldom sends.
#[inline(always)]
fn go_on_clear(books: &mut Books, flight: Flight, party: u8, out: Out) -> Flight
    requires { length books.old.log < books.old.room }
    ensures trip { trip_of books.new (Some result) ≡ answered books.old.crossings books.old.log party flight out }
    ensures books { KeepsBooks 1 books.old books.new }
{
    match out {
        Out::Pass(frame) => Flight {
            now: frame,
            ..flight
        },
        Out::Source(frame) => {
            // A copy: what a call that is not inlined gets has an address, so that `flight` itself would be in
            // memory on the whole way.
            let ended = flight;
            books.finish_apart(ended, party);
            Flight::sourced(party, frame)
        }
    }
}

/// A frame goes past devices, the first of which is the party `first`, over links at which nothing is planned.
#[inline(always)]
fn walk_clear<D: Device>(devices: &mut [D], first: u8, books: &mut Books, flight: Flight) -> Flight
    requires room { length books.old.log + length devices.old ≤ books.old.room }
    requires parties { first + length devices.old < 256 }
    requires clear { IsClear books.old.plan books.old.crossings (length devices.old) }
    ensures journey { Journey books.old.plan first (trip_of books.old (Some flight)) (map D.state devices.old) (trip_of books.new (Some result)) (map D.state devices.new) }
    ensures books { KeepsBooks (length devices.old) books.old books.new }
    ensures counted { books.new.crossings ≡ books.old.crossings + length devices.old }
{
    let mut on = flight;
    let mut party = first;
    for device in devices.iter_mut() {
        on = pass_clear(device, party, books, on);
        party += 1;
    }
    on
}

/// Does the same as `walk_clear` for a list.
#[inline(always)]
pub(crate) fn walk_past_clear<D: Device>(
    devices: &mut Vec<D>,
    first: u8,
    books: &mut Books,
    flight: Flight,
) -> Flight
    requires room { length books.old.log + length devices.old.items ≤ books.old.room }
    requires parties { first + length devices.old.items < 256 }
    requires clear { IsClear books.old.plan books.old.crossings (length devices.old.items) }
    ensures journey { Journey books.old.plan first (trip_of books.old (Some flight)) (map D.state devices.old.items) (trip_of books.new (Some result)) (map D.state devices.new.items) }
    ensures books { KeepsBooks (length devices.old.items) books.old books.new }
    ensures counted { books.new.crossings ≡ books.old.crossings + length devices.old.items }
    ensures len { length devices.new.items ≡ length devices.old.items }
{
    walk_clear(devices, first, books, flight)
}
