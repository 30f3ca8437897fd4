//! The texts that the commands of the loop tell.
ghost use Rattle.std.specs.Prelude.{◌≡◌, ◌+◌, ◌*◌, ◌≤◌, ◌++◌, length, Some, IfSome, option_map};
ghost use Rattle.il_script.specs.Replies.{next};
ghost use Rattle.il_guest.specs.Rounds.{addresses};
ghost use Rattle.host_model.specs.Replies.{id_text, device_lines, guest_line, guest_lines, status_line, poll_line, paper_line};
ghost use Rattle.il_host.specs.Texts.{device_line, found_lines};

use crate::lent_log::last_status;
use crate::parts::{put_next_byte, put_next_bytes, put_next_count, put_next_number};
use arrayvec::ArrayVec;
use il_frames::{Entry, Frame};
use il_guest::Guest;
use il_script::Page;

/// An accessory ID, or two minus signs for a device that has none.
fn put_next_id(page: &mut Page, id: Option<u8>)
    requires { length page.old.text + 3 ≤ page.old.room }
    ensures text { page.new ≡ record page.old { text = page.old.text ++ next (id_text id) } }
    ensures size { length page.new.text ≡ length page.old.text + 3 }
{
    match id {
        Some(id) => put_next_byte(page, id),
        None => page.put(b" --"),
    }
}

/// The line of a device.
fn put_device(page: &mut Page, address: u32, id: Option<u8>)
    requires { length page.old.text + 21 ≤ page.old.room }
    ensures text { page.new ≡ record page.old { text = page.old.text ++ device_line address id } }
    ensures size { length page.new.text ≤ length page.old.text + 21 }
{
    page.put(b"device");
    put_next_number(page, address);
    put_next_id(page, id);
    page.put(b"\n");
}

/// The lines of the devices with these accessory IDs, of which the first has address 1. There are at most 30.
pub(crate) fn put_devices(page: &mut Page, ids: &ArrayVec<Option<u8>, 30>)
    requires { length page.old.text + 630 ≤ page.old.room }
    ensures text { page.new ≡ record page.old { text = page.old.text ++ device_lines 1 ids.now.items } }
    ensures size { length page.new.text ≤ length page.old.text + 630 }
{
    for place in 0..ids.len() {
        put_device(page, place as u32 + 1, ids[place]);
    }
}

/// The line of an address that a second controller asks, with the last status that it told, if any.
fn put_guest(page: &mut Page, address: u32, status: Option<u8>)
    requires { length page.old.text + 20 ≤ page.old.room }
    ensures text { page.new ≡ record page.old { text = page.old.text ++ guest_line address status } }
    ensures size { length page.new.text ≤ length page.old.text + 20 }
{
    page.put(b"guest");
    put_next_number(page, address);
    put_next_id(page, status);
    page.put(b"\n");
}

/// The lines of the addresses up to the last one but the own one, each with the last status that the log tells of it.
fn put_statuses(page: &mut Page, own: u8, last: u8, log: &[Entry])
    requires own { 1 ≤ own }
    requires own_address { own ≤ 30 }
    requires last { last ≤ 30 }
    requires room { length page.old.text + 600 ≤ page.old.room }
    ensures text { let lines = guest_lines own log.now (addresses (Some own) last) in
        page.new ≡ record page.old { text = page.old.text ++ lines } }
    ensures size { length page.new.text ≤ length page.old.text + 600 }
{
    for address in 1..last + 1 {
        if address != own {
            put_guest(page, address as u32, last_status(log, own, address));
        }
    }
}

/// The lines of the statuses that the log tells a second controller of this address, if there is one.
pub(crate) fn put_found(page: &mut Page, own: u8, guest: Option<&Guest>, log: &[Entry])
    requires own { (1 ≤ own) × (own ≤ 30) }
    requires room { length page.old.text + 600 ≤ page.old.room }
    ensures text { page.new ≡ record page.old { text = page.old.text ++ found_lines own (option_map (λ g. g.now) guest.entry) log.now } }
    ensures size { length page.new.text ≤ length page.old.text + 600 }
    ensures range { IfSome (option_map (λ g. g.now) guest.entry) (λ g. g.last ≤ 30) }
{
    if let Some(guest) = guest {
        put_statuses(page, own, guest.last(), log);
    }
}

/// The line of the drive's status byte.
pub(crate) fn put_status(page: &mut Page, byte: u8)
    requires { length page.old.text + 10 ≤ page.old.room }
    ensures text { page.new ≡ record page.old { text = page.old.text ++ status_line byte } }
    ensures size { length page.new.text ≡ length page.old.text + 10 }
{
    page.put(b"status");
    put_next_byte(page, byte);
    page.put(b"\n");
}

/// The line of the identify frame that came back.
pub(crate) fn put_poll(page: &mut Page, frame: &Frame)
    requires { length page.old.text + 16 ≤ page.old.room }
    ensures text { page.new ≡ record page.old { text = page.old.text ++ poll_line frame.now } }
    ensures size { length page.new.text ≤ length page.old.text + 16 }
{
    page.put(b"poll");
    put_next_byte(page, frame.byte());
    if frame.has_service() {
        page.put(b" service\n");
    } else {
        page.put(b" quiet\n");
    }
}

/// The line of a printer that keeps these bytes and heard so many.
pub(crate) fn put_paper(page: &mut Page, kept: &[u8], count: u64)
    requires { length page.old.text + 2 * length kept.now + 29 ≤ page.old.room }
    ensures text { page.new ≡ record page.old { text = page.old.text ++ paper_line (Some (kept.now, count)) } }
    ensures size { length page.new.text ≤ length page.old.text + 2 * length kept.now + 29 }
{
    page.put(b"paper");
    put_next_bytes(page, kept);
    put_next_count(page, count);
    page.put(b"\n");
}
