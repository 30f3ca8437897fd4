//! The memory that a text for a volume takes. It can be taken before the volume is read.
ghost use Rattle.std.specs.Prelude.{◌≡◌, ◌≤◌, ◌+◌, ◌*◌, ◌^◌, ◌++◌, length, option_map, IfOk, MatchOption};
ghost use Rattle.csv.specs.Reading.{default_config, records};
ghost use Rattle.tape_text.specs.Free.{free_text};
ghost use Rattle.tape_text.specs.Listing.{heading_of, listing_of};
ghost use Rattle.tape_text.specs.Map.{map_text};
ghost use Rattle.tape_text.specs.Pages.{page_room, rows_room};
ghost use Rattle.tape_text.specs.Picture.{picture_text};
ghost use Rattle.tape_text.specs.Rows.{rows_of, rows_text};

use crate::cells::WIDEST;
use crate::free::put_free_text;
use crate::lines::{heading_size, put_heading, put_listing};
use crate::map::put_map;
use crate::picture::{TITLE, put_picture};
use crate::table::put_rows;
use il_script::Page;
use lif_dir::SlotTable;
use lif_header::Header;
use std::alloc::{AllocError, Global};
use std::marker::Model;

/// The room of a text for a medium without records, in bytes.
const LEAST: usize = 820;

/// The room for each record of the medium, in bytes: eight lines.
const RECORD: usize = 1920;

/// The room of a row of CSV, in bytes, without the bytes of the name of the image: its quotes, the other fields, nine
/// commas and a line feed.
const ROW: usize = 140;

/// Returns the room of the rows of an image of this name on a medium of `size` records. Returns `None` if that is not a
/// `usize`.
fn rows_room(image: &[u8], size: u16) -> Option<usize>
    ensures { MatchOption result (2 ^ 64 ≤ rows_room image.now size) (λ room. room ≡ rows_room image.now size) }
{
    let row = image.len().checked_mul(2)?.checked_add(ROW)?;
    row.checked_mul((8 * usize::from(size)).max(1))
}

/// The pages of one text. Contracts see them as the room of the text, in bytes.
#[derive(Drop)]
pub struct Pages {
    /// The text. It is empty.
    page: Page,
    /// An entry of a column.
    cell: Page,
    /// The title of a picture. It is empty.
    title: Page,
}

impl Model for Pages {
    ghost use Rattle.std.specs.Prelude.{◌≡◌, [], ℕ};
    ghost use Rattle.tape_text.specs.declared.cells.TheConstants.{WIDEST};
    ghost use Rattle.tape_text.specs.declared.picture.TheConstants.{TITLE};

    ghost Value = { ℕ };

    ghost view = { λ pages. pages.page.room };

    ghost invariant = { λ pages. (pages.page.text ≡ []) × (pages.cell.room ≡ WIDEST)
        × (pages.title ≡ record { text = []; room = TITLE }) };
}

impl Pages {
    /// Pages for a text of at most `room` bytes. The only error is want of memory.
    fn with_room(alloc: Global, room: usize) -> Result<Pages, AllocError>
        ensures { IfOk result (λ pages. pages ≡ room) }
    {
        Ok(Pages {
            page: Page::new(alloc, room)?,
            cell: Page::new(alloc, WIDEST)?,
            title: Page::new(alloc, TITLE)?,
        })
    }

    /// Pages for a text of a volume on a medium of `size` records, which may begin with a heading. The only error is
    /// want of memory.
    pub fn new(alloc: Global, heading: Option<&str>, size: u16) -> Result<Pages, AllocError>
        ensures { IfOk result (λ pages. pages
            ≡ length (heading_of (option_map (λ name. name.now) heading.entry)) + page_room size) }
    {
        Pages::with_room(
            alloc,
            heading_size(heading) + LEAST + RECORD * usize::from(size),
        )
    }

    /// Pages for the rows of CSV of a volume on a medium of `size` records, in an image of this name. The only error is
    /// want of memory.
    pub fn for_rows(alloc: Global, image: &[u8], size: u16) -> Result<Pages, AllocError>
        ensures { IfOk result (λ pages. pages ≡ rows_room image.now size) }
    {
        match rows_room(image, size) {
            Some(room) => Pages::with_room(alloc, room),
            None => Err(AllocError),
        }
    }

    /// Returns the text of a volume on a medium of `size` records: the name of its image if it has a heading, the
    /// volume's line, and a line for each file, also for the redo file if `all` is set.
    pub fn listing(
        self,
        heading: Option<&str>,
        all: bool,
        size: u16,
        header: &Header,
        slots: &SlotTable,
    ) -> Page
        requires few { length slots.now.slots ≤ 8 * size }
        requires room { length (heading_of (option_map (λ name. name.now) heading)) + page_room size ≤ self }
        ensures { result.text ≡
            heading_of (option_map (λ name. name.now) heading.entry) ++ listing_of all size header.now slots.now.slots }
    {
        let mut page = self.page;
        let mut cell = self.cell;
        put_heading(&mut page, heading);
        put_listing(&mut page, &mut cell, all, size, header, slots);
        page
    }

    /// Returns the rows of a volume on a medium of `size` records, in CSV by RFC 4180: one for each file that has a line
    /// in a listing, or one with empty fields if no file has one. Each row begins with `image`, the name of the image,
    /// and ends with a line feed. A reader gets these rows back.
    pub fn rows(
        self,
        image: &[u8],
        all: bool,
        size: u16,
        header: &Header,
        slots: &SlotTable,
    ) -> Page
        requires few { length slots.now.slots ≤ 8 * size }
        requires room { rows_room image.now size ≤ self }
        ensures text { result.text ≡ rows_text (rows_of all size image.now header.now slots.now.slots) }
        ensures read { records default_config result.text ≡ rows_of all size image.now header.now slots.now.slots }
    {
        let mut page = self.page;
        let mut cell = self.cell;
        put_rows(&mut page, &mut cell, image, all, size, header, slots);
        page
    }

    /// Returns the text of what is free of a volume on a medium of `size` records: the volume's line, and a line that
    /// says which file can be added.
    pub fn free_text(self, size: u16, header: &Header, slots: &SlotTable) -> Page
        requires room { page_room size ≤ self }
        ensures { result.text ≡ free_text size header.now slots.now.slots }
    {
        let mut page = self.page;
        put_free_text(&mut page, size, header, slots);
        page
    }

    /// Returns the map of a medium of `size` records: the volume's line, a character for each record, a line for each
    /// file without the redo file, and what the other characters mean.
    pub fn map_text(self, size: u16, header: &Header, slots: &SlotTable) -> Page
        requires few { length slots.now.slots ≤ 8 * size }
        requires room { page_room size ≤ self }
        ensures { result.text ≡ map_text size header.now slots.now.slots }
    {
        let mut page = self.page;
        let mut cell = self.cell;
        put_map(&mut page, &mut cell, size, header, slots);
        page
    }

    /// Returns the picture of a medium of `size` records as an SVG file: a square for each record, in rows of 64, with
    /// its number and what it belongs to as its title.
    pub fn picture_text(self, size: u16, header: &Header, slots: &SlotTable) -> Page
        requires room { page_room size ≤ self }
        ensures { result.text ≡ picture_text size header.now slots.now.slots }
    {
        let mut page = self.page;
        let mut cell = self.cell;
        let mut title = self.title;
        put_picture(&mut page, &mut cell, &mut title, size, header, slots);
        page
    }
}
