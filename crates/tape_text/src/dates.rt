//! Dates as they are printed.
ghost use Rattle.std.specs.Prelude.{◌≡◌, ◌≤◌, ◌<◌, ◌+◌, ◌++◌, length};
ghost use Rattle.tape_names.specs.Dates.{IsInRange, date_in};
ghost use Rattle.tape_text.specs.Listing.{digit_pair, four_digits, day_text, time_text, date_text};

use il_script::Page;
use tape_names::{Moment, date_in};

/// Appends a number below 100 as two digits.
#[tactic(auto, unfolding(crate::specs::Listing::digit_pair))]
fn put_two(page: &mut Page, number: u8)
    requires number { number < 100 }
    requires room { length page.old.text + 2 ≤ page.old.room }
    ensures text { page.new ≡ record page.old { text = page.old.text ++ digit_pair number } }
    ensures size { length page.new.text ≡ length page.old.text + 2 }
{
    page.put(&[b'0' + number / 10, b'0' + number % 10]);
}

/// Appends a number below 10,000 as four digits.
#[tactic(auto, unfolding(crate::specs::Listing::four_digits))]
fn put_four(page: &mut Page, number: u16)
    requires number { number < 10000 }
    requires room { length page.old.text + 4 ≤ page.old.room }
    ensures text { page.new ≡ record page.old { text = page.old.text ++ four_digits number } }
    ensures size { length page.new.text ≡ length page.old.text + 4 }
{
    put_two(page, (number / 100) as u8);
    put_two(page, (number % 100) as u8);
}

/// Appends year, month and day.
#[tactic(auto, unfolding(crate::specs::Listing::day_text))]
fn put_day(page: &mut Page, moment: Moment)
    requires moment { IsInRange moment }
    requires room { length page.old.text + 10 ≤ page.old.room }
    ensures text { page.new ≡ record page.old { text = page.old.text ++ day_text moment } }
    ensures size { length page.new.text ≡ length page.old.text + 10 }
{
    put_four(page, moment.year);
    page.put(b"-");
    put_two(page, moment.month);
    page.put(b"-");
    put_two(page, moment.day);
}

/// Appends hour and minute.
#[tactic(auto, unfolding(crate::specs::Listing::time_text))]
fn put_time(page: &mut Page, moment: Moment)
    requires moment { IsInRange moment }
    requires room { length page.old.text + 5 ≤ page.old.room }
    ensures text { page.new ≡ record page.old { text = page.old.text ++ time_text moment } }
    ensures size { length page.new.text ≡ length page.old.text + 5 }
{
    put_two(page, moment.hour);
    page.put(b":");
    put_two(page, moment.minute);
}

/// Appends the date that six bytes write, or a minus sign if they are not a date.
pub(crate) fn put_date(page: &mut Page, date: &[u8; 6])
    requires { length page.old.text + 16 ≤ page.old.room }
    ensures text { page.new ≡ record page.old { text = page.old.text ++ date_text (date_in date.now) } }
    ensures size { length page.new.text ≤ length page.old.text + 16 }
{
    match date_in(date) {
        Some(moment) => {
            put_day(page, moment);
            page.put(b" ");
            put_time(page, moment);
        }
        None => page.put(b"-"),
    }
}
