ghost use Rattle.std.specs.Prelude.{◌≡◌, IfSome};
ghost use Rattle.tape_names.specs.Dates.{digits_of, is_part, is_date, year_of, moment_of, date_in, IsInRange};

/// A date and a time of day, as a directory entry stores them.
#[derive(Clone, Copy, Debug, PartialEq, Eq)]
pub struct Moment {
    /// The year, 1960 to 2059.
    pub year: u16,
    /// The month, 1 to 12.
    pub month: u8,
    /// The day of the month, 1 to 31.
    pub day: u8,
    /// The hour, 0 to 23.
    pub hour: u8,
    /// The minute, 0 to 59.
    pub minute: u8,
    /// The second, 0 to 59.
    pub second: u8,
}

/// Returns the number that the two digits of a byte write.
fn digits_of(byte: u8) -> u8
    ensures { result ≡ digits_of byte }
{
    10 * (byte / 16) + byte % 16
}

/// Tests if a byte has two decimal digits, and their number is in this range.
fn is_part(least: u8, most: u8, byte: u8) -> bool
    ensures { result ≡ is_part least most byte }
{
    byte / 16 <= 9 && byte % 16 <= 9 && least <= digits_of(byte) && digits_of(byte) <= most
}

/// Tests if six bytes are a date: each has two decimal digits, and each part is in its range.
fn is_date(date: &[u8; 6]) -> bool
    ensures { result ≡ is_date date.now }
{
    is_part(0, 99, date[0])
        && is_part(1, 12, date[1])
        && is_part(1, 31, date[2])
        && is_part(0, 23, date[3])
        && is_part(0, 59, date[4])
        && is_part(0, 59, date[5])
}

/// Returns the year that two digits write: 60 to 99 are years of the 1900s, 0 to 59 of the 2000s.
fn year_of(number: u8) -> u16
    ensures { result ≡ year_of number }
{
    if number < 60 {
        2000 + u16::from(number)
    } else {
        1900 + u16::from(number)
    }
}

/// Returns the moment that six bytes write, each by its two digits.
fn moment_of(date: &[u8; 6]) -> Moment
    ensures { result ≡ moment_of date.now }
{
    Moment {
        year: year_of(digits_of(date[0])),
        month: digits_of(date[1]),
        day: digits_of(date[2]),
        hour: digits_of(date[3]),
        minute: digits_of(date[4]),
        second: digits_of(date[5]),
    }
}

/// Returns the moment that the six bytes of a date write, or `None` if they are not a date: a digit is above 9, or a
/// part is out of its range, as in six zeros.
pub fn date_in(date: &[u8; 6]) -> Option<Moment>
    ensures moment { result ≡ date_in date.now }
    ensures ranges { IfSome result IsInRange }
{
    if is_date(date) {
        Some(moment_of(date))
    } else {
        None
    }
}
