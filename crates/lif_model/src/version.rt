//! The versions of redo files.
ghost use Rattle.std.specs.Prelude.{◌≡◌, ◌<◌};
ghost use Rattle.lif_model.specs.Redo.{redo_length, most_targets, redo_text, redo_start, data_record};

/// The version of a redo file: how many records change at once, and where their new contents stand.
#[derive(Clone, Copy, Debug, PartialEq, Eq, Drop)]
pub enum Version {
    /// The last four records of a tape, for one change or two.
    One,
    /// The last 34 records, for up to 32 changes.
    Two,
}

impl Version {
    /// How many records its redo file has.
    pub fn length(self) -> u16
        ensures { result ≡ redo_length self }
    {
        match self {
            Version::One => 4,
            Version::Two => 34,
        }
    }

    /// How many records it changes at most.
    pub fn most_targets(self) -> usize
        ensures { result ≡ most_targets self }
    {
        match self {
            Version::One => 2,
            Version::Two => 32,
        }
    }

    /// What its targets record begins with.
    pub fn text(self) -> [u8; 8]
        ensures { result ≡ redo_text self }
    {
        match self {
            Version::One => *b"LIFREDO1",
            Version::Two => *b"LIFREDO2",
        }
    }

    /// Its first record on a tape of `size` records.
    pub fn start(self, size: u16) -> u16
        ensures { result ≡ redo_start self size }
    {
        size.saturating_sub(self.length())
    }

    /// The record that holds what target `i` is to become, the first being 0.
    pub fn data_record(self, size: u16, i: u16) -> u16
        requires long { redo_length self < size }
        requires few { i < most_targets self }
        ensures { result ≡ data_record self size i }
    {
        match self {
            Version::One => size - 2 + i,
            Version::Two if i < 30 => size - 34 + i,
            Version::Two => size - 2 + (i - 30),
        }
    }
}
