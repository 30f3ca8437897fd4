#![tactic(auto)]

ghost use Rattle.std.specs.Prelude.{◌≡◌, ◌≤◌, length};
ghost use Rattle.il_check.specs.Faults.{fault_name, fault_number};

/// Why a trace, the tape before it and the tape after it do not go together.
#[derive(Clone, Copy)]
pub enum TraceFault {
    /// The line begins as an entry's does, and is no entry's.
    BadText,
    /// With this entry more than one party talks, or another speaks than the talker.
    NotTalker,
    /// With this entry the log can no more become a list of whole and broken exchanges; or it ends within one.
    NoExchange,
    /// The record of the tape after the log is none that the log may have left.
    NoEffect,
    /// A unit that failed or was not finished may have put more than one record.
    Unclear,
    /// A unit with status 0 has bytes that are no whole records, or lie past the tape.
    BadUnit,
    /// The tapes do not have the same number of records.
    SizeDiffers,
}

impl TraceFault {
    /// Its number, from 1 to 7.
    pub fn number(self) -> u8
        ensures { result ≡ fault_number self }
    {
        match self {
            TraceFault::BadText => 1,
            TraceFault::NotTalker => 2,
            TraceFault::NoExchange => 3,
            TraceFault::NoEffect => 4,
            TraceFault::Unclear => 5,
            TraceFault::BadUnit => 6,
            TraceFault::SizeDiffers => 7,
        }
    }

    /// Its name, as the checker prints it.
    pub fn name(self) -> &'static [u8]
        ensures name { result.now ≡ fault_name self }
        ensures short { length result.now ≤ 11 }
    {
        match self {
            TraceFault::BadText => b"BadText",
            TraceFault::NotTalker => b"NotTalker",
            TraceFault::NoExchange => b"NoExchange",
            TraceFault::NoEffect => b"NoEffect",
            TraceFault::Unclear => b"Unclear",
            TraceFault::BadUnit => b"BadUnit",
            TraceFault::SizeDiffers => b"SizeDiffers",
        }
    }
}
