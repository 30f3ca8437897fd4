use lif_model::MOST_BYTES;

/// How many bytes a line of a script may have: two hex digits for each byte that a command may carry.
pub const LONGEST_LINE: usize = 1_261_568;

/// How many bytes of a line are kept: one more, so that what is kept tells whether the line is too long.
pub const KEPT_OF_LINE: usize = LONGEST_LINE + 1;

/// How many bytes a script may have.
pub const LONGEST_SCRIPT: usize = 16_777_216;

/// How many bytes a command may carry: those of the largest medium, an HP 9114 disc.
pub const LONGEST_PAYLOAD: usize = MOST_BYTES;

/// How many slots a new directory may have: eight in each record of an HP 9114 disc but six.
pub const MOST_SLOTS: u16 = 19_664;

/// How many frames may arrive at the host while control of the loop is lent.
pub const MOST_FRAMES: u16 = 4_096;
