ghost use Rattle.std.specs.Prelude.{◌≡◌, ◌<◌};
ghost use Rattle.std.specs.Option.{IfSome};
ghost use Rattle.tape_arguments.specs.Volumes.{label_spelt, no_label_line, no_slots_line, slots_spelt};
ghost use Rattle.tape_volumes.specs.Messages.{WritesMessage};

use crate::names::name_spelt;
use il_ports::Sink;
use il_script::{MOST_SLOTS, read_number};
use lif_dir::{NewLabel, without_end_spaces};
use tape_volumes::refuse_text;

/// The label that a text spells, if a volume can be given it.
pub fn label_spelt(text: &str) -> Option<NewLabel>
    ensures { result ≡ label_spelt text.now }
{
    let name = name_spelt(text)?;
    NewLabel::of(without_end_spaces(&name.bytes()))
}

/// The number of slots that a text spells.
pub fn slots_spelt(text: &str) -> Option<u16>
    ensures number { result ≡ slots_spelt text.now }
    ensures some { IfSome result (λ count. 0 < count) }
{
    let count = read_number(text.as_bytes(), u64::from(MOST_SLOTS))?;
    Some(count as u16)
}

/// Writes that a volume can be given no label that a text spells, and says the exit status.
pub fn refuse_label<E: Sink>(error: &mut E, text: &str) -> u8
    ensures status { result ≡ 2 }
    ensures says { WritesMessage (no_label_line text.now)
        (E.written error.old) (E.written error.new) (E.faults error.old) (E.faults error.new) }
{
    let cause =
        b"a volume has a label of a capital letter, and then capital letters, digits and _, six at most";
    refuse_text(error, text, cause)
}

/// Writes that no directory has a number of slots that a text spells, and says the exit status.
pub fn refuse_slots<E: Sink>(error: &mut E, text: &str) -> u8
    ensures status { result ≡ 2 }
    ensures says { WritesMessage (no_slots_line text.now)
        (E.written error.old) (E.written error.new) (E.faults error.old) (E.faults error.new) }
{
    refuse_text(error, text, b"a directory has 1 to 19664 slots")
}
