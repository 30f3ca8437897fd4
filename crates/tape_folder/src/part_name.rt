ghost use Rattle.std.specs.Prelude.{◌≡◌, ◌++◌, OnOk, string_bytes};
ghost use Rattle.tape_folder.specs.Folders.{part_name};

use itoa::Buffer;
use std::alloc::AllocError;

/// Appends the name of the part file of that number.
pub(crate) fn push_part_name(text: &mut String, number: u32) -> Result<(), AllocError>
    ensures { OnOk result (string_bytes text.new ≡ string_bytes text.old ++ part_name number) }
{
    text.push_str(".tape-")?;
    text.push_str(Buffer::new().format(number))?;
    text.push_str(".part")
}
