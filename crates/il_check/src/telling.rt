ghost use Rattle.std.specs.Prelude.{◌≡◌, ◌≤◌, ◌+◌, ◌++◌, [], length, codes, map, option_map};
ghost use Rattle.il_check.specs.Telling.{tape_line, verdict_text};

use crate::verdict::TraceFault;
use il_script::Page;

/// The label of a volume, with its spaces, or `None` of a tape that has no volume.
pub(crate) type Label = Option<[u8; 6]>;

/// How many bytes are written, at most.
pub(crate) const ROOM: usize = 100;

/// Puts the line of a tape's label.
fn put_label(page: &mut Page, word: &[u8], label: Label)
    requires { length page.old.text + length word.now + 20 ≤ page.old.room }
    ensures text { page.new ≡ record page.old { text = page.old.text ++ tape_line word.now label } }
    ensures size { length page.new.text ≤ length page.old.text + length word.now + 20 }
{
    page.put(word);
    page.put(b" ");
    match label {
        Some(label) => page.put_name(&label),
        None => page.put(b"notlif"),
    }
    page.put(b"\n");
}

/// Puts what is said of a trace and two tapes, which have these labels.
pub(crate) fn put_verdict(
    page: &mut Page,
    said: Option<(u32, TraceFault)>,
    before: Label,
    after: Label,
)
    requires empty { page.old.text ≡ [] }
    requires room { 100 ≤ page.old.room }
    ensures { page.new ≡ record page.old { text = verdict_text said before after } }
{
    match said {
        None => {
            page.put(b"check ok\n");
            put_label(page, b"before", before);
            put_label(page, b"after", after);
        }
        Some((place, fault)) => {
            page.put(b"check no ");
            page.put_number(place);
            page.put(b" ");
            page.put_number(u32::from(fault.number()));
            page.put(b" ");
            page.put(fault.name());
            page.put(b"\n");
        }
    }
}
