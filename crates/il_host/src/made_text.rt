ghost use Rattle.il_script.specs.declared.limits.TheConstants.{LONGEST_PAYLOAD};

use il_script::LONGEST_PAYLOAD;
use lif_text::{LongLine, TextBuffer};
use std::alloc::{AllocError, Global};
use std::marker::Model;

/// A text of so many bytes may be all line feeds: each is then an empty line of two bytes. The end takes two more.
const TEXT_ROOM: usize = 2 * LONGEST_PAYLOAD + 4;

/// The text file that is made of a payload. There is room for that of every payload.
#[derive(Drop)]
pub(crate) struct MadeText {
    buffer: TextBuffer,
}

impl Model for MadeText {
    ghost use Rattle.std.specs.Prelude.{◌≡◌, ℕ, List};
    ghost use Rattle.il_host.specs.declared.made_text.TheConstants.{TEXT_ROOM};

    ghost Value = { List ℕ };

    ghost view = { λ t. t.buffer.bytes };

    ghost invariant = { λ t. t.buffer.room ≡ TEXT_ROOM };
}

impl MadeText {
    ghost use Rattle.std.specs.Prelude.{◌≡◌, ◌≤◌, [], length, option_map, IfOk, OnOk};
    ghost use Rattle.std.specs.Result.{result_err};
    ghost use Rattle.lif_text.specs.Format.{encode};
    ghost use Rattle.lif_text.specs.Cutting.{cut_lines, long_line};

    /// No text yet, with room for every one. All memory is taken here.
    pub(crate) fn new(alloc: Global) -> Result<MadeText, AllocError>
        ensures { IfOk result (λ made. made ≡ []) }
    {
        let buffer = TextBuffer::new(alloc, TEXT_ROOM)?;
        Ok(MadeText { buffer })
    }

    /// Makes the text of the lines of a payload; the error is the number of the first line that is too long.
    pub(crate) fn fill(&mut self, payload: &[u8]) -> Result<(), LongLine>
        requires { length payload.now ≤ LONGEST_PAYLOAD }
        ensures fault { option_map (λ fault. fault.0) (result_err result) ≡ long_line (cut_lines payload.now) }
        ensures text { OnOk result (self.new ≡ encode (cut_lines payload.now)) }
    {
        self.buffer.fill(payload)
    }

    /// The bytes of the text.
    pub(crate) fn bytes(&self) -> &[u8]
        ensures { result.now ≡ self.now }
    {
        self.buffer.bytes()
    }
}
