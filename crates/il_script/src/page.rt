use crate::spelling::is_plain;
use itoa::Buffer;
use lif_dir::without_end_spaces;
use std::alloc::{AllocError, Global};
use std::marker::Model;

/// How many bytes are put as hex digits at a time: a few passes over the digits of so many stay near the processor.
const BLOCK: usize = 512;

/// A text in room that was reserved: it takes no memory as it grows.
#[derive(Drop)]
pub struct Page {
    text: Vec<u8>,
    room: usize,
}

impl Model for Page {
    ghost use Rattle.std.specs.Prelude.{◌≤◌, vec_len};
    ghost use Rattle.std.specs.Vec.{vec_capacity};
    ghost use Rattle.il_script.specs.Sheet.{Sheet};

    ghost Value = { Sheet };

    ghost view = { λ p. record { text = p.text.items; room = p.room } };

    ghost invariant = { λ p. (vec_len p.text ≤ p.room) × (p.room ≤ vec_capacity p.text) };
}

impl Page {
    ghost use Rattle.std.specs.Prelude.{◌≡◌, ◌+◌, ◌*◌, ◌≤◌, ◌<◌, ◌++◌, ◌∷◌, [], Some, length, decimal, IfOk};
    ghost use Rattle.hex.specs.Hex.{encode_upper};
    ghost use Rattle.lif_model.specs.Printed.{printed, printed_byte};
    ghost use Rattle.lif_dir.specs.Entries.{name_bytes};
    ghost use Rattle.lif_dir.specs.Names.{name_of_bytes};
    ghost use Rattle.lif_dir.specs.declared.entries.Name.{Name};
    ghost use Rattle.il_script.specs.Commands.{spelt_as};

    /// An empty text with room for so many bytes.
    pub fn new(alloc: Global, room: usize) -> Result<Page, AllocError>
        ensures { IfOk result (λ p. p ≡ record { text = []; room = room }) }
    {
        Ok(Page {
            text: Vec::with_capacity(alloc, room)?,
            room,
        })
    }

    /// The text.
    pub fn text(&self) -> &[u8]
        ensures { result.now ≡ self.now.text }
    {
        self.text.as_slice()
    }

    /// Begins anew.
    pub fn clear(&mut self)
        ensures { self.new ≡ record self.old { text = [] } }
    {
        self.text.clear();
    }

    /// Appends bytes.
    pub fn put(&mut self, piece: &[u8])
        requires { length self.old.text + length piece.now ≤ self.old.room }
        ensures { self.new ≡ record self.old { text = self.old.text ++ piece.now } }
    {
        self.text.extend_from_slice(piece).unwrap();
    }

    /// Appends a number in decimal, at most ten digits.
    pub fn put_number(&mut self, number: u32)
        requires { length self.old.text + 10 ≤ self.old.room }
        ensures text { self.new ≡ record self.old { text = self.old.text ++ decimal number } }
        ensures size { length self.new.text ≤ length self.old.text + 10 }
    {
        let mut buffer = Buffer::new();
        self.put(buffer.format(number).as_bytes());
    }

    /// Appends a byte as two hex digits.
    fn put_hex_byte(&mut self, byte: u8)
        requires { length self.old.text + 2 ≤ self.old.room }
        ensures text { self.new ≡ record self.old { text = self.old.text ++ encode_upper (byte ∷ []) } }
        ensures size { length self.new.text ≡ length self.old.text + 2 }
    {
        let mut digits = [0; 2];
        let _ = hex::encode_to_slice([byte], &mut digits);
        digits.make_ascii_uppercase();
        self.put(&digits);
    }

    /// Appends a block of bytes as hex digits. They are made where they stand, in lower case first: so the crate `hex`
    /// writes them.
    fn put_hex_block(&mut self, block: &[u8])
        requires { length self.old.text + 2 * length block.now ≤ self.old.room }
        ensures text { self.new ≡ record self.old { text = self.old.text ++ encode_upper block.now } }
        ensures size { length self.new.text ≡ length self.old.text + 2 * length block.now }
    {
        let from = self.text.len();
        self.text.resize(from + 2 * block.len(), 0).unwrap();
        let digits = &mut self.text[from..];
        let _ = hex::encode_to_slice(block, digits);
        digits.make_ascii_uppercase();
    }

    /// Appends bytes as hex digits, two a byte.
    pub fn put_hex(&mut self, bytes: &[u8])
        requires { length self.old.text + 2 * length bytes.now ≤ self.old.room }
        ensures text { self.new ≡ record self.old { text = self.old.text ++ encode_upper bytes.now } }
        ensures size { length self.new.text ≡ length self.old.text + 2 * length bytes.now }
    {
        // One byte is put faster without the passes of a block.
        if let [byte] = bytes {
            self.put_hex_byte(*byte);
            return;
        }
        let mut rest = bytes;
        'pieces: while rest.len() > BLOCK {
            let (block, after) = rest.split_at(BLOCK);
            self.put_hex_block(block);
            rest = after;
        }
        self.put_hex_block(rest);
    }

    /// Appends a byte of a name: itself, or a percent sign and two hex digits.
    pub fn put_name_byte(&mut self, byte: u8)
        requires { length self.old.text + 3 ≤ self.old.room }
        ensures text { self.new ≡ record self.old { text = self.old.text ++ printed_byte byte } }
        ensures size { length self.new.text ≤ length self.old.text + 3 }
    {
        if is_plain(byte) {
            self.put(&[byte]);
        } else {
            self.put(b"%");
            self.put_hex_byte(byte);
        }
    }

    /// Appends a name or a label as it is printed, at most three bytes for each of its bytes. What is printed of the
    /// name of a file spells this name in a script.
    pub fn put_name(&mut self, name: &[u8])
        requires some { 0 < length name.now }
        requires room { length self.old.text + 3 * length name.now ≤ self.old.room }
        ensures text { self.new ≡ record self.old { text = self.old.text ++ printed name.now } }
        ensures size { length self.new.text ≤ length self.old.text + 3 * length name.now }
        ensures read_back { (file : Name) → name_bytes file ≡ name.now → length name.now ≡ 10
            → spelt_as name_of_bytes (printed name.now) ≡ Some (Some file) }
    {
        let kept = without_end_spaces(name);
        if kept.is_empty() {
            self.put(b"%20");
            return;
        }
        for byte in kept {
            self.put_name_byte(*byte);
        }
    }
}
