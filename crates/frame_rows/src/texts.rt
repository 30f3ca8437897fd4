//! Frames by their texts.

use il_frames::Frame;

/// The frame of a text.
pub fn frame_of(text: &'static str) -> Result<Frame, &'static str> {
    Frame::read_text(text.as_bytes()).ok_or(text)
}
