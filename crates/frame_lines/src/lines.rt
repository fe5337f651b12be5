// What a line asks for.
use link::PlainMessage;

#[derive(Clone, Copy, PartialEq, Eq, Debug)]
pub enum Line {
    // to tell what a frame holds
    Decode([u8; 15]),
    // to write the frame of a message
    Encode(PlainMessage),
}
