// What a line is answered with.
use link::Message;

#[derive(Clone, Copy, PartialEq, Eq, Debug)]
pub enum Reply {
    Decoded(Message),
    Encoded([u8; 15]),
}
