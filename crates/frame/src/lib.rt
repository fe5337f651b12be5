// A message in fifteen bytes.
#![tactic(auto)]

ghost use Rattle.std.specs.Prelude.{◌≡◌, ◌/◌, ◌%◌, ◌^◌, ◌<◌, ◌≤◌, Ok};
ghost use Rattle.frame.specs.Frames.{layout, octets, frame_of, read_of, Framed};
ghost use Rattle.frame.specs.Layout.{packed, split, Within};

pub mod frames;
pub mod outside;

use fields::Refusal;
pub use frames::Frames;
use link::{Message, PlainMessage, Ring};
pub use outside::send_frame;

// The trunk keeps messages as packed frames, in bytes that its maker hands over.
pub type Trunk = Ring<Frames>;

// Ends the trunk and gives its bytes back as they are. A function, since `Ring` stands in `link`.
pub fn into_bytes(trunk: Trunk) -> Vec<u8>
    ensures { result ≡ trunk.places.0 }
{
    let Frames(bytes) = trunk.into_places();
    bytes
}

// The fields as one number of 120 bits. A loop over their widths would not show where each stands.
fn pack(fields: [u64; 9]) -> u128
    requires { Within layout fields }
    ensures { result ≡ packed layout fields }
{
    let [
        kind,
        identifier,
        caller_ssi,
        caller_extension,
        called_ssi,
        called_extension,
        priority,
        service,
        cause,
    ] = fields;
    let head = u128::from(kind) * (1 << 116) + u128::from(identifier) * (1 << 113);
    let caller = u128::from(caller_ssi) * (1 << 89) + u128::from(caller_extension) * (1 << 65);
    let called = u128::from(called_ssi) * (1 << 41) + u128::from(called_extension) * (1 << 17);
    let call = u128::from(priority) * (1 << 13) + u128::from(service) * (1 << 5);
    head + caller + called + call + u128::from(cause)
}

// The field of that width, with so many bits below it.
fn field(n: u128, below: u32, width: u32) -> u64
    requires below { below < 128 }
    requires width { width ≤ 24 }
    ensures { result ≡ n / 2 ^ below % 2 ^ width }
{
    ((n >> below) % (1 << width)) as u64
}

fn unpack(n: u128) -> [u64; 9]
    ensures { result ≡ split layout n }
{
    [
        field(n, 116, 4),
        field(n, 113, 3),
        field(n, 89, 24),
        field(n, 65, 24),
        field(n, 41, 24),
        field(n, 17, 24),
        field(n, 13, 4),
        field(n, 5, 8),
        field(n, 0, 5),
    ]
}

// The number that the bytes write.
fn value(frame: [u8; 15]) -> u128
    ensures sum { result ≡ packed octets frame }
    ensures bytes { Within octets frame }
{
    // One by one: with a copy into sixteen bytes a trunk takes four tenths longer.
    let [a, b, c, d, e, f, g, h, i, j, k, l, m, n, o] = frame;
    u128::from_be_bytes([0, a, b, c, d, e, f, g, h, i, j, k, l, m, n, o])
}

// The lowest 120 bits as bytes.
fn bytes(number: u128) -> [u8; 15]
    ensures { result ≡ split octets number }
{
    let bytes = number.to_be_bytes();
    *bytes.last_chunk().unwrap()
}

// The message's frame. A function, as `message` is: a conversion between an array and a message
// could stand only where the message does.
pub fn frame(message: Message) -> [u8; 15]
    ensures value { result ≡ frame_of message }
    ensures reads_back { read_of result ≡ Ok message }
{
    bytes(pack(PlainMessage::from(message).into()))
}

// The message that the frame holds.
pub fn message(frame: [u8; 15]) -> Result<Message, Refusal>
    ensures value { result ≡ read_of frame }
    ensures exact { Framed frame result }
{
    Message::try_from(PlainMessage::from(unpack(value(frame))))
}
