// A whole PDU from bytes.
ghost use Rattle.std.specs.Prelude.{◌≡◌, length, drop, IfOk};
ghost use Rattle.bits.specs.Bits.{unpack, bytes_for};
ghost use Rattle.pdu.specs.Bits.{reading};
ghost use Rattle.pdu.specs.Bytes.{first_one, left_over, decode, image_of};

use crate::bit_source::BitSource;
use bits::{Bits, Fault, Layer, Reason, bytes_for};
use pdu::Pdu;
use pdu_readers::{read_body, read_head};

// The PDU that the first `count` bits of the bytes are. The bytes are as many as these need, and the bits after them are 0.
// The count stands beside the bytes, since any number may come and need not fit them.
pub fn read_pdu(bytes: &[u8], count: usize) -> Result<Pdu, Fault>
    ensures value { result ≡ decode bytes.now count }
    ensures image { IfOk result (λ p. (bytes.now, count) ≡ image_of p) }
{
    if bytes.len() != bytes_for(count) {
        return Err(Fault {
            reason: Reason::EndsInside,
            layer: Layer::Pdu,
            element: None,
            position: count,
        });
    }
    let bits = Bits::new(bytes, count);
    let (pdu, at) = read_start(&bits)?;
    if at != count {
        return Err(left_over(at));
    }
    // No `map_or`: it would give the PDU first and the test of the padding after it.
    match first_padding_one(bytes, count) {
        Some(position) => Err(left_over(position)),
        None => Ok(pdu),
    }
}

// The PDU at the start of the bits, and the place after it.
#[tactic(auto, unfolding(pdu::specs::Bits::reading))]
fn read_start(bits: &Bits<'_>) -> Result<(Pdu, usize), Fault>
    ensures { result ≡ reading bits.now }
{
    let (pdu_type, source) = read_head(BitSource::new(bits, 0))?;
    let (pdu, source) = read_body(source, pdu_type)?;
    Ok((pdu, source.place()))
}

fn left_over(position: usize) -> Fault
    ensures { result ≡ left_over position }
{
    Fault {
        reason: Reason::LeftOver,
        layer: Layer::Pdu,
        element: None,
        position,
    }
}

// The first bit after the first `count` that is 1.
fn first_padding_one(bytes: &[u8], count: usize) -> Option<usize>
    requires { length bytes.now ≡ bytes_for count }
    ensures { result ≡ first_one count (drop count (unpack bytes.now)) }
{
    let padding = *bytes.get(count / 8)? << (count % 8);
    if padding == 0 {
        None
    } else {
        Some(count + padding.leading_zeros() as usize)
    }
}
