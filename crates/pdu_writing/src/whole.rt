// A whole PDU into bytes.
ghost use Rattle.std.specs.Prelude.{◌≡◌, Ok};
ghost use Rattle.bits.specs.Buffers.{put_out};
ghost use Rattle.pdu.specs.Bytes.{decode, image_of};
ghost use Rattle.pdu.specs.Bits.{bits_of_pdu};

use crate::spelling::Spelling;
use bits::BitBuffer;
use fields::Refusal;
use pdu::Pdu;
use pdu_telling::tell_pdu;

// Puts the PDU at the front of `out` and answers its count of bits. The bits after it up to the byte are 0.
// The caller lends the bytes, so that nothing has to be allocated.
pub fn write_pdu(pdu: &Pdu, out: &mut [u8]) -> Result<usize, Refusal>
    ensures value { (result, out.new) ≡ put_out (bits_of_pdu pdu.now) out.old }
    ensures back { decode (image_of pdu.now).0 (image_of pdu.now).1 ≡ Ok pdu.now }
{
    let mut spelling = Spelling {
        bits: BitBuffer::new(),
    };
    tell_pdu(&mut spelling, pdu);
    spelling.bits.put_out(out)
}
