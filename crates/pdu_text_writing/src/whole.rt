// Writes the text of a whole PDU.
ghost use Rattle.std.specs.Prelude.{◌≡◌, IfOk, Ok, string_bytes};
ghost use Rattle.text.specs.Words.{words};
ghost use Rattle.pdu_text.specs.Whole.{pdu_text, pdu_heard};

use crate::told_fields::write_fields;
use pdu::Pdu;
use pdu_telling::body_told;
use pdu_text::pdu_name;
use std::alloc::{AllocError, Global};

// The name of the PDU, and its fields with their values.
#[tactic(auto, using(pdu_text::proofs::Rounds::text_heard))]
pub fn write_text(heap: Global, pdu: &Pdu) -> Result<String, AllocError>
    ensures value { IfOk result (λ s. string_bytes s ≡ pdu_text pdu.now) }
    ensures back { pdu_heard (words (pdu_text pdu.now)) ≡ Ok pdu.now }
{
    let mut text = String::from_str(heap, pdu_name(pdu.pdu_type()))?;
    write_fields(&mut text, body_told(pdu).as_slice())?;
    Ok(text)
}
