// Writing the answer to a line.
ghost use Rattle.std.specs.Prelude.{◌≡◌, ◌++◌, IfOk, Ok, Some, string_bytes, codes};
ghost use Rattle.pdu.specs.Bytes.{image_of};
ghost use Rattle.pdu_lines.specs.Lines.{layer_name, element_name, line_fault_text, image_text, reply_text};

use crate::lines::{Line, LineFault};
use bits::{ElementName, Layer, bytes_for};
use field_text::field_name;
use pdu::Pdu;
use pdu_text_writing::write_text;
use pdu_writing::write_pdu;
use std::alloc::{AllocError, Global};
use std::fmt;
use std::fmt::Write;
use text::push_hex;

// A function: the type is another crate's, so no `Display` can be added here.
fn layer_name(layer: Layer) -> &'static str
    ensures { result.now ≡ layer_name layer }
{
    match layer {
        Layer::Bits => "bits",
        Layer::Element => "element",
        Layer::Pdu => "PDU",
    }
}

fn element_name(element: Option<ElementName>) -> &'static str
    ensures { result.now ≡ element_name element }
{
    element.map_or("-", field_name)
}

// Number, layer, element and bit of what is wrong with bits; the number of what is wrong with a text.
impl fmt::Display for LineFault {
    ghost output = { λ fault. Some (line_fault_text fault) };

    fn fmt<W: fmt::Write>(&self, f: &mut fmt::Formatter<W>) -> fmt::Result {
        match *self {
            LineFault::Bits(fault) => {
                let element = element_name(fault.element);
                let number = u8::from(fault);
                let layer = layer_name(fault.layer);
                let position = fault.position;
                write!(f, "{number} {layer} {element} {position}")
            }
            LineFault::Text(fault) => write!(f, "{}", u8::from(fault)),
        }
    }
}

// Bytes in hex, and the count of bits.
fn write_image(heap: Global, pdu: &Pdu) -> Result<String, AllocError>
    ensures { IfOk result (λ s. string_bytes s ≡ codes "0 " ++ image_text (image_of pdu.now)) }
{
    let mut buffer = [0; 34];
    let bits = write_pdu(pdu, &mut buffer).unwrap();
    let mut text = String::from_str(heap, "0 ")?;
    push_hex(&mut text, &buffer[..bytes_for(bits)])?;
    write!(text, " {bits}")?;
    Ok(text)
}

// 0 and the PDU in the other form.
fn write_found(heap: Global, line: Line) -> Result<String, AllocError>
    ensures { IfOk result (λ s. string_bytes s ≡ reply_text (Ok line)) }
{
    match line {
        Line::Bits(pdu) => {
            let text = write_text(heap, &pdu)?;
            format!(in heap; "0 {text}")
        }
        Line::Text(pdu) => write_image(heap, &pdu),
    }
}

// 0 and the PDU in the other form, or what is wrong. A function: no `Display` can be added to a
// `Result`.
pub fn write_reply(heap: Global, line: Result<Line, LineFault>) -> Result<String, AllocError>
    ensures { IfOk result (λ s. string_bytes s ≡ reply_text line) }
{
    match line {
        Ok(found) => write_found(heap, found),
        Err(fault) => fault.to_string(heap),
    }
}
