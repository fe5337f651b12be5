// Reads the text of a whole PDU.
ghost use Rattle.std.specs.Prelude.{◌≡◌};
ghost use Rattle.text.specs.Words.{words};
ghost use Rattle.pdu.specs.Whole.{body};
ghost use Rattle.pdu_text.specs.Hearing.{text_hearing};
ghost use Rattle.pdu_text.specs.Whole.{ended, pdu_heard};

use crate::text_source::TextSource;
use element::PduType;
use field_text::TextFault;
use pdu::Pdu;
use pdu_readers::read_body;
use pdu_text::pdu_named;
use text::Words;

// The PDU of this type that the source tells, with nothing after it.
fn read_named(source: TextSource<'_>, pdu_type: PduType) -> Result<Pdu, TextFault>
    ensures { result ≡ ended (body text_hearing pdu_type source.entry) }
{
    let (pdu, source) = read_body(source, pdu_type)?;
    if source.any_left() {
        Err(TextFault::Unreadable)
    } else {
        Ok(pdu)
    }
}

// The PDU that a text tells by its name and its fields. Any bytes may come, so it is no `&str`.
#[tactic(auto, unfolding(pdu_text::specs::Whole::body_heard))]
pub fn read_text(text: &[u8]) -> Result<Pdu, TextFault>
    ensures { result ≡ pdu_heard (words text.now) }
{
    let mut words = Words::of(text);
    let named = words.next().and_then(pdu_named);
    let pdu_type = named.ok_or(TextFault::Unreadable)?;
    read_named(TextSource::new(words.as_bytes()), pdu_type)
}
