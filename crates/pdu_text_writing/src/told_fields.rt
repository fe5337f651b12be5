// Writes the fields that are told.
ghost use Rattle.std.specs.Prelude.{string_bytes, OnOk};
ghost use Rattle.field_text.specs.Fields.{Tells};
ghost use Rattle.pdu_text.specs.Hearing.{fields_told, fields};

use field_text::write_field;
use source::Told;
use std::alloc::AllocError;

// Of an optional element that is left out nothing is told.
#[tactic(auto, using(field_text::proofs::FieldLaws::none_told))]
fn write_told(text: &mut String, told: &Told) -> Result<(), AllocError>
    ensures { OnOk result (Tells (string_bytes text.old) (fields_told told.now) (string_bytes text.new)) }
{
    match told {
        Told::Element(code) => write_field(text, code.element, code.value),
        Told::Present(_) => Ok(()),
    }
}

pub fn write_fields(text: &mut String, told: &[Told]) -> Result<(), AllocError>
    ensures { OnOk result (Tells (string_bytes text.old) (fields told.now) (string_bytes text.new)) }
{
    for one in told {
        write_told(text, one)?;
    }
    Ok(())
}
