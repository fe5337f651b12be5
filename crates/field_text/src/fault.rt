// What is wrong with the text of a PDU.
ghost use Rattle.std.specs.Prelude.{◌≡◌};
ghost use Rattle.field_text.specs.Faults.{text_fault_number};

#[derive(Clone, Copy, PartialEq, Eq, Debug)]
pub enum TextFault {
    // a name is unknown, or a field is missing, out of order, too many, no number or outside its width
    Unreadable,
    // the element's table does not list the value, or the PDU does not allow it
    NotListed,
}

impl From<TextFault> for u8 {
    ghost from_gives = { λ fault n. n ≡ text_fault_number fault };

    fn from(fault: TextFault) -> u8 {
        match fault {
            TextFault::Unreadable => 1,
            TextFault::NotListed => 14,
        }
    }
}
