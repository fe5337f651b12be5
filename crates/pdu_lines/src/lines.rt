// The PDU that a line holds, and what can be wrong with the line.
use bits::Fault;
use field_text::TextFault;
use pdu::Pdu;
use std::alloc::AllocError;

// It is read first and answered after, since only then it is known in which form to write.
#[derive(Clone, Copy, PartialEq, Eq, Debug)]
pub enum Line {
    // given in bits, to be told as text
    Bits(Pdu),
    // given as text, to be written in bits
    Text(Pdu),
}

#[derive(Clone, Copy, PartialEq, Eq, Debug)]
pub enum LineFault {
    Bits(Fault),
    Text(TextFault),
}

// Why a line is not read.
#[derive(Clone, Copy, PartialEq, Eq, Debug)]
pub enum LineError {
    Fault(LineFault),
    // for the bytes that the line writes
    OutOfMemory(AllocError),
}
