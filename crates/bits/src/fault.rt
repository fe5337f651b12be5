// What is wrong with the bits of a PDU, and where.
ghost use Rattle.std.specs.Prelude.{◌≡◌};
ghost use Rattle.bits.specs.Faults.{fault_number};

#[derive(Clone, Copy, PartialEq, Eq, Debug)]
pub enum Reason {
    // the PDU ends inside an element, or the bit count does not fit the bytes
    EndsInside,
    // the element's table does not list the value
    NotListed,
    // bits are left over, or the padding is not 0
    LeftOver,
}

// Who found it: the reader of bits, of an element or of a whole PDU.
#[derive(Clone, Copy, PartialEq, Eq, Debug)]
pub enum Layer {
    Bits,
    Element,
    Pdu,
}

#[derive(Clone, Copy, PartialEq, Eq, Debug)]
pub enum ElementName {
    SsType,
    PduType,
    CallIdentifier,
    AreaSelection,
    CallPriority,
    ClirColr,
    BasicService,
    CalledSsi,
    CalledExtension,
    CallingSsi,
    CallingExtension,
    Ccbsi,
    CancellationResult,
    RejectCause,
    CancellationCause,
    FailureCause,
    RequestMaintained,
    ListRequest,
    AcceptReject,
    ListLength,
    RequestCount,
    RetainCapability,
    CalledType,
    // the bit that tells whether any optional element is present
    Optional,
}

#[derive(Clone, Copy, PartialEq, Eq, Debug)]
pub struct Fault {
    pub reason: Reason,
    pub layer: Layer,
    pub element: Option<ElementName>,
    pub position: usize,
}

impl From<Fault> for u8 {
    ghost from_gives = { λ fault n. n ≡ fault_number fault };

    fn from(fault: Fault) -> u8 {
        match fault.reason {
            Reason::EndsInside => 13,
            Reason::NotListed => 14,
            Reason::LeftOver => 15,
        }
    }
}
