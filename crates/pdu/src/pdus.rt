// What the PDUs hold: one field for each element of their tables, so priority and service stand apart as they do there.
use crate::lists::ListAck;
use element::{
    CalledType, CancellationCause, ClirColr, FailureCause, ListRequest, RejectCause,
    RetainCapability,
};
use fields::{AreaSelection, CallIdentifier, Identifier, Identity, Key, Priority, Service};

// The verdict, with its cause where there is one.
pub type Outcome = Result<(), RejectCause>;

#[derive(Clone, Copy, PartialEq, Eq, Debug)]
pub struct CallInformationRetention {
    pub call_identifier: CallIdentifier,
    pub area_selection: AreaSelection,
    pub call_priority: Priority,
    pub clir_colr: ClirColr,
    pub basic_service: Service,
    pub called: Identity,
}

#[derive(Clone, Copy, PartialEq, Eq, Debug)]
pub struct Monitor {
    pub key: Key,
    pub call_priority: Priority,
    pub basic_service: Service,
    pub retain_capability: RetainCapability,
}

#[derive(Clone, Copy, PartialEq, Eq, Debug)]
pub struct CancelAck {
    pub ccbsi: Identifier,
    pub outcome: Outcome,
}

#[derive(Clone, Copy, PartialEq, Eq, Debug)]
pub struct MonitorAck {
    pub key: Key,
    pub outcome: Outcome,
    pub call_priority: Priority,
    pub basic_service: Service,
    pub area_selection: AreaSelection,
    pub retain_capability: Option<RetainCapability>,
}

#[derive(Clone, Copy, PartialEq, Eq, Debug)]
pub struct RequestAccepted {
    pub ccbsi: Identifier,
    pub call_identifier: CallIdentifier,
    pub call_priority: Priority,
    pub basic_service: Service,
    pub called_type: CalledType,
    pub called: Identity,
}

#[derive(Clone, Copy, PartialEq, Eq, Debug)]
pub struct RequestRejected {
    pub call_identifier: CallIdentifier,
    pub call_priority: Priority,
    pub basic_service: Service,
    pub reject_cause: RejectCause,
    pub called_type: CalledType,
    pub called: Identity,
}

pub type RequestAck = Result<RequestAccepted, RequestRejected>;

#[derive(Clone, Copy, PartialEq, Eq, Debug)]
pub struct Cancelled {
    pub ccbsi: Identifier,
    pub cancellation_cause: CancellationCause,
}

#[derive(Clone, Copy, PartialEq, Eq, Debug)]
pub struct Failed {
    pub ccbsi: Identifier,
    pub failure_cause: FailureCause,
    pub request_maintained: bool,
}

#[derive(Clone, Copy, PartialEq, Eq, Debug)]
pub struct Cancellation {
    pub key: Key,
    pub cancellation_cause: CancellationCause,
}

#[derive(Clone, Copy, PartialEq, Eq, Debug)]
pub enum Pdu {
    CallInformationRetention(CallInformationRetention),
    Cancel(Identifier),
    List(ListRequest),
    Monitor(Monitor),
    Recall(Identifier),
    Request(CallIdentifier),
    ResumeCompletion(Key),
    CancelAck(CancelAck),
    ListAck(ListAck),
    MonitorAck(MonitorAck),
    RequestAck(RequestAck),
    Cancelled(Cancelled),
    Failed(Failed),
    FreeNotification(Key),
    SuspendCompletion(Key),
    UserBFree(Identifier),
    Cancellation(Cancellation),
    Ccbsi(Identifier),
    CallInformationRelease(CallIdentifier),
}
