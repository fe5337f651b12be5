// Elements whose table lists the values.

// The supplementary service.
#[derive(Clone, Copy, PartialEq, Eq, Debug)]
pub enum SsType {
    Ccbs = 13,
}

// The type of a PDU.
#[derive(Clone, Copy, PartialEq, Eq, Debug)]
pub enum PduType {
    CallInformationRetention = 5,
    Cancel = 6,
    List = 7,
    Monitor = 8,
    Recall = 9,
    Request = 11,
    ResumeCompletion = 12,
    CancelAck = 13,
    ListAck = 14,
    MonitorAck = 15,
    RequestAck = 16,
    Cancelled = 17,
    Failed = 18,
    FreeNotification = 19,
    SuspendCompletion = 20,
    UserBFree = 21,
    Cancellation = 22,
    Ccbsi = 23,
    CallInformationRelease = 24,
}

// What accept/reject and the cancellation result say.
#[derive(Clone, Copy, PartialEq, Eq, Debug)]
pub enum Verdict {
    Accepted = 0,
    Rejected = 1,
}

// Accept/reject where no other answer may stand. Each answer is a type of its own, since a parameter would not name it.
#[derive(Clone, Copy, PartialEq, Eq, Debug)]
pub enum OnlyAccepted {
    Accepted = 0,
}

// Accept/reject where no other answer may stand.
#[derive(Clone, Copy, PartialEq, Eq, Debug)]
pub enum OnlyRejected {
    Rejected = 1,
}

// Whether a request is kept when the called party is busy again.
#[derive(Clone, Copy, PartialEq, Eq, Debug)]
pub enum RetainCapability {
    Retains = 1,
    RetainsNot = 2,
}

#[derive(Clone, Copy, PartialEq, Eq, Debug)]
pub enum RejectCause {
    AnyReason = 0,
    NotSubscribed = 1,
    NoRequests = 2,
    NotProvidedLocally = 4,
    InvalidContents = 5,
    TooManyLocally = 6,
    TooManyRemotely = 7,
    NetworkWithoutService = 8,
    Congestion = 9,
    NotBusy = 11,
    CalledBusy = 12,
    CallerBusy = 13,
    SignallingFailed = 14,
    WrongIdentifier = 15,
    NotProvidedRemotely = 16,
    InteractionNotAllowed = 17,
    NoResourcesAtCalled = 18,
    ShortTermDenial = 19,
    LongTermDenial = 20,
    NotReady = 21,
    AlreadyAccepted = 22,
    NoResourcesAtCaller = 23,
    UnknownOperation = 24,
    NoMatch = 25,
}

// What a list is asked to tell of each request.
#[derive(Clone, Copy, PartialEq, Eq, Debug)]
pub enum ListRequest {
    Count = 0,
    Identifiers = 1,
    Details = 2,
}

#[derive(Clone, Copy, PartialEq, Eq, Debug)]
pub enum CancellationCause {
    AnyReason = 0,
    ServiceTimer = 1,
    OutsideArea = 2,
    Completed = 3,
    IncompatibleService = 4,
    Interworking = 5,
    CallFailed = 6,
    RecallTimer = 7,
}

#[derive(Clone, Copy, PartialEq, Eq, Debug)]
pub enum FailureCause {
    AnyReason = 0,
    BusyAgain = 1,
    Congestion = 2,
    SignallingFailed = 3,
    IncompatibleService = 4,
    Interworking = 5,
}

// What kind of address the called party has.
#[derive(Clone, Copy, PartialEq, Eq, Debug)]
pub enum CalledType {
    ShortNumber = 0,
    Ssi = 1,
    Tsi = 2,
}
