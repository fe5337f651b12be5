// The codes of the listed values.
ghost use Rattle.std.specs.Prelude.{◌≡◌};
ghost use Rattle.element.specs.Listings.{Listing, listed};
ghost use Rattle.element.specs.Listed.{ss_type_listing, pdu_type_listing, verdict_listing, only_accepted_listing, only_rejected_listing, retain_capability_listing, reject_cause_listing, list_request_listing, cancellation_cause_listing, failure_cause_listing, called_type_listing, flag_listing};

use crate::coding::Element;
use crate::listed::{
    CalledType, CancellationCause, FailureCause, ListRequest, OnlyAccepted, OnlyRejected, PduType,
    RejectCause, RetainCapability, SsType, Verdict,
};

// An element whose table lists its values.
pub trait Listed: Copy + 'static {
    ghost listing: { Listing Self };

    fn width() -> usize
        ensures { result ≡ listing.width };

    fn values() -> &'static [Self]
        ensures { result.now ≡ listing.values };

    fn number(&self) -> u64
        ensures { result ≡ listing.code self.now };
}

impl<L: Listed> Element for L {
    ghost coding = { listed L.listing };

    fn width() -> usize {
        L::width()
    }

    fn from_code(code: u64) -> Option<L> {
        L::values()
            .iter()
            .copied()
            .find(|value| value.number() == code)
    }

    fn code(&self) -> u64 {
        self.number()
    }
}

impl Listed for SsType {
    ghost listing = { ss_type_listing };

    fn width() -> usize {
        6
    }

    fn values() -> &'static [SsType] {
        &[SsType::Ccbs]
    }

    fn number(&self) -> u64 {
        *self as u64
    }
}

impl Listed for PduType {
    ghost listing = { pdu_type_listing };

    fn width() -> usize {
        5
    }

    fn values() -> &'static [PduType] {
        &[
            PduType::CallInformationRetention,
            PduType::Cancel,
            PduType::List,
            PduType::Monitor,
            PduType::Recall,
            PduType::Request,
            PduType::ResumeCompletion,
            PduType::CancelAck,
            PduType::ListAck,
            PduType::MonitorAck,
            PduType::RequestAck,
            PduType::Cancelled,
            PduType::Failed,
            PduType::FreeNotification,
            PduType::SuspendCompletion,
            PduType::UserBFree,
            PduType::Cancellation,
            PduType::Ccbsi,
            PduType::CallInformationRelease,
        ]
    }

    fn number(&self) -> u64 {
        *self as u64
    }
}

impl Listed for Verdict {
    ghost listing = { verdict_listing };

    fn width() -> usize {
        1
    }

    fn values() -> &'static [Verdict] {
        &[Verdict::Accepted, Verdict::Rejected]
    }

    fn number(&self) -> u64 {
        *self as u64
    }
}

impl Listed for OnlyAccepted {
    ghost listing = { only_accepted_listing };

    fn width() -> usize {
        1
    }

    fn values() -> &'static [OnlyAccepted] {
        &[OnlyAccepted::Accepted]
    }

    fn number(&self) -> u64 {
        *self as u64
    }
}

impl Listed for OnlyRejected {
    ghost listing = { only_rejected_listing };

    fn width() -> usize {
        1
    }

    fn values() -> &'static [OnlyRejected] {
        &[OnlyRejected::Rejected]
    }

    fn number(&self) -> u64 {
        *self as u64
    }
}

impl Listed for RetainCapability {
    ghost listing = { retain_capability_listing };

    fn width() -> usize {
        2
    }

    fn values() -> &'static [RetainCapability] {
        &[RetainCapability::Retains, RetainCapability::RetainsNot]
    }

    fn number(&self) -> u64 {
        *self as u64
    }
}

impl Listed for RejectCause {
    ghost listing = { reject_cause_listing };

    fn width() -> usize {
        5
    }

    fn values() -> &'static [RejectCause] {
        &[
            RejectCause::AnyReason,
            RejectCause::NotSubscribed,
            RejectCause::NoRequests,
            RejectCause::NotProvidedLocally,
            RejectCause::InvalidContents,
            RejectCause::TooManyLocally,
            RejectCause::TooManyRemotely,
            RejectCause::NetworkWithoutService,
            RejectCause::Congestion,
            RejectCause::NotBusy,
            RejectCause::CalledBusy,
            RejectCause::CallerBusy,
            RejectCause::SignallingFailed,
            RejectCause::WrongIdentifier,
            RejectCause::NotProvidedRemotely,
            RejectCause::InteractionNotAllowed,
            RejectCause::NoResourcesAtCalled,
            RejectCause::ShortTermDenial,
            RejectCause::LongTermDenial,
            RejectCause::NotReady,
            RejectCause::AlreadyAccepted,
            RejectCause::NoResourcesAtCaller,
            RejectCause::UnknownOperation,
            RejectCause::NoMatch,
        ]
    }

    fn number(&self) -> u64 {
        *self as u64
    }
}

impl Listed for ListRequest {
    ghost listing = { list_request_listing };

    fn width() -> usize {
        2
    }

    fn values() -> &'static [ListRequest] {
        &[
            ListRequest::Count,
            ListRequest::Identifiers,
            ListRequest::Details,
        ]
    }

    fn number(&self) -> u64 {
        *self as u64
    }
}

impl Listed for CancellationCause {
    ghost listing = { cancellation_cause_listing };

    fn width() -> usize {
        3
    }

    fn values() -> &'static [CancellationCause] {
        &[
            CancellationCause::AnyReason,
            CancellationCause::ServiceTimer,
            CancellationCause::OutsideArea,
            CancellationCause::Completed,
            CancellationCause::IncompatibleService,
            CancellationCause::Interworking,
            CancellationCause::CallFailed,
            CancellationCause::RecallTimer,
        ]
    }

    fn number(&self) -> u64 {
        *self as u64
    }
}

impl Listed for FailureCause {
    ghost listing = { failure_cause_listing };

    fn width() -> usize {
        3
    }

    fn values() -> &'static [FailureCause] {
        &[
            FailureCause::AnyReason,
            FailureCause::BusyAgain,
            FailureCause::Congestion,
            FailureCause::SignallingFailed,
            FailureCause::IncompatibleService,
            FailureCause::Interworking,
        ]
    }

    fn number(&self) -> u64 {
        *self as u64
    }
}

impl Listed for CalledType {
    ghost listing = { called_type_listing };

    fn width() -> usize {
        2
    }

    fn values() -> &'static [CalledType] {
        &[CalledType::ShortNumber, CalledType::Ssi, CalledType::Tsi]
    }

    fn number(&self) -> u64 {
        *self as u64
    }
}

impl Listed for bool {
    ghost listing = { flag_listing };

    fn width() -> usize {
        1
    }

    fn values() -> &'static [bool] {
        &[false, true]
    }

    fn number(&self) -> u64 {
        u64::from(*self)
    }
}
