// Tells each PDU of several parts, after its type.
ghost use Rattle.std.specs.Prelude.{◌≡◌};
ghost use Rattle.pdu.specs.Pdus.{call_information_retention, monitor as monitor_form, cancel_ack, monitor_ack, cancelled as cancelled_form, failed as failed_form, cancellation as cancellation_form, request_accepted, request_rejected, request_ack_told};

use crate::parts::{tell_called, tell_key, tell_optional_retain, tell_outcome};
use bits::ElementName;
use element::{OnlyAccepted, OnlyRejected};
use pdu::{
    CallInformationRetention, CancelAck, Cancellation, Cancelled, Failed, Monitor, MonitorAck,
    RequestAccepted, RequestAck, RequestRejected,
};
use source::{Listener, tell};

pub fn tell_retention<L: Listener>(told: &mut L, retention: &CallInformationRetention)
    ensures { told.new ≡ L.after told.old (call_information_retention.tell retention.now) }
{
    tell(
        told,
        ElementName::CallIdentifier,
        &retention.call_identifier,
    );
    tell(told, ElementName::AreaSelection, &retention.area_selection);
    tell(told, ElementName::CallPriority, &retention.call_priority);
    tell(told, ElementName::ClirColr, &retention.clir_colr);
    tell(told, ElementName::BasicService, &retention.basic_service);
    tell_called(told, &retention.called);
}

pub fn tell_monitor<L: Listener>(told: &mut L, monitor: &Monitor)
    ensures { told.new ≡ L.after told.old (monitor_form.tell monitor.now) }
{
    tell_key(told, &monitor.key);
    tell(told, ElementName::CallPriority, &monitor.call_priority);
    tell(told, ElementName::BasicService, &monitor.basic_service);
    tell(
        told,
        ElementName::RetainCapability,
        &monitor.retain_capability,
    );
}

pub fn tell_cancel_ack<L: Listener>(told: &mut L, ack: &CancelAck)
    ensures { told.new ≡ L.after told.old (cancel_ack.tell ack.now) }
{
    tell(told, ElementName::Ccbsi, &ack.ccbsi);
    tell_outcome(told, ElementName::CancellationResult, &ack.outcome);
}

pub fn tell_monitor_ack<L: Listener>(told: &mut L, ack: &MonitorAck)
    ensures { told.new ≡ L.after told.old (monitor_ack.tell ack.now) }
{
    tell_key(told, &ack.key);
    tell_outcome(told, ElementName::AcceptReject, &ack.outcome);
    tell(told, ElementName::CallPriority, &ack.call_priority);
    tell(told, ElementName::BasicService, &ack.basic_service);
    tell(told, ElementName::AreaSelection, &ack.area_selection);
    tell_optional_retain(told, &ack.retain_capability);
}

pub fn tell_cancelled<L: Listener>(told: &mut L, cancelled: &Cancelled)
    ensures { told.new ≡ L.after told.old (cancelled_form.tell cancelled.now) }
{
    tell(told, ElementName::Ccbsi, &cancelled.ccbsi);
    tell(
        told,
        ElementName::CancellationCause,
        &cancelled.cancellation_cause,
    );
}

pub fn tell_failed<L: Listener>(told: &mut L, failed: &Failed)
    ensures { told.new ≡ L.after told.old (failed_form.tell failed.now) }
{
    tell(told, ElementName::Ccbsi, &failed.ccbsi);
    tell(told, ElementName::FailureCause, &failed.failure_cause);
    tell(
        told,
        ElementName::RequestMaintained,
        &failed.request_maintained,
    );
}

pub fn tell_cancellation<L: Listener>(told: &mut L, cancellation: &Cancellation)
    ensures { told.new ≡ L.after told.old (cancellation_form.tell cancellation.now) }
{
    tell_key(told, &cancellation.key);
    tell(
        told,
        ElementName::CancellationCause,
        &cancellation.cancellation_cause,
    );
}

fn tell_request_accepted<L: Listener>(told: &mut L, ack: &RequestAccepted)
    ensures { told.new ≡ L.after told.old (request_accepted.tell ack.now) }
{
    tell(told, ElementName::Ccbsi, &ack.ccbsi);
    tell(told, ElementName::CallIdentifier, &ack.call_identifier);
    tell(told, ElementName::CallPriority, &ack.call_priority);
    tell(told, ElementName::BasicService, &ack.basic_service);
    tell(told, ElementName::AcceptReject, &OnlyAccepted::Accepted);
    tell(told, ElementName::CalledType, &ack.called_type);
    tell_called(told, &ack.called);
}

fn tell_request_rejected<L: Listener>(told: &mut L, ack: &RequestRejected)
    ensures { told.new ≡ L.after told.old (request_rejected.tell ack.now) }
{
    tell(told, ElementName::CallIdentifier, &ack.call_identifier);
    tell(told, ElementName::CallPriority, &ack.call_priority);
    tell(told, ElementName::BasicService, &ack.basic_service);
    tell(told, ElementName::AcceptReject, &OnlyRejected::Rejected);
    tell(told, ElementName::RejectCause, &ack.reject_cause);
    tell(told, ElementName::CalledType, &ack.called_type);
    tell_called(told, &ack.called);
}

pub fn tell_request_ack<L: Listener>(told: &mut L, ack: &RequestAck)
    ensures { told.new ≡ L.after told.old (request_ack_told ack.now) }
{
    match ack {
        Ok(accepted) => tell_request_accepted(told, accepted),
        Err(rejected) => tell_request_rejected(told, rejected),
    }
}
