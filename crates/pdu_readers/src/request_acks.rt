// Reads the answer to REQUEST.
ghost use Rattle.std.specs.Prelude.{◌≡◌};
ghost use Rattle.pdu.specs.Pdus.{request_accepted, request_rejected, request_ack_hear};

use crate::parts::{read_call_identifier, read_called, read_ccbsi};
use bits::ElementName;
use element::{CalledType, OnlyAccepted, OnlyRejected, RejectCause};
use fields::{Priority, Service};
use pdu::{RequestAccepted, RequestAck, RequestRejected};
use source::{Source, read_element};

fn read_request_accepted<S: Source>(source: S) -> Result<(RequestAccepted, S), S::Fault>
    ensures { result ≡ request_accepted.hear S.Source.hearing source }
{
    let (ccbsi, source) = read_ccbsi(source)?;
    let (call_identifier, source) = read_call_identifier(source)?;
    let (call_priority, source) = read_element(source, ElementName::CallPriority)?;
    let (basic_service, source) = read_element(source, ElementName::BasicService)?;
    let (_, source) = read_element::<S, OnlyAccepted>(source, ElementName::AcceptReject)?;
    let (called_type, source) = read_element(source, ElementName::CalledType)?;
    let (called, source) = read_called(source)?;
    Ok((
        RequestAccepted {
            ccbsi,
            call_identifier,
            call_priority,
            basic_service,
            called_type,
            called,
        },
        source,
    ))
}

fn read_request_rejected<S: Source>(source: S) -> Result<(RequestRejected, S), S::Fault>
    ensures { result ≡ request_rejected.hear S.Source.hearing source }
{
    let (call_identifier, source) = read_call_identifier(source)?;
    let (call_priority, source) = read_element(source, ElementName::CallPriority)?;
    let (basic_service, source) = read_element(source, ElementName::BasicService)?;
    let (_, source) = read_element::<S, OnlyRejected>(source, ElementName::AcceptReject)?;
    let (reject_cause, source) = read_element(source, ElementName::RejectCause)?;
    let (called_type, source) = read_element(source, ElementName::CalledType)?;
    let (called, source) = read_called(source)?;
    Ok((
        RequestRejected {
            call_identifier,
            call_priority,
            basic_service,
            reject_cause,
            called_type,
            called,
        },
        source,
    ))
}

// The identifier of an acceptance comes before the bit that tells it from a rejection: the source tells which of them it is.
pub fn read_request_ack<S: Source>(source: S) -> Result<(RequestAck, S), S::Fault>
    ensures { result ≡ request_ack_hear S.Source.hearing source }
{
    if source.rejects() {
        let (rejected, source) = read_request_rejected(source)?;
        Ok((Err(rejected), source))
    } else {
        let (accepted, source) = read_request_accepted(source)?;
        Ok((Ok(accepted), source))
    }
}
