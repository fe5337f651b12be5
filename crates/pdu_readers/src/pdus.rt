// Reads each PDU of several parts, after its type.
ghost use Rattle.std.specs.Prelude.{◌≡◌};
ghost use Rattle.pdu.specs.Pdus.{call_information_retention, monitor, cancel_ack, monitor_ack, cancelled, failed, cancellation};

use crate::parts::{
    read_call_identifier, read_called, read_ccbsi, read_key, read_optional_retain, read_outcome,
};
use bits::ElementName;
use element::{CancellationCause, ClirColr, FailureCause, RetainCapability};
use fields::{AreaSelection, Priority, Service};
use pdu::{
    CallInformationRetention, CancelAck, Cancellation, Cancelled, Failed, Monitor, MonitorAck,
};
use source::{Source, read_element};

pub fn read_retention<S: Source>(source: S) -> Result<(CallInformationRetention, S), S::Fault>
    ensures { result ≡ call_information_retention.hear S.Source.hearing source }
{
    let (call_identifier, source) = read_call_identifier(source)?;
    let (area_selection, source) = read_element(source, ElementName::AreaSelection)?;
    let (call_priority, source) = read_element(source, ElementName::CallPriority)?;
    let (clir_colr, source) = read_element(source, ElementName::ClirColr)?;
    let (basic_service, source) = read_element(source, ElementName::BasicService)?;
    let (called, source) = read_called(source)?;
    let retention = CallInformationRetention {
        call_identifier,
        area_selection,
        call_priority,
        clir_colr,
        basic_service,
        called,
    };
    Ok((retention, source))
}

pub fn read_monitor<S: Source>(source: S) -> Result<(Monitor, S), S::Fault>
    ensures { result ≡ monitor.hear S.Source.hearing source }
{
    let (key, source) = read_key(source)?;
    let (call_priority, source) = read_element(source, ElementName::CallPriority)?;
    let (basic_service, source) = read_element(source, ElementName::BasicService)?;
    let (retain_capability, source) = read_element(source, ElementName::RetainCapability)?;
    let monitor = Monitor {
        key,
        call_priority,
        basic_service,
        retain_capability,
    };
    Ok((monitor, source))
}

pub fn read_cancel_ack<S: Source>(source: S) -> Result<(CancelAck, S), S::Fault>
    ensures { result ≡ cancel_ack.hear S.Source.hearing source }
{
    let (ccbsi, source) = read_ccbsi(source)?;
    let (outcome, source) = read_outcome(source, ElementName::CancellationResult)?;
    Ok((CancelAck { ccbsi, outcome }, source))
}

pub fn read_monitor_ack<S: Source>(source: S) -> Result<(MonitorAck, S), S::Fault>
    ensures { result ≡ monitor_ack.hear S.Source.hearing source }
{
    let (key, source) = read_key(source)?;
    let (outcome, source) = read_outcome(source, ElementName::AcceptReject)?;
    let (call_priority, source) = read_element(source, ElementName::CallPriority)?;
    let (basic_service, source) = read_element(source, ElementName::BasicService)?;
    let (area_selection, source) = read_element(source, ElementName::AreaSelection)?;
    let (retain_capability, source) = read_optional_retain(source)?;
    let ack = MonitorAck {
        key,
        outcome,
        call_priority,
        basic_service,
        area_selection,
        retain_capability,
    };
    Ok((ack, source))
}

pub fn read_cancelled<S: Source>(source: S) -> Result<(Cancelled, S), S::Fault>
    ensures { result ≡ cancelled.hear S.Source.hearing source }
{
    let (ccbsi, source) = read_ccbsi(source)?;
    let (cancellation_cause, source) = read_element(source, ElementName::CancellationCause)?;
    let cancelled = Cancelled {
        ccbsi,
        cancellation_cause,
    };
    Ok((cancelled, source))
}

pub fn read_failed<S: Source>(source: S) -> Result<(Failed, S), S::Fault>
    ensures { result ≡ failed.hear S.Source.hearing source }
{
    let (ccbsi, source) = read_ccbsi(source)?;
    let (failure_cause, source) = read_element(source, ElementName::FailureCause)?;
    let (request_maintained, source) = read_element(source, ElementName::RequestMaintained)?;
    let failed = Failed {
        ccbsi,
        failure_cause,
        request_maintained,
    };
    Ok((failed, source))
}

pub fn read_cancellation<S: Source>(source: S) -> Result<(Cancellation, S), S::Fault>
    ensures { result ≡ cancellation.hear S.Source.hearing source }
{
    let (key, source) = read_key(source)?;
    let (cancellation_cause, source) = read_element(source, ElementName::CancellationCause)?;
    let cancellation = Cancellation {
        key,
        cancellation_cause,
    };
    Ok((cancellation, source))
}
