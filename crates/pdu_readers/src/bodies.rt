// Reads a PDU by its type.
ghost use Rattle.std.specs.Prelude.{◌≡◌, IfOk, MatchResult, Ok, Err};
ghost use Rattle.pdu.specs.declared.pdus.Pdu.{Pdu};
ghost use Rattle.pdu.specs.Whole.{body, head};

use crate::lists::read_list_ack;
use crate::parts::{read_call_identifier, read_ccbsi, read_key};
use crate::pdus::{
    read_cancel_ack, read_cancellation, read_cancelled, read_failed, read_monitor,
    read_monitor_ack, read_retention,
};
use crate::request_acks::read_request_ack;
use bits::ElementName;
use element::{ListRequest, PduType, SsType};
use pdu::Pdu;
use source::{Source, read_element};

// The supplementary service, which is always this one, and the type of the PDU.
pub fn read_head<S: Source>(source: S) -> Result<(PduType, S), S::Fault>
    ensures { result ≡ head.hear S.Source.hearing source }
{
    let (_, source) = read_element::<S, SsType>(source, ElementName::SsType)?;
    read_element(source, ElementName::PduType)
}

// What was read, as a PDU.
fn read_as<S: Source, A: Drop, F: FnOnce(A) -> Pdu>(
    read: Result<(A, S), S::Fault>,
    pdu: F,
) -> Result<(Pdu, S), S::Fault>
    requires { IfOk read (λ p. F.pre pdu p.0) }
    ensures { MatchResult read (λ p. (q : Pdu) × F.post pdu p.0 q × (result ≡ Ok (q, p.1))) (λ e. result ≡ Err e) }
{
    let (value, rest) = read?;
    Ok((pdu(value), rest))
}

// What follows the type, as a PDU: one match, since each PDU holds another type.
pub fn read_body<S: Source>(source: S, pdu_type: PduType) -> Result<(Pdu, S), S::Fault>
    ensures { result ≡ body S.Source.hearing pdu_type source }
{
    match pdu_type {
        PduType::CallInformationRetention => read_as(
            read_retention(source),
            Pdu::CallInformationRetention,
        ),
        PduType::Cancel => read_as(read_ccbsi(source), Pdu::Cancel),
        PduType::List => read_as(read_element(source, ElementName::ListRequest), Pdu::List),
        PduType::Monitor => read_as(read_monitor(source), Pdu::Monitor),
        PduType::Recall => read_as(read_ccbsi(source), Pdu::Recall),
        PduType::Request => read_as(read_call_identifier(source), Pdu::Request),
        PduType::ResumeCompletion => read_as(read_key(source), Pdu::ResumeCompletion),
        PduType::CancelAck => read_as(read_cancel_ack(source), Pdu::CancelAck),
        PduType::ListAck => read_as(read_list_ack(source), Pdu::ListAck),
        PduType::MonitorAck => read_as(read_monitor_ack(source), Pdu::MonitorAck),
        PduType::RequestAck => read_as(read_request_ack(source), Pdu::RequestAck),
        PduType::Cancelled => read_as(read_cancelled(source), Pdu::Cancelled),
        PduType::Failed => read_as(read_failed(source), Pdu::Failed),
        PduType::FreeNotification => read_as(read_key(source), Pdu::FreeNotification),
        PduType::SuspendCompletion => read_as(read_key(source), Pdu::SuspendCompletion),
        PduType::UserBFree => read_as(read_ccbsi(source), Pdu::UserBFree),
        PduType::Cancellation => read_as(read_cancellation(source), Pdu::Cancellation),
        PduType::Ccbsi => read_as(read_ccbsi(source), Pdu::Ccbsi),
        PduType::CallInformationRelease => read_as(
            read_call_identifier(source),
            Pdu::CallInformationRelease,
        ),
    }
}
