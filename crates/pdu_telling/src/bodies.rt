// Tells a PDU by its type.
ghost use Rattle.std.specs.Prelude.{◌≡◌};
ghost use Rattle.pdu.specs.Whole.{head, body_told, told_of};

use crate::lists::tell_list_ack;
use crate::parts::tell_key;
use crate::pdus::{
    tell_cancel_ack, tell_cancellation, tell_cancelled, tell_failed, tell_monitor,
    tell_monitor_ack, tell_request_ack, tell_retention,
};
use bits::ElementName;
use element::{PduType, SsType};
use pdu::Pdu;
use source::{Listener, ToldList, tell};

fn tell_head<L: Listener>(told: &mut L, pdu_type: &PduType)
    ensures { told.new ≡ L.after told.old (head.tell pdu_type.now) }
{
    tell(told, ElementName::SsType, &SsType::Ccbs);
    tell(told, ElementName::PduType, pdu_type);
}

// One match, since each PDU holds another type.
fn tell_body<L: Listener>(told: &mut L, pdu: &Pdu)
    ensures { told.new ≡ L.after told.old (body_told pdu.now) }
{
    match pdu {
        Pdu::CallInformationRetention(retention) => tell_retention(told, retention),
        Pdu::Cancel(ccbsi) => tell(told, ElementName::Ccbsi, ccbsi),
        Pdu::List(request) => tell(told, ElementName::ListRequest, request),
        Pdu::Monitor(monitor) => tell_monitor(told, monitor),
        Pdu::Recall(ccbsi) => tell(told, ElementName::Ccbsi, ccbsi),
        Pdu::Request(call) => tell(told, ElementName::CallIdentifier, call),
        Pdu::ResumeCompletion(key) => tell_key(told, key),
        Pdu::CancelAck(ack) => tell_cancel_ack(told, ack),
        Pdu::ListAck(ack) => tell_list_ack(told, ack),
        Pdu::MonitorAck(ack) => tell_monitor_ack(told, ack),
        Pdu::RequestAck(ack) => tell_request_ack(told, ack),
        Pdu::Cancelled(cancelled) => tell_cancelled(told, cancelled),
        Pdu::Failed(failed) => tell_failed(told, failed),
        Pdu::FreeNotification(key) => tell_key(told, key),
        Pdu::SuspendCompletion(key) => tell_key(told, key),
        Pdu::UserBFree(ccbsi) => tell(told, ElementName::Ccbsi, ccbsi),
        Pdu::Cancellation(cancellation) => tell_cancellation(told, cancellation),
        Pdu::Ccbsi(ccbsi) => tell(told, ElementName::Ccbsi, ccbsi),
        Pdu::CallInformationRelease(call) => tell(told, ElementName::CallIdentifier, call),
    }
}

// Tells a PDU, its type first.
pub fn tell_pdu<L: Listener>(told: &mut L, pdu: &Pdu)
    ensures { told.new ≡ L.after told.old (told_of pdu.now) }
{
    tell_head(told, &pdu.pdu_type());
    tell_body(told, pdu);
}

// What a PDU tells.
#[tactic(auto, using(crate::proofs::Counts::all_told))]
pub fn told_of(pdu: &Pdu) -> ToldList
    ensures { result.items ≡ told_of pdu.now }
{
    let mut told = ToldList::new();
    tell_pdu(&mut told, pdu);
    told
}

// What a PDU tells after its type.
#[tactic(auto, using(crate::proofs::Counts::body_all_told))]
pub fn body_told(pdu: &Pdu) -> ToldList
    ensures { result.items ≡ body_told pdu.now }
{
    let mut told = ToldList::new();
    tell_body(&mut told, pdu);
    told
}
