// The names of PDUs.
ghost use Rattle.std.specs.Prelude.{◌≡◌};
ghost use Rattle.pdu_text.specs.Names.{pdu_name, is_named, pdu_named};

use element::PduType;
use element::listing::Listed;

#[tactic(auto, unfolding(crate::specs::Names::pdu_name))]
// A function: the type is another crate's, so no `Display` can be added here.
pub fn pdu_name(pdu_type: PduType) -> &'static str
    ensures { result.now ≡ pdu_name pdu_type }
{
    match pdu_type {
        PduType::CallInformationRetention => "CALL-INFORMATION-RETENTION",
        PduType::Cancel => "CANCEL",
        PduType::List => "LIST",
        PduType::Monitor => "MONITOR",
        PduType::Recall => "RECALL",
        PduType::Request => "REQUEST",
        PduType::ResumeCompletion => "RESUME-COMPLETION",
        PduType::CancelAck => "CANCEL-ACK",
        PduType::ListAck => "LIST-ACK",
        PduType::MonitorAck => "MONITOR-ACK",
        PduType::RequestAck => "REQUEST-ACK",
        PduType::Cancelled => "CANCELLED",
        PduType::Failed => "FAILED",
        PduType::FreeNotification => "FREE-NOTIFICATION",
        PduType::SuspendCompletion => "SUSPEND-COMPLETION",
        PduType::UserBFree => "USER-B-FREE",
        PduType::Cancellation => "CANCELLATION",
        PduType::Ccbsi => "CCBSI",
        PduType::CallInformationRelease => "CALL-INFORMATION-RELEASE",
    }
}

#[tactic(auto, unfolding(crate::specs::Names::is_named))]
fn is_named(word: &[u8], pdu_type: PduType) -> bool
    ensures { result ≡ is_named word.now pdu_type }
{
    word == pdu_name(pdu_type).as_bytes()
}

// The type of the PDU with this name.
pub fn pdu_named(word: &[u8]) -> Option<PduType>
    ensures { result ≡ pdu_named word.now }
{
    PduType::values()
        .iter()
        .copied()
        .find(|pdu_type| is_named(word, *pdu_type))
}
