// The type of a PDU.
ghost use Rattle.std.specs.Prelude.{◌≡◌};
ghost use Rattle.pdu.specs.Whole.{type_of};

use crate::pdus::Pdu;
use element::PduType;

impl Pdu {
    // A method and no `From`: it tells one thing of the PDU, and does not make another form of it.
    pub fn pdu_type(&self) -> PduType
        ensures { result ≡ type_of self.now }
    {
        match self {
            Pdu::CallInformationRetention(_) => PduType::CallInformationRetention,
            Pdu::Cancel(_) => PduType::Cancel,
            Pdu::List(_) => PduType::List,
            Pdu::Monitor(_) => PduType::Monitor,
            Pdu::Recall(_) => PduType::Recall,
            Pdu::Request(_) => PduType::Request,
            Pdu::ResumeCompletion(_) => PduType::ResumeCompletion,
            Pdu::CancelAck(_) => PduType::CancelAck,
            Pdu::ListAck(_) => PduType::ListAck,
            Pdu::MonitorAck(_) => PduType::MonitorAck,
            Pdu::RequestAck(_) => PduType::RequestAck,
            Pdu::Cancelled(_) => PduType::Cancelled,
            Pdu::Failed(_) => PduType::Failed,
            Pdu::FreeNotification(_) => PduType::FreeNotification,
            Pdu::SuspendCompletion(_) => PduType::SuspendCompletion,
            Pdu::UserBFree(_) => PduType::UserBFree,
            Pdu::Cancellation(_) => PduType::Cancellation,
            Pdu::Ccbsi(_) => PduType::Ccbsi,
            Pdu::CallInformationRelease(_) => PduType::CallInformationRelease,
        }
    }
}
