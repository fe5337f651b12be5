// The nineteen PDUs of the call-completion service: what they hold, and the bits that they are.
#![tactic(auto)]

pub mod lists;
pub mod pdus;
pub mod types;

pub use lists::{Few, ListAck, ListedRequest, Listing, RequestCounts};
pub use pdus::{
    CallInformationRetention, CancelAck, Cancellation, Cancelled, Failed, Monitor, MonitorAck,
    Outcome, Pdu, RequestAccepted, RequestAck, RequestRejected,
};
