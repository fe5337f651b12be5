// The elements of PDUs: their widths, and the values that they take.
#![tactic(auto)]

pub mod coding;
pub mod counts;
pub mod kinds;
pub mod listed;
pub mod listing;
pub mod numbers;

pub use counts::UpToFive;
pub use listed::{
    CalledType, CancellationCause, FailureCause, ListRequest, OnlyAccepted, OnlyRejected, PduType,
    RejectCause, RetainCapability, SsType, Verdict,
};
pub use numbers::ClirColr;
