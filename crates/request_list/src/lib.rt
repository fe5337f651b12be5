// A caller's requests as they are listed.
#![tactic(auto)]

pub mod entries;
pub mod listing;

pub use entries::ListedRequest;
pub use listing::write_list;
