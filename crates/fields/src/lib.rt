// The values that both offices, the links and the codec share.
#![tactic(auto)]

pub mod call;
pub mod field;
pub mod identity;
pub mod key;
pub mod kinds;
pub mod making;
pub mod marking;
pub mod numbering;
pub mod refusal;

pub use call::CallAttributes;
pub use field::{
    AreaSelection, CallIdentifier, Extension, Field, Identifier, Identity, Priority, Service, Ssi,
};
pub use key::Key;
pub use kinds::Kind;
pub use marking::busy_mark;
pub use refusal::{HandedBack, Refusal};
