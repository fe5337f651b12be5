// Tells the parts that PDUs share.
ghost use Rattle.std.specs.Prelude.{◌≡◌};
ghost use Rattle.pdu.specs.Parts.{identity as identity_form, called as called_form, key as key_form, outcome as outcome_form, optional_retain};

use bits::ElementName;
use element::{RetainCapability, Verdict};
use fields::{Identity, Key};
use pdu::Outcome;
use source::{Listener, tell, tell_present};

fn tell_identity<L: Listener>(
    told: &mut L,
    ssi_name: ElementName,
    extension_name: ElementName,
    identity: &Identity,
)
    ensures { told.new ≡ L.after told.old ((identity_form ssi_name extension_name).tell identity.now) }
{
    let (ssi, extension) = identity.parts();
    tell(told, ssi_name, &ssi);
    tell(told, extension_name, &extension);
}

pub fn tell_called<L: Listener>(told: &mut L, called: &Identity)
    ensures { told.new ≡ L.after told.old (called_form.tell called.now) }
{
    tell_identity(
        told,
        ElementName::CalledSsi,
        ElementName::CalledExtension,
        called,
    );
}

pub fn tell_key<L: Listener>(told: &mut L, key: &Key)
    ensures { told.new ≡ L.after told.old (key_form.tell key.now) }
{
    tell(told, ElementName::Ccbsi, &key.identifier);
    tell_identity(
        told,
        ElementName::CallingSsi,
        ElementName::CallingExtension,
        &key.caller,
    );
    tell_called(told, &key.called);
}

// The verdict under this name, and the cause of a rejection.
pub fn tell_outcome<L: Listener>(told: &mut L, name: ElementName, outcome: &Outcome)
    ensures { told.new ≡ L.after told.old ((outcome_form name).tell outcome.now) }
{
    match outcome {
        Ok(()) => tell(told, name, &Verdict::Accepted),
        Err(cause) => {
            tell(told, name, &Verdict::Rejected);
            tell(told, ElementName::RejectCause, cause);
        }
    }
}

pub fn tell_optional_retain<L: Listener>(told: &mut L, retain: &Option<RetainCapability>)
    ensures { told.new ≡ L.after told.old (optional_retain.tell retain.now) }
{
    match retain {
        None => tell_present(told, false),
        Some(capability) => {
            tell_present(told, true);
            tell(told, ElementName::RetainCapability, capability);
        }
    }
}
