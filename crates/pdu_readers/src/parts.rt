// Reads the parts that PDUs share.
ghost use Rattle.std.specs.Prelude.{◌≡◌};
ghost use Rattle.pdu.specs.Parts.{ccbsi, call_identifier, identity, calling, called, key, outcome, optional_retain};

use bits::ElementName;
use element::{RejectCause, RetainCapability, Verdict};
use fields::{CallIdentifier, Extension, Identifier, Identity, Key, Ssi};
use pdu::Outcome;
use source::{Source, read_element};

pub fn read_ccbsi<S: Source>(source: S) -> Result<(Identifier, S), S::Fault>
    ensures { result ≡ ccbsi.hear S.Source.hearing source }
{
    read_element(source, ElementName::Ccbsi)
}

pub fn read_call_identifier<S: Source>(source: S) -> Result<(CallIdentifier, S), S::Fault>
    ensures { result ≡ call_identifier.hear S.Source.hearing source }
{
    read_element(source, ElementName::CallIdentifier)
}

fn read_identity<S: Source>(
    source: S,
    ssi_name: ElementName,
    extension_name: ElementName,
) -> Result<(Identity, S), S::Fault>
    ensures { result ≡ (identity ssi_name extension_name).hear S.Source.hearing source }
{
    let (ssi, source) = read_element(source, ssi_name)?;
    let (extension, source) = read_element(source, extension_name)?;
    Ok((Identity::of(ssi, extension), source))
}

fn read_calling<S: Source>(source: S) -> Result<(Identity, S), S::Fault>
    ensures { result ≡ calling.hear S.Source.hearing source }
{
    read_identity(
        source,
        ElementName::CallingSsi,
        ElementName::CallingExtension,
    )
}

pub fn read_called<S: Source>(source: S) -> Result<(Identity, S), S::Fault>
    ensures { result ≡ called.hear S.Source.hearing source }
{
    read_identity(source, ElementName::CalledSsi, ElementName::CalledExtension)
}

pub fn read_key<S: Source>(source: S) -> Result<(Key, S), S::Fault>
    ensures { result ≡ key.hear S.Source.hearing source }
{
    let (identifier, source) = read_ccbsi(source)?;
    let (caller, source) = read_calling(source)?;
    let (called, source) = read_called(source)?;
    Ok((
        Key {
            identifier,
            caller,
            called,
        },
        source,
    ))
}

pub fn read_outcome<S: Source>(source: S, name: ElementName) -> Result<(Outcome, S), S::Fault>
    ensures { result ≡ (outcome name).hear S.Source.hearing source }
{
    let (verdict, source) = read_element::<S, Verdict>(source, name)?;
    match verdict {
        Verdict::Accepted => Ok((Ok(()), source)),
        Verdict::Rejected => {
            let (cause, source) = read_element(source, ElementName::RejectCause)?;
            Ok((Err(cause), source))
        }
    }
}

pub fn read_optional_retain<S: Source>(source: S) -> Result<(Option<RetainCapability>, S), S::Fault>
    ensures { result ≡ optional_retain.hear S.Source.hearing source }
{
    let (present, source) = source.present()?;
    if !present {
        return Ok((None, source));
    }
    let (retain, source) = read_element(source, ElementName::RetainCapability)?;
    Ok((Some(retain), source))
}
