// The names of fields.
ghost use Rattle.std.specs.Prelude.{◌≡◌};
ghost use Rattle.field_text.specs.Names.{field_name};

use bits::ElementName;

// A function: the type is another crate's, so no `Display` can be added here.
pub fn field_name(element: ElementName) -> &'static str
    ensures { result.now ≡ field_name element }
{
    match element {
        ElementName::SsType => "ss-type",
        ElementName::PduType => "pdu-type",
        ElementName::CallIdentifier => "call-identifier",
        ElementName::AreaSelection => "area-selection",
        ElementName::CallPriority => "call-priority",
        ElementName::ClirColr => "clir-colr",
        ElementName::BasicService => "basic-service",
        ElementName::CalledSsi => "called-ssi",
        ElementName::CalledExtension => "called-extension",
        ElementName::CallingSsi => "calling-ssi",
        ElementName::CallingExtension => "calling-extension",
        ElementName::Ccbsi => "ccbsi",
        ElementName::CancellationResult => "cancellation-result",
        ElementName::RejectCause => "reject-cause",
        ElementName::CancellationCause => "cancellation-cause",
        ElementName::FailureCause => "failure-cause",
        ElementName::RequestMaintained => "request-maintained",
        ElementName::ListRequest => "list-request",
        ElementName::AcceptReject => "accept-reject",
        ElementName::ListLength => "list-length",
        ElementName::RequestCount => "request-count",
        ElementName::RetainCapability => "retain-capability",
        ElementName::CalledType => "called-type",
        ElementName::Optional => "optional",
    }
}
