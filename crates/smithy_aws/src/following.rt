// Requests of inputs whose values follow their nodes.
ghost use Rattle.std.specs.Prelude.{◌≡◌};
ghost use Rattle.smithy_schema.specs.References.{schema_of};
ghost use Rattle.smithy_serde.specs.StructValues.{members_of};
ghost use Rattle.smithy_binding.specs.Refusing.{Answers, TellsFault};
ghost use Rattle.smithy_aws.specs.Requests.{body_followed, fault_in, whole_followed};

use smithy_http::Request;
use smithy_schema::SchemaRef;
use smithy_serde::{SerdeError, SerializableStruct, StructValue};
use smithy_wire::{check_body, check_whole};
use std::alloc::Global;

// The refusal of a value, as a fault of an input. Of its variants those come that tell one; another would be told without a text.
fn told(alloc: Global, refusal: SerdeError) -> SerdeError
    ensures fault { TellsFault result (λ f. f ≡ fault_in refusal) }
    ensures memory { refusal ≡ SerdeError.OutOfMemory → result ≡ SerdeError.OutOfMemory }
{
    match refusal {
        SerdeError::UnknownMember { .. } => refusal,
        SerdeError::InvalidInput { .. } => refusal,
        SerdeError::UnsupportedOperation { .. } => refusal,
        SerdeError::Custom { .. } => refusal,
        SerdeError::OutOfMemory => SerdeError::OutOfMemory,
        _ => SerdeError::custom(alloc, ""),
    }
}

/// The request of an input, where each value that stands in its body follows its node; else the first that doesn't is refused.
pub(crate) fn body_followed(
    alloc: Global,
    schema: SchemaRef<'_>,
    input: &StructValue<'_>,
    request: Request,
) -> Result<Request, SerdeError>
    ensures { Answers result (body_followed (schema_of schema.entry) (members_of input.now) request) }
{
    let Some((table, writes)) = input.stored_writes() else {
        unreachable!()
    };
    match check_body(alloc, table, schema, writes) {
        Ok(()) => Ok(request),
        Err(refusal) => Err(told(alloc, refusal)),
    }
}

/// The same of an input that is posted whole.
pub(crate) fn whole_followed(
    alloc: Global,
    schema: SchemaRef<'_>,
    input: &StructValue<'_>,
    request: Request,
) -> Result<Request, SerdeError>
    ensures { Answers result (whole_followed (schema_of schema.entry) (members_of input.now) request) }
{
    let Some((table, writes)) = input.stored_writes() else {
        unreachable!()
    };
    match check_whole(alloc, table, schema, writes) {
        Ok(()) => Ok(request),
        Err(refusal) => Err(told(alloc, refusal)),
    }
}
