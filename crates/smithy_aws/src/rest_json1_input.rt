// A schema that requests of restJson1 are made by.
ghost use Rattle.std.specs.Prelude.{◌≡◌, IfOk, IsTrue};
ghost use Rattle.smithy_schema.specs.References.{schema_of};
ghost use Rattle.smithy_aws.specs.Added.{with_type};
ghost use Rattle.smithy_aws.specs.Requests.{takes_requests};

use crate::added_headers::add_defaults;
use crate::following::body_followed;
use crate::payload::{raw_payload, raw_type};
use crate::ready::ReadyInput;
use crate::sending::placed_by;
use smithy_binding::checked_input;
use smithy_http::Request;
use smithy_schema::SchemaRef;
use smithy_serde::{OmitFlags, SerdeError, StructValue};
use smithy_types::OutOfMemory;
use smithy_wire::{Side, WireJson, names_stand, wire_json_is_lawful};
use std::alloc::Global;

/// A schema of inputs that requests of AWS restJson1 are made by.
#[derive(Clone, Copy)]
pub struct RestJson1Input<'t> {
    pub(crate) schema: SchemaRef<'t>,
    ghost taken: { IsTrue (takes_requests (schema_of schema)) },
}

impl<'t> RestJson1Input<'t> {
    ghost use Rattle.std.specs.Prelude.{◌≡◌, option_map, Some, IfOk};
    ghost use Rattle.smithy_schema.specs.References.{schema_of};
    ghost use Rattle.smithy_binding.specs.Refusing.{Answers};
    ghost use Rattle.smithy_aws.specs.Added.{raw_payload};
    ghost use Rattle.smithy_aws.specs.Requests.{taken_input};
    ghost use Rattle.smithy_aws.specs.views.Inputs.{input_followed, input_of, input_placed, raw_input, AnswersRestJson1};

    /// The schema of an input; None exactly where no request can be placed by it (`checked_input`), where it has no `@http`, or
    /// where names don't stand in it (`names_stand`). Takes memory for these tests alone.
    pub fn new(
        alloc: Global,
        schema: SchemaRef<'t>,
    ) -> Result<Option<RestJson1Input<'t>>, OutOfMemory>
        ensures { IfOk result (λ o. option_map input_of o ≡ taken_input (schema_of schema.entry)) }
    {
        if !takes_requests(alloc, schema)? {
            return Ok(None);
        }
        Ok(Some(RestJson1Input { schema }))
    }

    /// The request of an input: each bound member where its trait names it, and the others, or the payload, as a body of JSON by
    /// their names in JSON (Smithy, AWS restJson1 protocol). Null members are not there, at any depth, and an empty structure is
    /// there where a payload that is a structure has no write. The default headers are added as `omit` asks: a content type where
    /// the body has one, of JSON, or the media type of a Blob or String that is the payload and isn't empty, else
    /// `application/octet-stream` or `text/plain`; and then a length. A media type that no header can have is passed over.
    ///
    /// Refused with the first fault of the writes in order, then of the body's document, of the template's holes, and of the
    /// target, as by `HttpBindingProtocol`; and then with the first value in the body that doesn't follow its node, with its path:
    /// `UnknownMember` where no member has the name, `UnsupportedOperation` for another kind than the node's, `InvalidInput` for a
    /// union without exactly one member and a big number that is none of JSON, `Custom` for a year outside 1 to 9999. Takes
    /// memory; `OutOfMemory` where it is not there.
    pub fn request(
        &self,
        alloc: Global,
        input: StructValue<'_>,
        endpoint: &str,
        omit: OmitFlags,
    ) -> Result<Request, SerdeError>
        ensures { AnswersRestJson1 self.now input.entry endpoint.now omit result }
    {
        let ready = ReadyInput::of(alloc, self.schema, input)?;
        match raw_payload(self.schema) {
            Some(payload) => self.raw_request(alloc, payload, &ready, endpoint, omit),
            None => self.followed(alloc, &ready, endpoint, omit),
        }
    }

    // The request of an input that is ready, of which this payload is the body. The length is added behind the content type.
    fn raw_request(
        &self,
        alloc: Global,
        payload: SchemaRef<'_>,
        ready: &ReadyInput<'_>,
        endpoint: &str,
        omit: OmitFlags,
    ) -> Result<Request, SerdeError>
        requires { raw_payload (input_of self.now) ≡ Some (schema_of payload) }
        ensures { Answers result (raw_input self.now payload.entry ready.now endpoint.now omit) }
    {
        let unmeasured = OmitFlags {
            content_type: omit.content_type,
            content_length: true,
        };
        let request = self.followed(alloc, ready, endpoint, unmeasured)?;
        Ok(with_type(alloc, payload, request, omit)?)
    }

    // The request of an input that is ready, where its values follow their nodes.
    fn followed(
        &self,
        alloc: Global,
        ready: &ReadyInput<'_>,
        endpoint: &str,
        omit: OmitFlags,
    ) -> Result<Request, SerdeError>
        ensures { Answers result (input_followed self.now ready.now endpoint.now omit) }
    {
        let request = self.placed(alloc, ready, endpoint, omit)?;
        body_followed(alloc, self.schema, ready.present(), request)
    }

    // The request of an input that is ready, as the core's protocol places it.
    fn placed(
        &self,
        alloc: Global,
        ready: &ReadyInput<'_>,
        endpoint: &str,
        omit: OmitFlags,
    ) -> Result<Request, SerdeError>
        ensures { Answers result (input_placed self.now ready.now endpoint.now omit) }
    {
        let wire = WireJson::of_input(self.schema, true);
        wire_json_is_lawful(&wire);
        placed_by(alloc, wire, self.schema, ready, endpoint, omit)
    }
}

// Whether requests can be made by the schema.
fn takes_requests(alloc: Global, schema: SchemaRef<'_>) -> Result<bool, OutOfMemory>
    ensures { IfOk result (λ b. b ≡ takes_requests (schema_of schema.entry)) }
{
    Ok(
        checked_input(alloc, schema)?
            && schema.http().is_some()
            && names_stand(alloc, schema, Side::Request)?,
    )
}

// The request with the content type of a raw payload behind the headers of members, and then the length.
fn with_type(
    alloc: Global,
    payload: SchemaRef<'_>,
    mut request: Request,
    omit: OmitFlags,
) -> Result<Request, OutOfMemory>
    ensures { IfOk result (λ r. r ≡ with_type (schema_of payload.entry) omit request.headers request) }
{
    let length = request.body().as_slice().len();
    let content_type = raw_type(payload);
    add_defaults(
        alloc,
        request.headers_mut(),
        content_type,
        length != 0,
        length,
        omit,
    )?;
    Ok(request)
}
