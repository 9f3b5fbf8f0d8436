// Requests of AWS JSON 1.0 and 1.1.
use crate::added_headers::add_call_headers;
use crate::following::whole_followed;
use crate::sending::posted_by;
use smithy_http::Request;
use smithy_ids::ShapeId;
use smithy_schema::SchemaRef;
use smithy_serde::{OmitFlags, SerdeError, StructValue};
use smithy_wire::{WireJson, wire_json_is_lawful};
use std::alloc::Global;

/// A version of AWS's JSON protocol.
#[derive(Clone, Copy, Debug, PartialEq, Eq)]
pub enum AwsJsonVersion {
    /// `aws.protocols#awsJson1_0`.
    V1_0,
    /// `aws.protocols#awsJson1_1`.
    V1_1,
}

impl AwsJsonVersion {
    ghost use Rattle.std.specs.Prelude.{◌≡◌, IsTrue};
    ghost use Rattle.smithy_types.specs.Grammars.{is_header_value};
    ghost use Rattle.smithy_ids.specs.ShapeIdParts.{parts_of};
    ghost use Rattle.smithy_aws.specs.Requests.{content_type_of, protocol_name};

    /// The name of the protocol. Takes no memory.
    pub fn protocol_id(self) -> ShapeId<'static>
        ensures { (parts_of result).full_name ≡ protocol_name self }
    {
        match self {
            AwsJsonVersion::V1_0 => {
                ShapeId::from_parts("aws.protocols#awsJson1_0", "aws.protocols", "awsJson1_0")
            }
            AwsJsonVersion::V1_1 => {
                ShapeId::from_parts("aws.protocols#awsJson1_1", "aws.protocols", "awsJson1_1")
            }
        }
    }

    /// The content type of its bodies (Smithy, AWS JSON 1.0 and AWS JSON 1.1 protocols). Takes no memory.
    pub(crate) fn content_type(self) -> &'static str
        ensures value { result.now ≡ content_type_of self }
        ensures legal { IsTrue (is_header_value result.now) }
    {
        match self {
            AwsJsonVersion::V1_0 => "application/x-amz-json-1.0",
            AwsJsonVersion::V1_1 => "application/x-amz-json-1.1",
        }
    }
}

/// The calls of a service by AWS JSON 1.0 or 1.1.
#[derive(Clone, Copy)]
pub struct AwsJson<'s> {
    pub version: AwsJsonVersion,
    /// The service, of which the shape's name stands in the target.
    pub service: ShapeId<'s>,
    /// Its errors are told as of the query protocol (Smithy, awsQueryCompatible trait).
    pub is_query_compatible: bool,
}

impl AwsJson<'_> {
    ghost use Rattle.smithy_binding.specs.Refusing.{Answers};
    ghost use Rattle.smithy_aws.specs.Requests.{called};
    ghost use Rattle.smithy_aws.specs.views.Calls.{call_of, input_followed, input_posted, AnswersAwsJson};

    /// The request of an input of an operation: a `POST` to the endpoint, or to `/` where that is empty, of the JSON of the whole
    /// input, by the members' own names and without null members at any depth (Smithy, AWS JSON protocols). The schema may be any,
    /// and its traits of HTTP are not looked at. Behind the default headers, which are added as `omit` asks, stand `x-amz-target`
    /// with the names of both shapes, and `x-amzn-query-mode` for a service that is query compatible.
    ///
    /// Refused with the first fault: `Custom` for a rule of documents that the input breaks, and for a target of the request that
    /// is longer than 65,534 bytes or not legal; then for the first value that doesn't follow its node, with its path; then
    /// `InvalidInput` where no header can have the names of the shapes. Takes memory; `OutOfMemory` where it is not there.
    pub fn request(
        &self,
        alloc: Global,
        schema: SchemaRef<'_>,
        operation: ShapeId<'_>,
        input: StructValue<'_>,
        endpoint: &str,
        omit: OmitFlags,
    ) -> Result<Request, SerdeError>
        ensures { AnswersAwsJson self.now operation.entry schema.entry input.entry endpoint.now omit result }
    {
        let present = input.present(alloc)?;
        let request = self.followed(alloc, schema, &present, endpoint, omit)?;
        self.called(alloc, operation, request)
    }

    // The request of an input, where its values follow their nodes.
    fn followed(
        &self,
        alloc: Global,
        schema: SchemaRef<'_>,
        input: &StructValue<'_>,
        endpoint: &str,
        omit: OmitFlags,
    ) -> Result<Request, SerdeError>
        ensures { Answers result (input_followed self.now schema.entry input.now endpoint.now omit) }
    {
        let request = self.posted(alloc, schema, input, endpoint, omit)?;
        whole_followed(alloc, schema, input, request)
    }

    // The request of an input, with the headers that the core's protocol gives.
    fn posted(
        &self,
        alloc: Global,
        schema: SchemaRef<'_>,
        input: &StructValue<'_>,
        endpoint: &str,
        omit: OmitFlags,
    ) -> Result<Request, SerdeError>
        ensures { Answers result (input_posted self.now schema.entry input.now endpoint.now omit) }
    {
        let wire = WireJson::of_whole(schema, false);
        wire_json_is_lawful(&wire);
        posted_by(alloc, wire, self.version, schema, input, endpoint, omit)
    }

    // Adds the headers of a call.
    fn called(
        &self,
        alloc: Global,
        operation: ShapeId<'_>,
        mut request: Request,
    ) -> Result<Request, SerdeError>
        ensures { Answers result (called (call_of self.now operation.entry) request) }
    {
        let service = self.service.shape_name();
        let operation = operation.shape_name();
        let target = format!(in alloc; "{service}.{operation}")?;
        let is_query_compatible = self.is_query_compatible;
        add_call_headers(
            alloc,
            request.headers_mut(),
            target.as_str(),
            is_query_compatible,
        )?;
        Ok(request)
    }
}
