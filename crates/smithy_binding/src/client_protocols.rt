// The protocols of this crate, as what makes the requests of a client.
ghost use Rattle.std.specs.Prelude.{IsTrue};
ghost use Rattle.smithy_binding.specs.Words.{list_of};
ghost use Rattle.smithy_binding.specs.Answer.{answer};
ghost use Rattle.smithy_binding.specs.Checked.{checked_input};
ghost use Rattle.smithy_binding.specs.Pointing.{IsPointed};
ghost use Rattle.smithy_binding.specs.Protocols.{protocol_of, AnswersCall};
ghost use Rattle.smithy_binding.specs.Refusing.{Answers};

use crate::endpoint::apply_http_endpoint;
use crate::http_binding_protocol::HttpBindingProtocol;
use crate::http_rpc_protocol::HttpRpcProtocol;
use smithy_http::{Endpoint, EndpointPrefix, Request};
use smithy_ids::ShapeId;
use smithy_schema::SchemaRef;
use smithy_serde::{ClientProtocolInner, Codec, OmitFlags, SerdeError, SerializableStruct};
use std::alloc::Global;

impl<C: Codec> ClientProtocolInner for HttpBindingProtocol<C> {
    type Request = Request;

    type Endpoint = Endpoint;

    type Prefix = EndpointPrefix;

    ghost id = { λ p. p.protocol_id };

    ghost takes = { λ p schema. IsTrue (checked_input schema) × C.lawful p.codec };

    ghost answers = { λ p schema ws endpoint omit result. Answers result
        (answer (protocol_of C.text p) schema (list_of ws) endpoint omit) };

    ghost points = { λ _ old endpoint prefix new result. IsPointed old endpoint prefix new result };

    fn protocol_id(&self) -> ShapeId<'_> {
        HttpBindingProtocol::protocol_id(self)
    }

    fn serialize_request(
        &self,
        alloc: Global,
        input: &dyn SerializableStruct,
        schema: SchemaRef<'_>,
        endpoint: &str,
        omit: OmitFlags,
    ) -> Result<Request, SerdeError> {
        HttpBindingProtocol::serialize_request(self, alloc, input, schema, endpoint, omit)
    }

    fn update_endpoint(
        &self,
        alloc: Global,
        request: &mut Request,
        endpoint: &Endpoint,
        prefix: Option<&EndpointPrefix>,
    ) -> Result<(), SerdeError> {
        apply_http_endpoint(alloc, request, endpoint, prefix)
    }
}

impl<C: Codec> ClientProtocolInner for HttpRpcProtocol<C> {
    type Request = Request;

    type Endpoint = Endpoint;

    type Prefix = EndpointPrefix;

    ghost id = { λ p. p.protocol_id };

    ghost takes = { λ p schema. C.lawful p.codec };

    ghost answers = { λ p schema ws endpoint omit result. AnswersCall C.text p ws endpoint omit result };

    ghost points = { λ _ old endpoint prefix new result. IsPointed old endpoint prefix new result };

    fn protocol_id(&self) -> ShapeId<'_> {
        HttpRpcProtocol::protocol_id(self)
    }

    fn serialize_request(
        &self,
        alloc: Global,
        input: &dyn SerializableStruct,
        schema: SchemaRef<'_>,
        endpoint: &str,
        omit: OmitFlags,
    ) -> Result<Request, SerdeError> {
        HttpRpcProtocol::serialize_request(self, alloc, input, schema, endpoint, omit)
    }

    fn update_endpoint(
        &self,
        alloc: Global,
        request: &mut Request,
        endpoint: &Endpoint,
        prefix: Option<&EndpointPrefix>,
    ) -> Result<(), SerdeError> {
        apply_http_endpoint(alloc, request, endpoint, prefix)
    }
}
