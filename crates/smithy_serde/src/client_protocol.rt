// What makes the requests of a client.
ghost use Rattle.std.specs.Prelude.{◌≡◌, ℕ, List, Option, Result, OnErr};
ghost use Rattle.std.specs.Option.{option_copied};
ghost use Rattle.smithy_ids.specs.declared.shape_id.ShapeId.{ShapeId};
ghost use Rattle.smithy_schema.specs.Nodes.{Schema};
ghost use Rattle.smithy_schema.specs.References.{schema_of};
ghost use Rattle.smithy_serde.specs.Held.{Answer};
ghost use Rattle.smithy_serde.specs.Values.{Writes};
ghost use Rattle.smithy_serde.specs.declared.error.SerdeError.{SerdeError};
ghost use Rattle.smithy_serde.specs.declared.header_omit_settings.OmitFlags.{OmitFlags};

use crate::error::SerdeError;
use crate::header_omit_settings::OmitFlags;
use crate::serializable::SerializableStruct;
use smithy_ids::ShapeId;
use smithy_schema::SchemaRef;
use std::alloc::Global;

/// Makes the request of an input, and points it at an endpoint. Its meaning is its id, the schemas that it takes, and two
/// relations that say each answer.
pub trait ClientProtocolInner {
    type Request;

    type Endpoint;

    type Prefix;

    /// Its id.
    ghost id: { Self → ShapeId };

    /// What the schema of an input has to be.
    ghost takes: { Self → Schema → Type 0 };

    /// What it answers for an input: the input's schema and writes, the endpoint, the headers to leave out, the answer.
    ghost answers: { Self → Schema → Writes → List ℕ → OmitFlags → Result Self.Request SerdeError → Type 0 };

    /// How it points a request at an endpoint: the request before, the endpoint, the prefix, the request after, the answer.
    ghost points: { Self → Self.Request → Self.Endpoint → Option Self.Prefix → Self.Request → Answer → Type 0 };

    /// Its id. Takes no memory.
    fn protocol_id(&self) -> ShapeId<'_>
        ensures { result ≡ id self.now };

    /// The request of an input, by its schema. Condition: the schema is one that the protocol takes. The protocol says what
    /// is refused; it may take memory.
    fn serialize_request(
        &self,
        alloc: Global,
        input: &dyn SerializableStruct,
        schema: SchemaRef<'_>,
        endpoint: &str,
        omit: OmitFlags,
    ) -> Result<Self::Request, SerdeError>
        requires { takes self.now (schema_of schema) }
        ensures { answers self.now (schema_of schema.entry) (writes input.now) endpoint.now omit result };

    /// Points a request at an endpoint, whose host may get a prefix. The protocol says what is refused; after a refusal the
    /// request is unchanged. It may take memory.
    fn update_endpoint(
        &self,
        alloc: Global,
        request: &mut Self::Request,
        endpoint: &Self::Endpoint,
        prefix: Option<&Self::Prefix>,
    ) -> Result<(), SerdeError>
        ensures by { points self.now request.old endpoint.now (option_copied prefix.entry) request.new result }
        ensures unchanged { OnErr result (request.new ≡ request.old) };
}
