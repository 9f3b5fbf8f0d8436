// What reads the responses of a client.
ghost use Rattle.std.specs.Prelude.{◌≡◌, IfOk, IfErr};
ghost use Rattle.smithy_response.specs.Words.{Response, NonUtf8HeaderHandling, Schema, schema_of, OutOfMemory};
ghost use Rattle.smithy_response.specs.ProtocolReaders.{ReadsByDefault};

use smithy_http::{NonUtf8HeaderHandling, Response};
use smithy_ids::ShapeType;
use smithy_schema::SchemaRef;
use smithy_serde::{SerdeError, ShapeDeserializer};
use std::alloc::Global;

/// Gives readers of responses. Its meaning is which readers it gives of the response to a successful call, by the output's
/// schema, and which of a modelled error, whose schema is not known before it is read.
pub trait ResponseProtocol {
    type Reader: ShapeDeserializer + Drop;

    /// Of a success: the response, the output's schema, the policy, a reader that it may give.
    ghost reads: { Self → Response → Schema → NonUtf8HeaderHandling → Self.Reader → Type 0 };

    /// Of a modelled error: the response, the policy, a reader that it may give.
    ghost reads_error: { Self → Response → NonUtf8HeaderHandling → Self.Reader → Type 0 };

    /// The reader of a success. It is refused only for memory.
    fn deserialize_response(
        &self,
        alloc: Global,
        response: &Response,
        schema: SchemaRef<'_>,
        policy: NonUtf8HeaderHandling,
    ) -> Result<Self::Reader, SerdeError>
        ensures reader { IfOk result (reads self.now response.now (schema_of schema.entry) policy) }
        ensures memory { IfErr result (λ e. e ≡ OutOfMemory) };

    /// The reader of a modelled error: unless it is implemented, that of a success by the prelude's document node. It is
    /// refused only for memory.
    fn deserialize_error_response(
        &self,
        alloc: Global,
        response: &Response,
        policy: NonUtf8HeaderHandling,
    ) -> Result<Self::Reader, SerdeError>
        ensures reader { IfOk result (reads_error self.now response.now policy) }
        ensures memory { IfErr result (λ e. e ≡ OutOfMemory) }
    {
        let schema = SchemaRef::prelude(ShapeType::Document);
        self.deserialize_response(alloc, response, schema, policy)
    }

    /// A reader by the document node is one of a modelled error too, since a protocol may leave that call as it is.
    ghost by_default: { ReadsByDefault reads reads_error };
}
