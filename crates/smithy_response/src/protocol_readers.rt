// The protocols, as what gives readers of responses.
ghost use Rattle.std.specs.Prelude.{◌≡◌, IfOk, IfErr};
ghost use Rattle.std.proofs.Common.{inr};
ghost use Rattle.smithy_response.specs.Words.{OutOfMemory};
ghost use Rattle.smithy_response.specs.ProtocolReaders.{bytes_of, BeginsOver, IsOfOutput, IsOfError, IsOfErrorOrDefault};

use crate::response_protocol::ResponseProtocol;
use crate::response_reader::{ResponseReader, http_error_deserializer, http_output_deserializer};
use smithy_binding::{HttpBindingProtocol, HttpRpcProtocol};
use smithy_http::{NonUtf8HeaderHandling, Response};
use smithy_schema::SchemaRef;
use smithy_serde::{Codec, SerdeError};
use std::alloc::Global;

// The bytes of the body, none where it is not buffered.
fn body_bytes(response: &Response) -> &[u8]
    ensures { result.now ≡ bytes_of response.now }
{
    match response.body() {
        Some(bytes) => bytes.as_slice(),
        None => &[],
    }
}

// The codec's reader over the bytes of the body.
fn body_reader<C: Codec>(
    alloc: Global,
    codec: &C,
    response: &Response,
) -> Result<C::Deserializer, SerdeError>
    ensures begins { IfOk result (BeginsOver C.Deserializer.at_hand (C.holds codec.now) response.now) }
    ensures memory { IfErr result (λ e. e ≡ OutOfMemory) }
{
    codec.create_deserializer(alloc, body_bytes(response))
}

/// The reader of the response's parts over the codec's reader of its body (Smithy, HTTP protocol bindings).
impl<C: Codec> ResponseProtocol for HttpBindingProtocol<C> {
    type Reader = ResponseReader<C::Deserializer>;

    ghost reads = { IsOfOutput C.Deserializer.at_hand C.holds };

    ghost reads_error = { IsOfErrorOrDefault C.Deserializer.at_hand C.holds };

    ghost by_default = { λ p response policy r h. inr h };

    fn deserialize_response(
        &self,
        alloc: Global,
        response: &Response,
        schema: SchemaRef<'_>,
        policy: NonUtf8HeaderHandling,
    ) -> Result<ResponseReader<C::Deserializer>, SerdeError> {
        let body = body_reader(alloc, self.codec(), response)?;
        Ok(http_output_deserializer(alloc, body, response, schema, policy)?)
    }

    fn deserialize_error_response(
        &self,
        alloc: Global,
        response: &Response,
        policy: NonUtf8HeaderHandling,
    ) -> Result<ResponseReader<C::Deserializer>, SerdeError>
        ensures reader { IfOk result (IsOfError C.Deserializer.at_hand C.holds self.now response.now policy) }
        ensures memory { IfErr result (λ e. e ≡ OutOfMemory) }
    {
        let body = body_reader(alloc, self.codec(), response)?;
        Ok(http_error_deserializer(alloc, body, response, policy)?)
    }
}

/// The codec's reader of the body. The schema and the policy are not looked at.
impl<C: Codec> ResponseProtocol for HttpRpcProtocol<C> {
    type Reader = C::Deserializer;

    ghost reads = { λ p response node policy. BeginsOver C.Deserializer.at_hand (C.holds p.codec) response };

    ghost reads_error = { λ p response policy. BeginsOver C.Deserializer.at_hand (C.holds p.codec) response };

    ghost by_default = { λ p response policy r h. h };

    fn deserialize_response(
        &self,
        alloc: Global,
        response: &Response,
        _schema: SchemaRef<'_>,
        _policy: NonUtf8HeaderHandling,
    ) -> Result<C::Deserializer, SerdeError> {
        body_reader(alloc, self.codec(), response)
    }
}
