// Requests pointed at endpoints, and the parts of the protocols that do so.
use crate::told::{refusal_text, request_text, same_text};
use serde_json::Value;
use smithy_binding::{HttpBindingProtocol, HttpRpcProtocol, apply_http_endpoint};
use smithy_document::JsonCodec;
use smithy_http::{Endpoint, EndpointPrefix, Headers, Request};
use smithy_ids::ShapeId;
use smithy_serde::{ClientProtocolInner, Codec, SerdeError};
use smithy_types::{Text, Words};
use std::alloc::Global;
use test_rows::{Failed, bytes_of, item_bytes, long_text_of, text_of};

/// The answer of one of these calls; none of another.
pub fn answer(alloc: Global, call: &str, given: &Value) -> Result<Option<Text>, Failed> {
    match call {
        "apply_http_endpoint" => Ok(Some(pointed(alloc, given)?)),
        "HttpBindingProtocol" => Ok(Some(binding_parts(alloc)?)),
        "HttpRpcProtocol" => Ok(Some(rpc_parts(alloc)?)),
        _ => Ok(None),
    }
}

// A call that points a request at an endpoint.
#[derive(Clone, Copy)]
enum Way {
    Call,
    Binding,
    Rpc,
}

// What each way gives: the request, or the refusal and the request, which is as it was.
fn pointed(alloc: Global, given: &Value) -> Result<Text, Failed> {
    let headers = headers_of(alloc, given.get("endpointHeaders"))?;
    let endpoint = Endpoint::new(alloc, text_of(given, "url")?, headers)?;
    let prefix = match given.get("prefix").and_then(Value::as_str) {
        Some(prefix) => Some(EndpointPrefix::new(alloc, prefix).map_err(|_| Failed)?),
        None => None,
    };
    let mut answers = Words::new(alloc);
    for way in [Way::Call, Way::Binding, Way::Rpc] {
        answers.push(pointed_by(alloc, given, way, &endpoint, prefix.as_ref())?.as_str())?;
    }
    same_text(alloc, answers.as_slice())
}

fn pointed_by(
    alloc: Global,
    given: &Value,
    way: Way,
    endpoint: &Endpoint,
    prefix: Option<&EndpointPrefix>,
) -> Result<Text, Failed> {
    let mut request = request_of(alloc, given)?;
    let outcome = point(alloc, way, &mut request, endpoint, prefix);
    let told = request_text(alloc, &request)?;
    match outcome {
        Ok(()) => Ok(told),
        Err(refusal) => {
            let mut text = refusal_text(alloc, &refusal)?;
            text.push_str("\n")?;
            text.push_str(told.as_str())?;
            Ok(text)
        }
    }
}

fn point(
    alloc: Global,
    way: Way,
    request: &mut Request,
    endpoint: &Endpoint,
    prefix: Option<&EndpointPrefix>,
) -> Result<(), SerdeError> {
    match way {
        Way::Call => apply_http_endpoint(alloc, request, endpoint, prefix),
        Way::Binding => {
            let protocol = HttpBindingProtocol::rest_json(JsonCodec);
            update(alloc, &protocol, request, endpoint, prefix)
        }
        Way::Rpc => {
            let protocol = HttpRpcProtocol::aws_json(JsonCodec);
            update(alloc, &protocol, request, endpoint, prefix)
        }
    }
}

fn update<P: ClientProtocolInner>(
    alloc: Global,
    protocol: &P,
    request: &mut P::Request,
    endpoint: &P::Endpoint,
    prefix: Option<&P::Prefix>,
) -> Result<(), SerdeError> {
    protocol.update_endpoint(alloc, request, endpoint, prefix)
}

// The request to `target` with `headers` and `body`.
fn request_of(alloc: Global, given: &Value) -> Result<Request, Failed> {
    let mut request = Request::new(alloc, bytes_of(alloc, given, "body")?)?;
    let target = long_text_of(alloc, given, "target")?;
    if request.set_uri(target.as_str()).is_err() {
        return Err(Failed);
    }
    *request.headers_mut() = headers_of(alloc, given.get("headers"))?;
    Ok(request)
}

// The headers of pairs.
fn headers_of(alloc: Global, pairs: Option<&Value>) -> Result<Headers, Failed> {
    let mut headers = Headers::new(alloc);
    if let Some(pairs) = pairs.and_then(Value::as_array) {
        for pair in pairs {
            append(alloc, &mut headers, pair)?;
        }
    }
    Ok(headers)
}

fn append(alloc: Global, headers: &mut Headers, pair: &Value) -> Result<(), Failed> {
    let pair = pair.as_array().ok_or(Failed)?;
    let name = pair.first().and_then(Value::as_str).ok_or(Failed)?;
    let value = item_bytes(alloc, pair.get(1).ok_or(Failed)?)?;
    headers.append(name, value.as_slice()).map_err(|_| Failed)
}

// The name and the content type of the protocol of REST and of one of one's own, and whether their codecs write.
fn binding_parts(alloc: Global) -> Result<Text, Failed> {
    let rest = HttpBindingProtocol::rest_json(JsonCodec).with_codec(JsonCodec);
    let id = ShapeId::from_parts("ex#own", "ex", "own");
    let own = HttpBindingProtocol::new(id, JsonCodec, "text/json");
    let mut text = Text::from_str(alloc, rest.protocol_id().as_str())?;
    push_part(&mut text, rest.content_type())?;
    push_part(&mut text, codec_word(alloc, rest.codec()))?;
    push_part(&mut text, own.protocol_id().as_str())?;
    push_part(&mut text, own.content_type())?;
    push_part(&mut text, codec_word(alloc, own.codec()))?;
    Ok(text)
}

// The same of the protocol that posts whole inputs.
fn rpc_parts(alloc: Global) -> Result<Text, Failed> {
    let aws = HttpRpcProtocol::aws_json(JsonCodec).with_codec(JsonCodec);
    let id = ShapeId::from_parts("ex#own", "ex", "own");
    let own = HttpRpcProtocol::new(id, JsonCodec, "text/json");
    let mut text = Text::from_str(alloc, aws.protocol_id().as_str())?;
    push_part(&mut text, aws.content_type())?;
    push_part(&mut text, codec_word(alloc, aws.codec()))?;
    push_part(&mut text, own.protocol_id().as_str())?;
    push_part(&mut text, own.content_type())?;
    push_part(&mut text, codec_word(alloc, own.codec()))?;
    Ok(text)
}

fn push_part(text: &mut Text, part: &str) -> Result<(), Failed> {
    text.push_str(", ")?;
    text.push_str(part)?;
    Ok(())
}

fn codec_word<C: Codec>(alloc: Global, codec: &C) -> &'static str {
    if codec.create_serializer(alloc).is_ok() {
        "a codec"
    } else {
        "no codec"
    }
}
