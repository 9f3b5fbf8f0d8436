// Responses.
ghost use Rattle.std.specs.Prelude.{◌≡◌, ◌≤◌, [], unwrap_or};
ghost use Rattle.std.specs.Option.{option_copied};

use crate::headers::Headers;
use smithy_types::Blob;
use std::marker::Model;

/// A response, seen as its status, headers and body (RFC 7230, section 3).
#[derive(Drop)]
pub struct Response {
    status: u16,
    headers: Headers,
    body: Option<Blob>,
}

impl Model for Response {
    ghost use Rattle.std.specs.Prelude.{◌≤◌};
    ghost use Rattle.smithy_http.specs.Responses as responses;

    ghost Value = { responses.Response };

    ghost view = { λ r. record { status = r.status; headers = r.headers; body = r.body } };

    ghost invariant = { λ r. (100 ≤ r.status) × (r.status ≤ 999) };
}

impl Response {
    /// The response of this status, three digits (RFC 7231, section 6), headers and body; a body that is none is not
    /// buffered. Takes no memory.
    pub fn new(status: u16, headers: Headers, body: Option<Blob>) -> Response
        requires { (100 ≤ status) × (status ≤ 999) }
        ensures { result ≡ record { status = status; headers = headers; body = body } }
    {
        Response {
            status,
            headers,
            body,
        }
    }

    /// The status, three digits (RFC 7231, section 6).
    pub fn status(&self) -> u16
        ensures value { result ≡ self.now.status }
        ensures digits { (100 ≤ result) × (result ≤ 999) }
    {
        self.status
    }

    /// The headers.
    pub fn headers(&self) -> &Headers
        ensures { result.now ≡ self.now.headers }
    {
        &self.headers
    }

    /// The body; none where it is not buffered.
    pub fn body(&self) -> Option<&Blob>
        ensures { option_copied result ≡ self.now.body }
    {
        self.body.as_ref()
    }

    /// The bytes of the body; none where it is not buffered.
    pub fn body_bytes(&self) -> &[u8]
        ensures { result.now ≡ unwrap_or self.now.body [] }
    {
        match &self.body {
            Some(bytes) => bytes.as_slice(),
            None => &[],
        }
    }
}
