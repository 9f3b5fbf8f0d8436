// Requests.
ghost use Rattle.std.specs.Prelude.{◌≡◌, ◌↔◌, ◌⊎◌, [], false, codes, IsTrue, IfOk, IfErr, OnOk, OnErr, IsErrOf};
ghost use Rattle.std.specs.Borrow.{sem};
ghost use Rattle.smithy_types.specs.Grammars.{is_token, is_legal_target};
ghost use Rattle.smithy_http.specs.Requests.{request_of};
ghost use Rattle.smithy_http.specs.views.Lends.{LendsHeaders};

use crate::error::HttpError;
use crate::headers::Headers;
use crate::method::Method;
use smithy_types::{Blob, OutOfMemory, Text, legal_target};
use std::alloc::Global;
use std::marker::Model;

/// A request, seen as its method, target, headers and body (RFC 7230, section 3).
#[derive(Drop)]
pub struct Request {
    method: Method,
    target: Text,
    headers: Headers,
    body: Blob,
}

impl Model for Request {
    ghost use Rattle.std.specs.Prelude.{IsTrue};
    ghost use Rattle.smithy_types.specs.Grammars.{is_token, is_legal_target};
    ghost use Rattle.smithy_http.specs.Requests as requests;
    ghost use Rattle.smithy_http.specs.views.Methods.{method_text};

    ghost Value = { requests.Request };

    ghost view = { λ r. record { method = method_text r.method; target = r.target; headers = r.headers; body = r.body } };

    ghost invariant = { λ r. IsTrue (is_token (method_text r.method)) × IsTrue (is_legal_target r.target) };
}

impl Request {
    /// The request `GET /` with this body and no headers. Takes memory.
    pub fn new(alloc: Global, body: Blob) -> Result<Request, OutOfMemory>
        ensures { IfOk result (λ r. r ≡ request_of (codes "GET") (codes "/") [] body) }
    {
        Ok(Request {
            method: Method::Get,
            target: Text::from_str(alloc, "/")?,
            headers: Headers::new(alloc),
            body,
        })
    }

    /// The request of this method, a token (RFC 7231, section 4.1), target, headers and body. `Target` where the target is
    /// no legal one (RFC 7230, section 5.3). Takes no memory.
    pub fn from_parts(
        method: Text,
        target: Text,
        headers: Headers,
        body: Blob,
    ) -> Result<Request, HttpError>
        requires { IsTrue (is_token method) }
        ensures ok { IfOk result (λ r. r ≡ request_of method target headers body) }
        ensures target { IsErrOf result HttpError.Target ↔ (is_legal_target target ≡ false) }
        ensures err { IfErr result (λ e. e ≡ HttpError.Target) }
    {
        if !legal_target(target.as_str()) {
            return Err(HttpError::Target);
        }
        Ok(Request {
            method: Method::Named(method),
            target,
            headers,
            body,
        })
    }

    /// `from_parts` with a method that is lent. Takes memory for one that few requests have: not for `GET`, `PUT`, `POST`,
    /// `DELETE`, `HEAD` and `PATCH`.
    #[inline(always)]
    pub fn with_method(
        alloc: Global,
        method: &str,
        target: Text,
        headers: Headers,
        body: Blob,
    ) -> Result<Request, HttpError>
        requires { IsTrue (is_token method.now) }
        ensures ok { IfOk result (λ r. r ≡ request_of method.now target headers body) }
        ensures target { IsErrOf result HttpError.Target ↔ (is_legal_target target ≡ false) }
        ensures refusals { IfErr result (λ e. (e ≡ HttpError.Target) ⊎ (e ≡ HttpError.OutOfMemory)) }
    {
        if !legal_target(target.as_str()) {
            return Err(HttpError::Target);
        }
        Ok(Request {
            method: Method::new(alloc, method)?,
            target,
            headers,
            body,
        })
    }

    /// The method, a token (RFC 7230, section 3.2.6).
    pub fn method(&self) -> &str
        ensures value { result.now ≡ self.now.method }
        ensures token { IsTrue (is_token result.now) }
    {
        self.method.as_str()
    }

    /// The target, a legal one (RFC 7230, section 5.3).
    pub fn uri(&self) -> &str
        ensures value { result.now ≡ self.now.target }
        ensures legal { IsTrue (is_legal_target result.now) }
    {
        self.target.as_str()
    }

    /// The headers.
    pub fn headers(&self) -> &Headers
        ensures { result.now ≡ self.now.headers }
    {
        &self.headers
    }

    /// The body.
    pub fn body(&self) -> &Blob
        ensures { result.now ≡ self.now.body }
    {
        &self.body
    }

    /// The headers, to be changed.
    pub fn headers_mut(&mut self) -> &mut Headers
        ensures* writes_back { sem 𝓛 (LendsHeaders self.entry result) }
        ensures value { result.now ≡ self.old.headers }
    {
        &mut self.headers
    }

    /// Sets the method, a token (RFC 7231, section 4.1). Where memory is wanted, the request is unchanged.
    pub fn set_method(&mut self, method: &str) -> Result<(), OutOfMemory>
        requires { IsTrue (is_token method.now) }
        ensures ok { OnOk result (self.new ≡ record self.old { method = method.now }) }
        ensures err { OnErr result (self.new ≡ self.old) }
    {
        self.method = Method::new(self.headers.allocator(), method)?;
        Ok(())
    }

    /// Sets the target. `Target` where it is no legal one (RFC 7230, section 5.3). After a refusal the
    /// request is unchanged. Takes memory.
    pub fn set_uri(&mut self, target: &str) -> Result<(), HttpError>
        ensures ok { OnOk result (self.new ≡ record self.old { target = target.now }) }
        ensures target { IsErrOf result HttpError.Target ↔ (is_legal_target target.now ≡ false) }
        ensures refusals { IfErr result (λ e. (e ≡ HttpError.Target) ⊎ (e ≡ HttpError.OutOfMemory)) }
        ensures err { OnErr result (self.new ≡ self.old) }
    {
        if !legal_target(target) {
            return Err(HttpError::Target);
        }
        self.target = Text::from_str(self.headers.allocator(), target)?;
        Ok(())
    }

    /// Sets the body.
    pub fn set_body(&mut self, body: Blob)
        ensures { self.new ≡ record self.old { body = body } }
    {
        self.body = body;
    }
}
