// Requests pointed at endpoints.
ghost use Rattle.std.specs.Prelude.{◌≡◌, ◌≢◌, ◌++◌, ◌∷◌, [], map, IsTrue, IfOk, OnOk, OnErr};
ghost use Rattle.smithy_binding.specs.Words.{option_copied, is_legal_target};
ghost use Rattle.smithy_binding.specs.Pointing.{IsPointed, endpoint_fault, in_lower_case, overridden, without_all};
ghost use Rattle.smithy_binding.specs.Refusing.{TellsFault};

use smithy_http::{Endpoint, EndpointPrefix, Headers, HttpError, Request, set_endpoint};
use smithy_serde::SerdeError;
use smithy_types::OutOfMemory;
use std::alloc::Global;

/// Points the request at the endpoint: its target is joined to the endpoint's address (RFC 3986, section 3), behind the
/// prefix, and the endpoint's headers stand in place of those of their names, behind the others.
///
/// `Custom` where the URL is no address, or the joined target is no legal one (RFC 7230, section 5.3). After a refusal the
/// request is unchanged. Takes memory; `OutOfMemory` where it is not there.
pub fn apply_http_endpoint(
    alloc: Global,
    request: &mut Request,
    endpoint: &Endpoint,
    prefix: Option<&EndpointPrefix>,
) -> Result<(), SerdeError>
    ensures { IsPointed request.old endpoint.now (option_copied prefix.entry) request.new result }
{
    let target = match set_endpoint(alloc, request.uri(), endpoint, prefix) {
        Ok(target) => target,
        Err(refusal) => return Err(not_applied(alloc, endpoint.url(), refusal)),
    };
    let headers = override_headers(alloc, request.headers(), endpoint.headers())?;
    set_target_and_headers(request, target.as_str(), headers)?;
    Ok(())
}

// The target was not joined to the endpoint of this URL.
fn not_applied(alloc: Global, url: &str, refusal: HttpError) -> SerdeError
    ensures { TellsFault result
        (λ f. (refusal ≢ HttpError.OutOfMemory) × (f ≡ endpoint_fault url.now refusal)) }
{
    if let HttpError::OutOfMemory = refusal {
        return SerdeError::OutOfMemory;
    }
    match format!(in alloc; "failed to apply endpoint `{url}`: {refusal}") {
        Ok(text) => SerdeError::custom(alloc, text.as_str()),
        Err(_) => SerdeError::OutOfMemory,
    }
}

// A copy of the headers, in which the others stand in place of those of their names.
fn override_headers(
    alloc: Global,
    headers: &Headers,
    others: &Headers,
) -> Result<Headers, OutOfMemory>
    ensures { IfOk result (λ r. r ≡ overridden others.now headers.now) }
{
    let mut copy = headers.copy(alloc)?;
    remove_all(&mut copy, others);
    append_all(&mut copy, others)?;
    Ok(copy)
}

fn remove_all(headers: &mut Headers, others: &Headers)
    ensures { headers.new ≡ without_all others.now headers.old }
{
    for (name, _) in others.iter_bytes() {
        headers.remove(name);
    }
}

fn append_all(headers: &mut Headers, others: &Headers) -> Result<(), OutOfMemory>
    ensures { OnOk result (headers.new ≡ headers.old ++ map in_lower_case others.now) }
{
    for (name, value) in others.iter_bytes() {
        append(headers, name, value)?;
    }
    Ok(())
}

// Adds a pair of other headers, which is refused only for memory: it was tested when it came there.
fn append(headers: &mut Headers, name: &str, value: &[u8]) -> Result<(), OutOfMemory>
    ensures { OnOk result (headers.new ≡ headers.old ++ in_lower_case (name.now, value.now) ∷ []) }
{
    match headers.append(name, value) {
        Ok(()) => Ok(()),
        Err(_) => Err(OutOfMemory),
    }
}

// Sets both, or neither.
fn set_target_and_headers(
    request: &mut Request,
    target: &str,
    headers: Headers,
) -> Result<(), OutOfMemory>
    requires { IsTrue (is_legal_target target.now) }
    ensures ok { OnOk result (request.new ≡ record request.old { target = target.now; headers = headers }) }
    ensures err { OnErr result (request.new ≡ request.old) }
{
    match request.set_uri(target) {
        Ok(()) => {}
        Err(_) => return Err(OutOfMemory),
    }
    *request.headers_mut() = headers;
    Ok(())
}
