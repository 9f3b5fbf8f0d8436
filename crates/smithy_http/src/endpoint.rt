// Endpoints, and how the target of a request is joined to one (RFC 3986).
ghost use Rattle.std.specs.Prelude.{◌≡◌, ◌↔◌, ◌⊎◌, ◌++◌, [], Some, None, false, drop, IsTrue, IfOk, IfErr, OnOk, MatchOption, MatchResult, IsErrOf, string_bytes, unwrap_or};
ghost use Rattle.std.specs.List.{list_all};
ghost use Rattle.std.specs.Option.{option_copied};
ghost use Rattle.http_uri.specs.Uri.{Spells, SpellsNone};
ghost use Rattle.smithy_types.specs.Grammars.{is_legal_target, scheme_len, before_query};
ghost use Rattle.smithy_http.specs.Endpoints.{is_prefix_byte, is_endpoint_prefix, IsAddress, IsNoAddress, HasParts, LacksParts, SetsEndpoint, joined_target, without_last_slash, path_behind_slash, marked_query};
ghost use Rattle.smithy_http.specs.Refusals.{IsRefusedFor};
ghost use Rattle.smithy_http.specs.views.Addresses.{address_view};

use crate::error::HttpError;
use crate::headers::Headers;
use http_uri::{Uri, UriError};
use smithy_types::{OutOfMemory, Text, before_query, legal_target};
use std::alloc::Global;
use std::marker::Model;

/// What stands before the authority of an address, as `hostPrefix` of the trait `smithy.api#endpoint` has it. Seen as its
/// text.
#[derive(Drop)]
pub struct EndpointPrefix {
    prefix: Text,
}

impl Model for EndpointPrefix {
    ghost use Rattle.std.specs.Prelude.{List, ℕ, IsTrue};
    ghost use Rattle.smithy_http.specs.Endpoints.{is_endpoint_prefix};

    ghost Value = { List ℕ };

    ghost view = { λ p. p.prefix };

    ghost invariant = { λ p. IsTrue (is_endpoint_prefix p.prefix) };
}

impl EndpointPrefix {
    /// The prefix of this text. `Address` where it is empty or has another byte than ASCII letters, digits, `-` and `.`.
    /// Takes memory.
    pub fn new(alloc: Global, prefix: &str) -> Result<EndpointPrefix, HttpError>
        ensures ok { IfOk result (λ p. (p ≡ prefix.now) × IsTrue (is_endpoint_prefix prefix.now)) }
        ensures err { IfErr result (IsRefusedFor HttpError.Address (is_endpoint_prefix prefix.now ≡ false)) }
    {
        if !is_endpoint_prefix(prefix) {
            return Err(HttpError::Address);
        }
        Ok(EndpointPrefix {
            prefix: Text::from_str(alloc, prefix)?,
        })
    }

    /// The text, one or more ASCII letters, digits, `-` and `.`.
    pub fn as_str(&self) -> &str
        ensures value { result.now ≡ self.now }
        ensures prefix { IsTrue (is_endpoint_prefix result.now) }
    {
        self.prefix.as_str()
    }
}

// Whether the text may stand before the authority of an address.
fn is_endpoint_prefix(text: &str) -> bool
    ensures { result ≡ is_endpoint_prefix text.now }
{
    !text.is_empty() && are_prefix_bytes(text.as_bytes())
}

fn are_prefix_bytes(bytes: &[u8]) -> bool
    ensures { result ≡ list_all is_prefix_byte bytes.now }
{
    for b in bytes {
        if !is_prefix_byte(*b) {
            return false;
        }
    }
    true
}

// Whether host labels and the points between them have the byte.
fn is_prefix_byte(b: u8) -> bool
    ensures { result ≡ is_prefix_byte b }
{
    b.is_ascii_alphanumeric() || b == b'-' || b == b'.'
}

/// An address and the headers that go with it.
#[derive(Drop)]
pub struct Endpoint {
    url: Text,
    headers: Headers,
}

impl Model for Endpoint {
    ghost use Rattle.smithy_http.specs.Endpoints as endpoints;

    ghost Value = { endpoints.Endpoint };

    ghost view = { λ e. record { url = e.url; headers = e.headers } };
}

impl Endpoint {
    /// The endpoint of this URL, which `set_endpoint` reads, and headers. Takes memory.
    pub fn new(alloc: Global, url: &str, headers: Headers) -> Result<Endpoint, OutOfMemory>
        ensures { IfOk result (λ e. e ≡ record { url = url.now; headers = headers }) }
    {
        Ok(Endpoint {
            url: Text::from_str(alloc, url)?,
            headers,
        })
    }

    /// The URL.
    pub fn url(&self) -> &str
        ensures { result.now ≡ self.now.url }
    {
        self.url.as_str()
    }

    /// The headers.
    pub fn headers(&self) -> &Headers
        ensures { result.now ≡ self.now.headers }
    {
        &self.headers
    }
}

/// The legal target (RFC 7230, section 5.3) joined to the endpoint: the address's scheme in lower case and its authority behind the
/// prefix, its path and the target's with one slash between them, and the target's query. A query of the address is
/// dropped, and so are scheme and authority of the target.
///
/// `Address` where the endpoint's URL is no URI with a scheme and an authority (RFC 3986, section 3), then `Target` where the
/// joined target is no legal one. Takes memory; `OutOfMemory` where it is not there.
pub fn set_endpoint(
    alloc: Global,
    target: &str,
    endpoint: &Endpoint,
    prefix: Option<&EndpointPrefix>,
) -> Result<Text, HttpError>
    requires { IsTrue (is_legal_target target.now) }
    ensures { SetsEndpoint endpoint.now.url (unwrap_or (option_copied prefix.entry) []) target.now result }
{
    let uri = read_uri(alloc, endpoint.url())?;
    let Some(address) = address_of(&uri) else {
        return Err(HttpError::Address);
    };
    let joined = join(alloc, &address, prefix_text(prefix), target)?;
    if !legal_target(joined.as_str()) {
        return Err(HttpError::Target);
    }
    Ok(joined)
}

// The prefix's text, empty where there is none.
fn prefix_text<'p>(prefix: Option<&'p EndpointPrefix>) -> &'p str
    ensures { result.now ≡ unwrap_or (option_copied prefix.entry) [] }
{
    match prefix {
        Some(prefix) => prefix.as_str(),
        None => "",
    }
}

// Reads a URI.
fn read_uri(alloc: Global, url: &str) -> Result<Uri, HttpError>
    ensures { MatchResult result (Spells url.now) (IsRefusedFor HttpError.Address (SpellsNone url.now)) }
{
    match Uri::from_str(alloc, url) {
        Ok(uri) => Ok(uri),
        Err(UriError::Invalid(_)) => Err(HttpError::Address),
        Err(UriError::OutOfMemory) => Err(HttpError::OutOfMemory),
    }
}

// The parts of an address that a joined target has.
#[derive(Clone, Copy)]
struct Address<'u> {
    scheme: &'u str,
    authority: &'u str,
    path: &'u str,
}

// The address that a URI is.
fn address_of(uri: &Uri) -> Option<Address<'_>>
    ensures { MatchOption result (LacksParts uri.now) (λ a. HasParts uri.now (address_view a)) }
{
    let scheme = uri.scheme_str()?;
    let authority = uri.authority()?;
    Some(Address {
        scheme,
        authority: authority.as_str(),
        path: uri.path(),
    })
}

// Joins a target to an address.
fn join(
    alloc: Global,
    address: &Address<'_>,
    prefix: &str,
    target: &str,
) -> Result<Text, OutOfMemory>
    ensures { IfOk result (λ t. t ≡ joined_target (address_view address.now) prefix.now target.now) }
{
    let mut joined = address.scheme.to_ascii_lowercase(alloc)?;
    joined.push_str("://")?;
    joined.push_str(prefix)?;
    joined.push_str(address.authority)?;
    joined.push_str(before_last_slash(address.path))?;
    joined.push_str("/")?;
    joined.push_str(behind_first_slash(target))?;
    push_query(&mut joined, target)?;
    Ok(Text::from_string(joined))
}

// A path without one slash at its end.
fn before_last_slash(path: &str) -> &str
    ensures { result.now ≡ without_last_slash path.now }
{
    match path.strip_suffix('/') {
        Some(front) => front,
        None => path,
    }
}

// The path of a target without one slash at its start.
fn behind_first_slash(target: &str) -> &str
    ensures { result.now ≡ path_behind_slash target.now }
{
    match behind_scheme(before_query(target)).split_once('/') {
        Some((_, path)) => path,
        None => "",
    }
}

// What stands behind the scheme, or all where there is none.
fn behind_scheme(stem: &str) -> &str
    ensures { result.now ≡ drop (scheme_len stem.now) stem.now }
{
    if let Some(rest) = stem.strip_prefix("http://") {
        return rest;
    }
    if let Some(rest) = stem.strip_prefix("https://") {
        return rest;
    }
    stem
}

// Adds the query of a target with its `?`.
fn push_query(joined: &mut String, target: &str) -> Result<(), OutOfMemory>
    ensures { OnOk result (string_bytes joined.new ≡ string_bytes joined.old ++ marked_query target.now) }
{
    if let Some((_, query)) = target.split_once('?') {
        joined.push('?')?;
        joined.push_str(query)?;
    }
    Ok(())
}
