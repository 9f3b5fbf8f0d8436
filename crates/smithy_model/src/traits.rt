// The traits of shapes and members.
ghost use Rattle.std.specs.Prelude.{◌≡◌, codes, option_map, IfSome};
ghost use Rattle.std.specs.List.{list_all};
ghost use Rattle.smithy_json.specs.views.JsonView.{view, entries, entry_of};
ghost use Rattle.serde_json.specs.Find.{get};
ghost use Rattle.smithy_schema.specs.Nodes.{no_traits as without_traits};
ghost use Rattle.smithy_schema.specs.DescribedTraits.{traits_described};
ghost use Rattle.smithy_model.specs.Traits.{is_text_trait, is_namespace, time_format, time_format_in, has_form, is_fit_trait, namespace_in, is_named_trait, fit_among, code_at, http_in};
ghost use Rattle.smithy_model.specs.GivenTraits.{fit_traits, traits_of};
ghost use Rattle.smithy_model.specs.views.ModelView.{traits_view, AddsTrait};

use crate::json_value::{members_of, text_of};
use crate::name::is_full_name;
use crate::shape::ShapeTraits;
use smithy_ids::{HttpTrait, TimestampFormat, XmlNamespaceTrait};
use smithy_json::JsonValue;
use smithy_schema::Traits;

pub fn is_text_trait(id: &str) -> bool
    ensures { result ≡ is_text_trait id.now }
{
    id == "smithy.api#jsonName"
        || id == "smithy.api#xmlName"
        || id == "smithy.api#mediaType"
        || id == "smithy.api#httpQuery"
        || id == "smithy.api#httpPrefixHeaders"
        || id == "smithy.api#httpHeader"
}

fn is_namespace(value: &JsonValue<'_>) -> bool
    ensures { result ≡ is_namespace (view value.now) }
{
    let has_prefix = match value.get("prefix") {
        Some(prefix) => prefix.as_str().is_some(),
        None => true,
    };
    text_of(value, "uri").is_some() && has_prefix
}

fn time_format(text: &str) -> Option<TimestampFormat>
    ensures { result ≡ time_format text.now }
{
    if text == "date-time" {
        return Some(TimestampFormat::DateTime);
    }
    if text == "http-date" {
        return Some(TimestampFormat::HttpDate);
    }
    if text == "epoch-seconds" {
        return Some(TimestampFormat::EpochSeconds);
    }
    None
}

#[inline(always)]
fn time_format_of(value: &JsonValue<'_>) -> Option<TimestampFormat>
    ensures { result ≡ time_format_in (view value.now) }
{
    time_format(value.as_str()?)
}

/// Whether a trait's value has the form that the trait asks. Takes no memory.
pub fn has_form(id: &str, value: &JsonValue<'_>) -> bool
    ensures { result ≡ has_form id.now (view value.now) }
{
    if is_text_trait(id) {
        return value.as_str().is_some();
    }
    if id == "smithy.api#xmlNamespace" {
        return is_namespace(value);
    }
    if id == "smithy.api#timestampFormat" {
        return time_format_of(value).is_some();
    }
    true
}

// Whether an entry of traits has a full name, as each trait with a field of its own has, and a value of its trait's form.
#[inline(always)]
fn is_fit(given: &(&str, JsonValue<'_>), is_named: bool) -> bool
    requires { is_named ≡ is_named_trait given.now.0.now }
    ensures { result ≡ is_fit_trait (entry_of given.now) }
{
    (is_named || is_full_name(given.0)) && has_form(given.0, &given.1)
}

/// No traits.
#[inline(always)]
pub fn no_traits<'v, 't>() -> ShapeTraits<'v, 't>
    ensures { traits_view result ≡ without_traits }
{
    ShapeTraits {
        plain: Traits::NONE,
        given: None,
    }
}

fn namespace_of<'t>(value: &JsonValue<'t>) -> Option<XmlNamespaceTrait<'t>>
    ensures { result ≡ namespace_in (view value.now) }
{
    let uri = text_of(value, "uri")?;
    Some(XmlNamespaceTrait::new(uri, text_of(value, "prefix")))
}

// Adds a trait where it has a field of its own, and tells whether it has one.
#[tactic(auto, unfolding(crate::specs::Traits::with_trait, crate::specs::Traits::is_named_trait))]
fn add_trait<'t>(traits: &mut Traits<'t>, id: &str, value: &JsonValue<'t>) -> bool
    ensures added { AddsTrait id.now value.now traits.old traits.new }
    ensures named { result ≡ is_named_trait id.now }
{
    match id {
        "smithy.api#httpHeader" => traits.http_header = value.as_str(),
        "smithy.api#httpPrefixHeaders" => traits.http_prefix_headers = value.as_str(),
        "smithy.api#httpQuery" => traits.http_query = value.as_str(),
        "smithy.api#httpQueryParams" => traits.http_query_params = true,
        "smithy.api#httpLabel" => traits.http_label = true,
        "smithy.api#httpPayload" => traits.http_payload = true,
        "smithy.api#httpResponseCode" => traits.http_response_code = true,
        "smithy.api#mediaType" => traits.media_type = value.as_str(),
        "smithy.api#timestampFormat" => traits.timestamp_format = time_format_of(value),
        "smithy.api#streaming" => traits.streaming = true,
        "smithy.api#jsonName" => traits.json_name = value.as_str(),
        "smithy.api#xmlName" => traits.xml_name = value.as_str(),
        "smithy.api#xmlNamespace" => traits.xml_namespace = namespace_of(value),
        "smithy.api#xmlAttribute" => traits.xml_attribute = true,
        "smithy.api#xmlFlattened" => traits.xml_flattened = true,
        "smithy.api#sensitive" => traits.sensitive = true,
        "smithy.api#hostLabel" => traits.host_label = true,
        "smithy.api#eventHeader" => traits.event_header = true,
        "smithy.api#eventPayload" => traits.event_payload = true,
        _ => return false,
    }
    true
}

/// Whether a trait has a field of its own: whether it is added to none, whatever its value. Takes no memory.
pub fn is_named_trait(id: &str) -> bool
    ensures { result ≡ is_named_trait id.now }
{
    let mut traits = Traits::NONE;
    add_trait(&mut traits, id, &JsonValue::Null)
}

// The traits with a field of their own among an object's members, and whether all have one. None where one isn't fit.
fn plain_traits<'t>(members: &[(&'t str, JsonValue<'t>)]) -> Option<(Traits<'t>, bool)>
    ensures plain { option_map (λ p. traits_described p.0) result ≡ fit_among (entries members.now) }
    ensures named { IfSome result (λ p. p.1 ≡ list_all (λ e. is_named_trait e.0) (entries members.now)) }
{
    let mut traits = Traits::NONE;
    let mut are_named = true;
    for member in members {
        let is_named = add_trait(&mut traits, member.0, &member.1);
        if !is_fit(member, is_named) {
            return None;
        }
        are_named = is_named && are_named;
    }
    Some((traits, are_named))
}

/// The traits in an object of full names, each with a value of its trait's form. None where it is no such object.
/// Takes no memory.
pub fn fit_traits<'v, 't>(traits: &'v JsonValue<'t>) -> Option<ShapeTraits<'v, 't>>
    ensures { option_map traits_view result ≡ fit_traits (view traits.now) }
{
    let (plain, are_named) = plain_traits(members_of(traits)?)?;
    let given = if are_named { None } else { Some(traits) };
    Some(ShapeTraits { plain, given })
}

/// The traits of a shape or a member (Smithy, JSON AST, applying traits). None where one has no full name, or not its form.
/// Takes no memory.
pub fn traits_of<'v, 't>(shape: &'v JsonValue<'t>) -> Option<ShapeTraits<'v, 't>>
    ensures { option_map traits_view result ≡ traits_of (view shape.now) }
{
    match shape.get("traits") {
        Some(traits) => fit_traits(traits),
        None => Some(no_traits()),
    }
}

/// The code of `@http`, 200 where there is none. None where it hasn't its form. Takes no memory.
pub fn code_of(value: &JsonValue<'_>) -> Option<u16>
    ensures { result ≡ code_at (get (codes "code") (view value.now)) }
{
    match value.get("code") {
        None => Some(200),
        Some(code) => { u16::try_from(code.as_u64()?).ok() }
    }
}

/// Method, URI and code of `@http` (Smithy, HTTP bindings, http trait), 200 where no code is given. Takes no memory.
pub fn read_http<'t>(value: &JsonValue<'t>) -> Option<HttpTrait<'t>>
    ensures { result ≡ http_in (view value.now) }
{
    let method = text_of(value, "method")?;
    let uri = text_of(value, "uri")?;
    let code = code_of(value)?;
    Some(HttpTrait::new(method, uri, Some(code)))
}
