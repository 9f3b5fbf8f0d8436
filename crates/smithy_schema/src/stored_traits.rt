// The traits of a node as a table keeps them: with texts of their own.
ghost use Rattle.std.specs.Prelude.{◌≡◌, false, IfOk, IsTrue, option_map};
ghost use Rattle.smithy_schema.specs.views.StoredTraits.{http_stored, namespace_stored, all_stored, are_both, few_held, has_utf8_held, held_in, held_stored, holds_more, traits_stored, ShowsAll};
ghost use Rattle.smithy_schema.specs.views.DescribedTraits.{text_of, traits_described, traits_with};
ghost use Rattle.smithy_schema.specs.views.MarksOf.{marks_of};
ghost use Rattle.smithy_schema.specs.WellMade.{has_utf8, has_utf8_traits};

use crate::copies::copied_text;
use crate::parts::Marks;
use crate::pieces::Pieces;
use crate::stored_http::StoredHttp;
use crate::trait_map::TraitMap;
use crate::traits::Traits;
use smithy_ids::{HttpTrait, TimestampFormat, XmlNamespaceTrait};
use smithy_types::{OutOfMemory, Text};
use std::alloc::Global;

#[derive(Debug, Drop)]
pub(crate) struct StoredNamespace {
    pub(crate) uri: Text,
    pub(crate) prefix: Option<Text>,
}

// The traits that hold a text or a value.
#[derive(Drop)]
pub(crate) struct AllHeld {
    pub(crate) http: Option<StoredHttp>,
    pub(crate) json_name: Option<Text>,
    pub(crate) xml_name: Option<Text>,
    pub(crate) xml_namespace: Option<StoredNamespace>,
    pub(crate) http_header: Option<Text>,
    pub(crate) http_prefix_headers: Option<Text>,
    pub(crate) http_query: Option<Text>,
    pub(crate) media_type: Option<Text>,
    pub(crate) others: Option<TraitMap>,
}

// The same, with no block of its own where there is none of them, or one that most bound members have alone.
#[derive(Drop)]
pub(crate) enum HeldTraits {
    Nothing,
    Header(Text),
    Query(Text),
    All(Box<AllHeld>),
}

#[derive(Drop)]
pub(crate) struct StoredTraits {
    pub(crate) marks: Marks,
    pub(crate) timestamp_format: Option<TimestampFormat>,
    pub(crate) held: HeldTraits,
}

impl StoredTraits {
    // What is held beside a header's or a query parameter's name alone.
    pub(crate) fn all(&self) -> Option<&AllHeld>
        ensures { ShowsAll (traits_stored self.now) result }
    {
        match &self.held {
            HeldTraits::Nothing => None,
            HeldTraits::Header(_) => None,
            HeldTraits::Query(_) => None,
            HeldTraits::All(all) => Some(&**all),
        }
    }

    // The name of the header.
    pub(crate) fn http_header(&self) -> Option<&str>
        ensures { option_map (λ t. t.now) result ≡ (traits_stored self.now).http_header }
    {
        match &self.held {
            HeldTraits::Nothing => None,
            HeldTraits::Header(name) => Some(name.as_str()),
            HeldTraits::Query(_) => None,
            HeldTraits::All(all) => as_str(&all.http_header),
        }
    }

    // The name of the query parameter.
    pub(crate) fn http_query(&self) -> Option<&str>
        ensures { option_map (λ t. t.now) result ≡ (traits_stored self.now).http_query }
    {
        match &self.held {
            HeldTraits::Nothing => None,
            HeldTraits::Header(_) => None,
            HeldTraits::Query(name) => Some(name.as_str()),
            HeldTraits::All(all) => as_str(&all.http_query),
        }
    }

    // The prefix of the header names.
    pub(crate) fn http_prefix_headers(&self) -> Option<&str>
        ensures { option_map (λ t. t.now) result ≡ (traits_stored self.now).http_prefix_headers }
    {
        match &self.held {
            HeldTraits::Nothing => None,
            HeldTraits::Header(_) => None,
            HeldTraits::Query(_) => None,
            HeldTraits::All(all) => as_str(&all.http_prefix_headers),
        }
    }
}

// The text, where there is one.
pub(crate) fn as_str(text: &Option<Text>) -> Option<&str>
    ensures { option_map (λ t. t.now) result ≡ text.now }
{
    match text {
        Some(text) => Some(text.as_str()),
        None => None,
    }
}

// A copy of the text, where there is one.
pub(crate) fn copied(alloc: Global, text: Option<&str>) -> Result<Option<Text>, OutOfMemory>
    ensures text { IfOk result (λ t. t ≡ option_map (λ s. s.now) text.entry) }
    ensures utf8 { IfOk result (λ t. IsTrue (has_utf8 t)) }
{
    match text {
        Some(text) => Ok(Some(copied_text(alloc, text)?)),
        None => Ok(None),
    }
}

fn copied_http(
    alloc: Global,
    http: &Option<HttpTrait<'_>>,
) -> Result<Option<StoredHttp>, OutOfMemory>
    ensures http { IfOk result (λ h. option_map http_stored h ≡ http.now) }
    ensures utf8 { IfOk result (λ h. IsTrue (has_utf8 (option_map (λ k. k.uri) h))) }
{
    match http {
        Some(http) => Ok(Some(StoredHttp {
            method: copied_text(alloc, http.method())?,
            uri: copied_text(alloc, http.uri())?,
            code: http.code(),
            parts: Pieces::of(alloc, http.uri())?,
        })),
        None => Ok(None),
    }
}

fn copied_namespace(
    alloc: Global,
    namespace: &Option<XmlNamespaceTrait<'_>>,
) -> Result<Option<StoredNamespace>, OutOfMemory>
    ensures { IfOk result (λ n. option_map namespace_stored n ≡ namespace.now) }
{
    match namespace {
        Some(namespace) => Ok(Some(StoredNamespace {
            uri: copied_text(alloc, namespace.uri())?,
            prefix: copied(alloc, namespace.prefix())?,
        })),
        None => Ok(None),
    }
}

// The traits that hold nothing.
fn marks_in(traits: &Traits<'_>) -> Marks
    ensures { result ≡ marks_of (traits_described traits.now) }
{
    Marks {
        sensitive: traits.sensitive,
        xml_attribute: traits.xml_attribute,
        xml_flattened: traits.xml_flattened,
        xml_unwrapped_output: traits.xml_unwrapped_output,
        http_label: traits.http_label,
        http_payload: traits.http_payload,
        http_query_params: traits.http_query_params,
        http_response_code: traits.http_response_code,
        streaming: traits.streaming,
        event_header: traits.event_header,
        event_payload: traits.event_payload,
        host_label: traits.host_label,
    }
}

// Whether something is held that has no place without a block: anything but one name, of a header or a query parameter.
fn holds_more(traits: &Traits<'_>, others: &Option<TraitMap>) -> bool
    ensures { result ≡ holds_more (traits_with traits.now others.now) }
{
    traits.http.is_some()
        || traits.http_prefix_headers.is_some()
        || traits.media_type.is_some()
        || traits.json_name.is_some()
        || traits.xml_name.is_some()
        || traits.xml_namespace.is_some()
        || others.is_some()
        || (traits.http_header.is_some() && traits.http_query.is_some())
}

fn copied_all(
    alloc: Global,
    traits: &Traits<'_>,
    others: Option<TraitMap>,
) -> Result<AllHeld, OutOfMemory>
    ensures held { IfOk result (λ a. all_stored a ≡ held_in (traits_with traits.now others)) }
    ensures header { IfOk result (λ a. IsTrue (has_utf8 a.http_header)) }
    ensures prefix { IfOk result (λ a. IsTrue (has_utf8 a.http_prefix_headers)) }
    ensures query { IfOk result (λ a. IsTrue (has_utf8 a.http_query)) }
    ensures uri { IfOk result (λ a. IsTrue (has_utf8 (option_map (λ k. k.uri) a.http))) }
{
    Ok(AllHeld {
        http: copied_http(alloc, &traits.http)?,
        json_name: copied(alloc, traits.json_name)?,
        xml_name: copied(alloc, traits.xml_name)?,
        xml_namespace: copied_namespace(alloc, &traits.xml_namespace)?,
        http_header: copied(alloc, traits.http_header)?,
        http_prefix_headers: copied(alloc, traits.http_prefix_headers)?,
        http_query: copied(alloc, traits.http_query)?,
        media_type: copied(alloc, traits.media_type)?,
        others,
    })
}

// One name at most, of a header or of a query parameter.
fn copied_few(
    alloc: Global,
    header: Option<&str>,
    query: Option<&str>,
) -> Result<HeldTraits, OutOfMemory>
    requires { are_both (text_of header) (text_of query) ≡ false }
    ensures held { IfOk result (λ h. held_stored h ≡ few_held (text_of header.entry) (text_of query.entry)) }
    ensures header { IfOk result (λ h. IsTrue (has_utf8 (held_stored h).http_header)) }
    ensures query { IfOk result (λ h. IsTrue (has_utf8 (held_stored h).http_query)) }
{
    match header {
        Some(name) => Ok(HeldTraits::Header(copied_text(alloc, name)?)),
        None => match query {
            Some(name) => Ok(HeldTraits::Query(copied_text(alloc, name)?)),
            None => Ok(HeldTraits::Nothing),
        },
    }
}

fn copied_held(
    alloc: Global,
    traits: &Traits<'_>,
    others: Option<TraitMap>,
) -> Result<HeldTraits, OutOfMemory>
    ensures held { IfOk result (λ h. held_stored h ≡ held_in (traits_with traits.now others)) }
    ensures utf8 { IfOk result (λ h. IsTrue (has_utf8_held (held_stored h))) }
{
    if holds_more(traits, &others) {
        let all = copied_all(alloc, traits, others)?;
        return Ok(HeldTraits::All(Box::new(alloc, all)?));
    }
    copied_few(alloc, traits.http_header, traits.http_query)
}

/// The traits of a description, with texts of their own.
pub(crate) fn copied_traits(
    alloc: Global,
    traits: &Traits<'_>,
    others: Option<TraitMap>,
) -> Result<StoredTraits, OutOfMemory>
    ensures traits { IfOk result (λ t. traits_stored t ≡ traits_with traits.now others) }
    ensures utf8 { IfOk result (λ t. IsTrue (has_utf8_traits (traits_stored t))) }
{
    Ok(StoredTraits {
        marks: marks_in(traits),
        timestamp_format: traits.timestamp_format,
        held: copied_held(alloc, traits, others)?,
    })
}
