// The traits of a node. A getter gives the trait by value, None where the node doesn't have it, and takes no memory.
ghost use Rattle.std.specs.Prelude.{◌≡◌, option_map};
ghost use Rattle.std.specs.Option.{is_some};
ghost use Rattle.smithy_schema.specs.Nodes.{is_response_bound};
ghost use Rattle.smithy_schema.specs.views.Pieces.{pieces_of};
ghost use Rattle.smithy_schema.specs.views.References.{schema_of};
ghost use Rattle.smithy_schema.specs.views.Stored.{ShowsTraits};
ghost use Rattle.smithy_schema.specs.views.StoredTraits.{ShowsAll};
ghost use Rattle.smithy_schema.specs.views.MarksOf.{marks_of};

use crate::parts::{Marks, NO_MARKS};
use crate::pieces::Pieces;
use crate::routing::is_bound_by;
use crate::schema_ref::SchemaRef;
use crate::stored::StoredDetails;
use crate::stored_traits::{AllHeld, StoredTraits, as_str};
use crate::trait_map::TraitMap;
use smithy_ids::{
    EventHeaderTrait, EventPayloadTrait, HostLabelTrait, HttpHeaderTrait, HttpLabelTrait,
    HttpPayloadTrait, HttpPrefixHeadersTrait, HttpQueryParamsTrait, HttpQueryTrait,
    HttpResponseCodeTrait, HttpTrait, JsonNameTrait, MediaTypeTrait, SensitiveTrait,
    TimestampFormatTrait, XmlNameTrait, XmlNamespaceTrait,
};

impl<'t> SchemaRef<'t> {
    // The traits as the table keeps them, None where the node has a time format at most.
    pub(crate) fn traits_kept(&self) -> Option<&'t StoredTraits>
        ensures { ShowsTraits (schema_of self.now).node result }
    {
        match self.details() {
            Some(details) => Some(&details.traits),
            None => None,
        }
    }

    // What is held beside a header's or a query parameter's name alone.
    fn held(&self) -> Option<&'t AllHeld>
        ensures { ShowsAll (schema_of self.now).node.traits result }
    {
        self.traits_kept()?.all()
    }

    /// The further traits, by their names: None where no map of them was given.
    pub fn traits(&self) -> Option<&'t TraitMap>
        ensures { option_map (λ m. m.now) result ≡ (schema_of self.now).node.traits.others }
    {
        self.held()?.others.as_ref()
    }

    fn marks(&self) -> Marks
        ensures { result ≡ marks_of (schema_of self.now).node.traits }
    {
        match self.traits_kept() {
            Some(traits) => traits.marks,
            None => NO_MARKS,
        }
    }

    /// The name in JSON (Smithy, jsonName trait).
    pub fn json_name(&self) -> Option<JsonNameTrait<'t>>
        ensures { result ≡ (schema_of self.now).node.traits.json_name }
    {
        let text = as_str(&self.held()?.json_name)?;
        Some(JsonNameTrait::new(text))
    }

    /// The name in XML (Smithy, XML bindings, xmlName trait).
    pub fn xml_name(&self) -> Option<XmlNameTrait<'t>>
        ensures { result ≡ (schema_of self.now).node.traits.xml_name }
    {
        let text = as_str(&self.held()?.xml_name)?;
        Some(XmlNameTrait::new(text))
    }

    /// The header that the member is bound to (Smithy, HTTP protocol bindings, httpHeader trait).
    pub fn http_header(&self) -> Option<HttpHeaderTrait<'t>>
        ensures { result ≡ (schema_of self.now).node.traits.http_header }
    {
        let text = self.traits_kept()?.http_header()?;
        Some(HttpHeaderTrait::new(text))
    }

    /// The query parameter that the member is bound to (Smithy, HTTP protocol bindings, httpQuery trait).
    pub fn http_query(&self) -> Option<HttpQueryTrait<'t>>
        ensures { result ≡ (schema_of self.now).node.traits.http_query }
    {
        let text = self.traits_kept()?.http_query()?;
        Some(HttpQueryTrait::new(text))
    }

    /// The prefix of the header names that the member is bound to (Smithy, HTTP protocol bindings, httpPrefixHeaders trait).
    pub fn http_prefix_headers(&self) -> Option<HttpPrefixHeadersTrait<'t>>
        ensures { result ≡ (schema_of self.now).node.traits.http_prefix_headers }
    {
        let text = self.traits_kept()?.http_prefix_headers()?;
        Some(HttpPrefixHeadersTrait::new(text))
    }

    /// The media type of the content (Smithy, mediaType trait).
    pub fn media_type(&self) -> Option<MediaTypeTrait<'t>>
        ensures { result ≡ (schema_of self.now).node.traits.media_type }
    {
        let text = as_str(&self.held()?.media_type)?;
        Some(MediaTypeTrait::new(text))
    }

    /// The format of timestamps (Smithy, timestampFormat trait).
    pub fn timestamp_format(&self) -> Option<TimestampFormatTrait>
        ensures { result ≡ (schema_of self.now).node.traits.timestamp_format }
    {
        let format = match &self.stored()?.details {
            StoredDetails::Outline(format) => (*format)?,
            StoredDetails::Full(details) => details.traits.timestamp_format?,
        };
        Some(TimestampFormatTrait::new(format))
    }

    /// The namespace in XML (Smithy, XML bindings, xmlNamespace trait).
    pub fn xml_namespace(&self) -> Option<XmlNamespaceTrait<'t>>
        ensures { result ≡ (schema_of self.now).node.traits.xml_namespace }
    {
        match &self.held()?.xml_namespace {
            Some(kept) => Some(XmlNamespaceTrait::new(kept.uri.as_str(), as_str(&kept.prefix))),
            None => None,
        }
    }

    /// Method, URI template and status (Smithy, HTTP protocol bindings, http trait).
    pub fn http(&self) -> Option<HttpTrait<'t>>
        ensures { result ≡ (schema_of self.now).node.traits.http }
    {
        match &self.held()?.http {
            Some(kept) => Some(HttpTrait::new(
                kept.method.as_str(),
                kept.uri.as_str(),
                Some(kept.code),
            )),
            None => None,
        }
    }

    /// The URI template of `http`, cut into its pieces: None exactly without that trait. Takes no memory.
    pub fn template_pieces(&self) -> Option<&'t Pieces>
        ensures { option_map (λ p. p.now) result ≡ pieces_of (schema_of self.now) }
    {
        match &self.held()?.http {
            Some(kept) => Some(&kept.parts),
            None => None,
        }
    }

    /// The trait `sensitive`.
    pub fn sensitive(&self) -> Option<SensitiveTrait>
        ensures { is_some result ≡ (schema_of self.now).node.traits.sensitive }
    {
        if self.marks().sensitive {
            Some(SensitiveTrait)
        } else {
            None
        }
    }

    /// The trait `httpLabel`.
    pub fn http_label(&self) -> Option<HttpLabelTrait>
        ensures { is_some result ≡ (schema_of self.now).node.traits.http_label }
    {
        if self.marks().http_label {
            Some(HttpLabelTrait)
        } else {
            None
        }
    }

    /// The trait `httpPayload`.
    pub fn http_payload(&self) -> Option<HttpPayloadTrait>
        ensures { is_some result ≡ (schema_of self.now).node.traits.http_payload }
    {
        if self.marks().http_payload {
            Some(HttpPayloadTrait)
        } else {
            None
        }
    }

    /// The trait `httpQueryParams`.
    pub fn http_query_params(&self) -> Option<HttpQueryParamsTrait>
        ensures { is_some result ≡ (schema_of self.now).node.traits.http_query_params }
    {
        if self.marks().http_query_params {
            Some(HttpQueryParamsTrait)
        } else {
            None
        }
    }

    /// The trait `httpResponseCode`.
    pub fn http_response_code(&self) -> Option<HttpResponseCodeTrait>
        ensures { is_some result ≡ (schema_of self.now).node.traits.http_response_code }
    {
        if self.marks().http_response_code {
            Some(HttpResponseCodeTrait)
        } else {
            None
        }
    }

    /// The trait `eventHeader`.
    pub fn event_header(&self) -> Option<EventHeaderTrait>
        ensures { is_some result ≡ (schema_of self.now).node.traits.event_header }
    {
        if self.marks().event_header {
            Some(EventHeaderTrait)
        } else {
            None
        }
    }

    /// The trait `eventPayload`.
    pub fn event_payload(&self) -> Option<EventPayloadTrait>
        ensures { is_some result ≡ (schema_of self.now).node.traits.event_payload }
    {
        if self.marks().event_payload {
            Some(EventPayloadTrait)
        } else {
            None
        }
    }

    /// The trait `hostLabel`.
    pub fn host_label(&self) -> Option<HostLabelTrait>
        ensures { is_some result ≡ (schema_of self.now).node.traits.host_label }
    {
        if self.marks().host_label {
            Some(HostLabelTrait)
        } else {
            None
        }
    }

    /// Whether it is an attribute in XML (Smithy, XML bindings, xmlAttribute trait).
    pub fn xml_attribute(&self) -> bool
        ensures { result ≡ (schema_of self.now).node.traits.xml_attribute }
    {
        self.marks().xml_attribute
    }

    /// Whether its items stand without an element round them in XML (Smithy, XML bindings, xmlFlattened trait).
    pub fn xml_flattened(&self) -> bool
        ensures { result ≡ (schema_of self.now).node.traits.xml_flattened }
    {
        self.marks().xml_flattened
    }

    /// Whether XML writes the output without an element of its own.
    pub fn xml_unwrapped_output(&self) -> bool
        ensures { result ≡ (schema_of self.now).node.traits.xml_unwrapped_output }
    {
        self.marks().xml_unwrapped_output
    }

    /// Whether its content is streamed (Smithy, streaming trait).
    pub fn streaming(&self) -> bool
        ensures { result ≡ (schema_of self.now).node.traits.streaming }
    {
        self.marks().streaming
    }

    /// Whether a response has the member outside its body: as a header, as headers of a prefix, as the status, or as the payload.
    pub fn has_http_response_binding(&self) -> bool
        ensures { result ≡ is_response_bound (schema_of self.now) }
    {
        match self.traits_kept() {
            Some(traits) => is_bound_by(traits),
            None => false,
        }
    }
}
