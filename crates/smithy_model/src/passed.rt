// The traits of a member, with those that its target passes on.
ghost use Rattle.std.specs.Prelude.{◌≡◌, map, option_map};
ghost use Rattle.std.specs.Option.{option_or};
ghost use Rattle.smithy_schema.specs.DescribedTraits.{text_of};
ghost use Rattle.smithy_model.specs.Nodes as defined;
ghost use Rattle.smithy_model.specs.views.ModelView.{member_view, traits_view};
ghost use Rattle.smithy_model.specs.views.SpotView.{spot_view};
ghost use Rattle.smithy_model.specs.views.NodeView.{spots_of, traits_passed};

use crate::shape::{Member, Shape, ShapeTraits};
use crate::spots::{Spot, SpotMap};
use smithy_ids::{HttpTrait, ShapeType, TimestampFormat, XmlNamespaceTrait};
use smithy_schema::Traits;

/// The spot of the shape of this name. Takes no memory.
pub fn spot_named<'v, 't, 's>(spots: &SpotMap<'v, 't, 's>, name: &str) -> Option<Spot<'v, 't, 's>>
    ensures { option_map spot_view result ≡ defined.spot_named (spots_of spots.now) name.now }
{
    let position = *spots.positions.get(name)?;
    match spots.spots.as_slice().get(position) {
        Some(spot) => Some(*spot),
        None => None,
    }
}

#[inline(always)]
fn copied_http<'t>(http: &Option<HttpTrait<'t>>) -> Option<HttpTrait<'t>>
    ensures { result ≡ http.now }
{
    match http {
        Some(http) => Some(HttpTrait::new(http.method(), http.uri(), Some(http.code()))),
        None => None,
    }
}

#[inline(always)]
fn copied_namespace<'t>(namespace: &Option<XmlNamespaceTrait<'t>>) -> Option<XmlNamespaceTrait<'t>>
    ensures { result ≡ namespace.now }
{
    match namespace {
        Some(namespace) => Some(XmlNamespaceTrait::new(namespace.uri(), namespace.prefix())),
        None => None,
    }
}

/// The same traits. Takes no memory.
#[inline(always)]
pub fn copied<'v, 't>(traits: &ShapeTraits<'v, 't>) -> ShapeTraits<'v, 't>
    ensures { traits_view result ≡ traits_view traits.now }
{
    let plain = &traits.plain;
    ShapeTraits {
        given: traits.given,
        plain: Traits {
            http: copied_http(&plain.http),
            http_header: plain.http_header,
            http_prefix_headers: plain.http_prefix_headers,
            http_query: plain.http_query,
            http_query_params: plain.http_query_params,
            http_label: plain.http_label,
            http_payload: plain.http_payload,
            http_response_code: plain.http_response_code,
            media_type: plain.media_type,
            timestamp_format: plain.timestamp_format,
            streaming: plain.streaming,
            json_name: plain.json_name,
            xml_name: plain.xml_name,
            xml_namespace: copied_namespace(&plain.xml_namespace),
            xml_attribute: plain.xml_attribute,
            xml_flattened: plain.xml_flattened,
            xml_unwrapped_output: plain.xml_unwrapped_output,
            sensitive: plain.sensitive,
            host_label: plain.host_label,
            event_header: plain.event_header,
            event_payload: plain.event_payload,
        },
    }
}

#[inline(always)]
fn first_format(
    first: Option<TimestampFormat>,
    second: Option<TimestampFormat>,
) -> Option<TimestampFormat>
    ensures { result ≡ option_or first second }
{
    match first {
        Some(format) => Some(format),
        None => second,
    }
}

#[inline(always)]
fn first_text<'a>(first: Option<&'a str>, second: Option<&'a str>) -> Option<&'a str>
    ensures { text_of result ≡ option_or (text_of first.entry) (text_of second.entry) }
{
    match first {
        Some(text) => Some(text),
        None => second,
    }
}

// The format of an element of this kind, where it is a timestamp.
fn element_format(
    kind: ShapeType,
    element: &ShapeTraits<'_, '_>,
    target: &ShapeTraits<'_, '_>,
) -> Option<TimestampFormat>
    ensures { result ≡ defined.element_format kind (traits_view element.now) (traits_view target.now) }
{
    match kind {
        ShapeType::Timestamp => first_format(
            element.plain.timestamp_format,
            target.plain.timestamp_format,
        ),
        _ => None,
    }
}

fn first_format_of(
    spots: &SpotMap<'_, '_, '_>,
    members: &[Member<'_, '_>],
) -> Option<TimestampFormat>
    ensures { result
        ≡ defined.elements_format (spots_of spots.now) ShapeType.List (map member_view members.now) }
{
    let [element, ..] = members else {
        return None;
    };
    let spot = spot_named(spots, element.target)?;
    element_format(spot.shape.kind, &element.traits, &spot.shape.traits)
}

// The format of the elements of a list, where they are timestamps.
fn elements_format(
    spots: &SpotMap<'_, '_, '_>,
    kind: ShapeType,
    members: &[Member<'_, '_>],
) -> Option<TimestampFormat>
    ensures { result ≡ defined.elements_format (spots_of spots.now) kind (map member_view members.now) }
{
    match kind {
        ShapeType::List => first_format_of(spots, members),
        _ => None,
    }
}

/// The traits of a member with this target: its own, and those that the target passes on. Takes no memory.
pub fn passed_traits<'v, 't>(
    spots: &SpotMap<'v, 't, '_>,
    own: &ShapeTraits<'v, 't>,
    target: &Shape<'v, 't>,
) -> ShapeTraits<'v, 't>
    ensures { traits_view result ≡ traits_passed spots.now own.now target.now }
{
    let passed = &target.traits.plain;
    let elements = elements_format(spots, target.kind, target.members.as_slice());
    let format = first_format(own.plain.timestamp_format, passed.timestamp_format);
    let ShapeTraits { plain, given } = copied(own);
    ShapeTraits {
        given,
        plain: Traits {
            timestamp_format: first_format(format, elements),
            media_type: first_text(plain.media_type, passed.media_type),
            streaming: plain.streaming || passed.streaming,
            sensitive: plain.sensitive || passed.sensitive,
            ..plain
        },
    }
}
