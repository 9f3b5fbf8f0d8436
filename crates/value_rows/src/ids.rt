// Calls of `smithy_ids`.
use crate::telling::{Told, told_flag};
use serde_json::Value;
use smithy_ids::*;
use smithy_types::Text;
use std::alloc::Global;
use std::cmp::Ordering;
use test_rows::{Failed, text_of};

/// What a call of `smithy_ids` answers, `None` where it is another's.
pub fn answer(alloc: Global, call: &str, given: &Value) -> Result<Option<Text>, Failed> {
    match call {
        "TRAIT_ID" => trait_names(alloc).map(Some),
        "ShapeId::parse" => parsed(alloc, given).map(Some),
        "ShapeId::from_parts" => of_parts(alloc, given).map(Some),
        "ShapeId::cmp" => compared(alloc, given).map(Some),
        "ShapeType" => kind(alloc, given).map(Some),
        "TextTrait" => text_traits(alloc, given).map(Some),
        "TimestampFormatTrait" => timestamp_trait(alloc, given).map(Some),
        "HttpTrait" => http_trait(alloc, given).map(Some),
        "XmlNamespaceTrait" => namespace(alloc, given).map(Some),
        _ => Ok(None),
    }
}

// The names of all traits, those that hold a text first, then those that hold nothing, then the others.
fn trait_names(alloc: Global) -> Result<Text, Failed> {
    let mut told = Told::new(alloc)?;
    let ids = [
        JsonNameTrait::TRAIT_ID,
        XmlNameTrait::TRAIT_ID,
        MediaTypeTrait::TRAIT_ID,
        HttpQueryTrait::TRAIT_ID,
        HttpPrefixHeadersTrait::TRAIT_ID,
        HttpHeaderTrait::TRAIT_ID,
        XmlAttributeTrait::TRAIT_ID,
        XmlFlattenedTrait::TRAIT_ID,
        HttpLabelTrait::TRAIT_ID,
        HttpPayloadTrait::TRAIT_ID,
        HttpQueryParamsTrait::TRAIT_ID,
        HttpResponseCodeTrait::TRAIT_ID,
        StreamingTrait::TRAIT_ID,
        EventHeaderTrait::TRAIT_ID,
        EventPayloadTrait::TRAIT_ID,
        SensitiveTrait::TRAIT_ID,
        HostLabelTrait::TRAIT_ID,
        XmlNamespaceTrait::TRAIT_ID,
        TimestampFormatTrait::TRAIT_ID,
    ];
    let all = &ids[..];
    for id in all {
        told.tell(id.as_str())?;
    }
    Ok(told.into_text())
}

// The parts of an identifier.
fn told_parts(alloc: Global, id: ShapeId<'_>) -> Result<Text, Failed> {
    let mut told = Told::new(alloc)?;
    told.tell_text("name", id.as_str())?;
    told.tell_text("namespace", id.namespace())?;
    told.tell_text("shape", id.shape_name())?;
    told.tell_option(id.member_name())?;
    told.tell_text("shown", format!(in alloc; "{id}")?.as_str())?;
    Ok(told.into_text())
}

fn parsed(alloc: Global, given: &Value) -> Result<Text, Failed> {
    laws::names_tell_parts();
    match ShapeId::parse(text_of(given, "name")?) {
        Some(id) => told_parts(alloc, id),
        None => Ok(Text::from_str(alloc, "None")?),
    }
}

// One of two identifiers that are made of their parts.
fn of_parts(alloc: Global, given: &Value) -> Result<Text, Failed> {
    match text_of(given, "name")? {
        "a.b#C" => told_parts(alloc, ShapeId::from_parts("a.b#C", "a.b", "C")),
        "a#B$c" => {
            let id = ShapeId::from_parts_with_member("a#B$c", "a", "B", "c");
            told_parts(alloc, id)
        }
        _ => Err(Failed),
    }
}

// How two identifiers stand to each other, and whether they are equal.
fn compared(alloc: Global, given: &Value) -> Result<Text, Failed> {
    let one = ShapeId::parse(text_of(given, "one")?).ok_or(Failed)?;
    let other = ShapeId::parse(text_of(given, "other")?).ok_or(Failed)?;
    let word = match one.cmp(&other) {
        Ordering::Less => "less",
        Ordering::Equal => "equal",
        Ordering::Greater => "greater",
    };
    let mut told = Told::new(alloc)?;
    told.tell(word)?;
    told.tell_flag("equal", one == other)?;
    Ok(told.into_text())
}

/// The names of the kinds of shapes.
const KINDS: [(&str, ShapeType); 18] = [
    ("Boolean", ShapeType::Boolean),
    ("Byte", ShapeType::Byte),
    ("Short", ShapeType::Short),
    ("Integer", ShapeType::Integer),
    ("Long", ShapeType::Long),
    ("Float", ShapeType::Float),
    ("Double", ShapeType::Double),
    ("BigInteger", ShapeType::BigInteger),
    ("BigDecimal", ShapeType::BigDecimal),
    ("String", ShapeType::String),
    ("Blob", ShapeType::Blob),
    ("Timestamp", ShapeType::Timestamp),
    ("Document", ShapeType::Document),
    ("List", ShapeType::List),
    ("Map", ShapeType::Map),
    ("Structure", ShapeType::Structure),
    ("Union", ShapeType::Union),
    ("Member", ShapeType::Member),
];

/// The kind of a name.
pub fn kind_named(name: &str) -> Result<ShapeType, Failed> {
    for (own, kind) in KINDS {
        if own == name {
            return Ok(kind);
        }
    }
    Err(Failed)
}

// What sort of kind it is.
fn kind(alloc: Global, given: &Value) -> Result<Text, Failed> {
    let kind = kind_named(text_of(given, "kind")?)?;
    let mut told = Told::new(alloc)?;
    told.tell_flag("simple", kind.is_simple())?;
    told.tell_flag("aggregate", kind.is_aggregate())?;
    told.tell_flag("member", kind.is_member())?;
    told.tell_flag("structure", kind.is_structure())?;
    told.tell_flag("structure or union", kind.is_structure_or_union())?;
    told.tell_flag("scalar", kind.is_scalar())?;
    told.tell_flag("unwritable", kind.is_unwritable())?;
    Ok(told.into_text())
}

// What each trait that holds a text gives of it.
fn text_traits(alloc: Global, given: &Value) -> Result<Text, Failed> {
    let text = text_of(given, "value")?;
    let mut told = Told::new(alloc)?;
    told.tell(JsonNameTrait::new(text).value())?;
    told.tell(XmlNameTrait::new(text).value())?;
    told.tell(MediaTypeTrait::new(text).value())?;
    told.tell(HttpQueryTrait::new(text).value())?;
    told.tell(HttpPrefixHeadersTrait::new(text).value())?;
    told.tell(HttpHeaderTrait::new(text).value())?;
    Ok(told.into_text())
}

/// The trait `smithy.api#http` of a value with `method`, `uri` and maybe `code`.
pub fn http_of(given: &Value) -> Result<HttpTrait<'_>, Failed> {
    let code = match given.get("code") {
        Some(code) => Some(
            u16::try_from(code.as_u64().ok_or(Failed)?)
                .ok()
                .ok_or(Failed)?,
        ),
        None => None,
    };
    Ok(HttpTrait::new(text_of(given, "method")?, text_of(given, "uri")?, code))
}

/// The format of this name.
pub fn time_format(name: &str) -> Result<TimestampFormat, Failed> {
    match name {
        "epoch-seconds" => Ok(TimestampFormat::EpochSeconds),
        "date-time" => Ok(TimestampFormat::DateTime),
        "http-date" => Ok(TimestampFormat::HttpDate),
        _ => Err(Failed),
    }
}

// The format that the trait `smithy.api#timestampFormat` has.
fn timestamp_trait(alloc: Global, given: &Value) -> Result<Text, Failed> {
    let format = TimestampFormatTrait::new(time_format(text_of(given, "format")?)?);
    Ok(Text::from_string(format!(in alloc; "{:?}", format.format())?))
}

fn http_trait(alloc: Global, given: &Value) -> Result<Text, Failed> {
    let http = http_of(given)?;
    let mut told = Told::new(alloc)?;
    told.tell(http.method())?;
    told.tell(http.uri())?;
    told.tell(format!(in alloc; "{}", http.code())?.as_str())?;
    Ok(told.into_text())
}

fn namespace(alloc: Global, given: &Value) -> Result<Text, Failed> {
    let prefix = given.get("prefix").and_then(Value::as_str);
    let namespace = XmlNamespaceTrait::new(text_of(given, "uri")?, prefix);
    let mut told = Told::new(alloc)?;
    told.tell(namespace.uri())?;
    told.tell_option(namespace.prefix())?;
    let hint = PayloadHint::default();
    told.tell_flag("unknown", hint == PayloadHint::Unknown)?;
    Ok(told.into_text())
}
