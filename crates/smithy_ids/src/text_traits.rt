// Traits that hold one text, seen as its bytes.
use crate::shape_id::ShapeId;
use std::marker::{Model, PhantomData};

/// Which trait a text is of.
pub trait TextTraitName {
    /// The identifier of the trait.
    const TRAIT_ID: ShapeId<'static>;
}

/// A trait that holds one text.
#[derive(Clone, Debug, Drop)]
pub struct TextTrait<'a, N: TextTraitName> {
    value: &'a str,
    name: PhantomData<N>,
}

impl<'a, N: TextTraitName> Model for TextTrait<'a, N> {
    ghost use Rattle.std.specs.Prelude.{List, ℕ};

    ghost Value = { List ℕ };

    ghost view = { λ t. t.value.now };
}

impl<'a, N: TextTraitName> TextTrait<'a, N> {
    ghost use Rattle.std.specs.Prelude.{◌≡◌};

    /// The identifier of the trait.
    pub const TRAIT_ID: ShapeId<'static> = N::TRAIT_ID;

    /// The trait with this text.
    pub const fn new(value: &'a str) -> Self
        ensures { result ≡ value.now }
    {
        TextTrait {
            value,
            name: PhantomData,
        }
    }

    /// The text.
    pub fn value(&self) -> &'a str
        ensures { result.now ≡ self.now }
    {
        self.value
    }
}

/// The name of a member in JSON (Smithy, jsonName trait).
pub type JsonNameTrait<'a> = TextTrait<'a, JsonName>;

/// The name of jsonName.
#[derive(Clone, Copy, Debug)]
pub struct JsonName;

impl TextTraitName for JsonName {
    const TRAIT_ID: ShapeId<'static> = ShapeId {
        full_name: "smithy.api#jsonName",
        namespace: "smithy.api",
        shape_name: "jsonName",
        member_name: None,
    };
}

/// The name of an element in XML (Smithy, XML bindings, xmlName trait).
pub type XmlNameTrait<'a> = TextTrait<'a, XmlName>;

/// The name of xmlName.
#[derive(Clone, Copy, Debug)]
pub struct XmlName;

impl TextTraitName for XmlName {
    const TRAIT_ID: ShapeId<'static> = ShapeId {
        full_name: "smithy.api#xmlName",
        namespace: "smithy.api",
        shape_name: "xmlName",
        member_name: None,
    };
}

/// The media type of a blob or a text (Smithy, mediaType trait).
pub type MediaTypeTrait<'a> = TextTrait<'a, MediaType>;

/// The name of mediaType.
#[derive(Clone, Copy, Debug)]
pub struct MediaType;

impl TextTraitName for MediaType {
    const TRAIT_ID: ShapeId<'static> = ShapeId {
        full_name: "smithy.api#mediaType",
        namespace: "smithy.api",
        shape_name: "mediaType",
        member_name: None,
    };
}

/// The query parameter that a member is bound to (Smithy, HTTP protocol bindings, httpQuery trait).
pub type HttpQueryTrait<'a> = TextTrait<'a, HttpQuery>;

/// The name of httpQuery.
#[derive(Clone, Copy, Debug)]
pub struct HttpQuery;

impl TextTraitName for HttpQuery {
    const TRAIT_ID: ShapeId<'static> = ShapeId {
        full_name: "smithy.api#httpQuery",
        namespace: "smithy.api",
        shape_name: "httpQuery",
        member_name: None,
    };
}

/// The prefix of the header names that a map is bound to (Smithy, HTTP protocol bindings, httpPrefixHeaders trait).
pub type HttpPrefixHeadersTrait<'a> = TextTrait<'a, HttpPrefixHeaders>;

/// The name of httpPrefixHeaders.
#[derive(Clone, Copy, Debug)]
pub struct HttpPrefixHeaders;

impl TextTraitName for HttpPrefixHeaders {
    const TRAIT_ID: ShapeId<'static> = ShapeId {
        full_name: "smithy.api#httpPrefixHeaders",
        namespace: "smithy.api",
        shape_name: "httpPrefixHeaders",
        member_name: None,
    };
}

/// The header that a member is bound to (Smithy, HTTP protocol bindings, httpHeader trait).
pub type HttpHeaderTrait<'a> = TextTrait<'a, HttpHeader>;

/// The name of httpHeader.
#[derive(Clone, Copy, Debug)]
pub struct HttpHeader;

impl TextTraitName for HttpHeader {
    const TRAIT_ID: ShapeId<'static> = ShapeId {
        full_name: "smithy.api#httpHeader",
        namespace: "smithy.api",
        shape_name: "httpHeader",
        member_name: None,
    };
}
