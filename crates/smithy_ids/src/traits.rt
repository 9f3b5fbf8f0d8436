// The traits that a schema carries, each as plain data (Smithy, serialization and protocol traits, HTTP bindings, event streams).
use crate::shape_id::ShapeId;
use std::marker::Model;

/// How a timestamp is written (Smithy, timestampFormat trait).
#[derive(Clone, Copy, Debug, PartialEq, Eq)]
pub enum TimestampFormat {
    EpochSeconds,
    DateTime,
    HttpDate,
}

/// The format of a timestamp's texts (Smithy, timestampFormat trait).
#[derive(Clone, Copy, Debug)]
pub struct TimestampFormatTrait {
    format: TimestampFormat,
}

impl Model for TimestampFormatTrait {
    ghost use Rattle.smithy_ids.specs.declared.traits.TimestampFormat.{TimestampFormat as Format};

    ghost Value = { Format };

    ghost view = { λ t. t.format };

    ghost inverse = { λ f. record { format = f } };
}

impl TimestampFormatTrait {
    ghost use Rattle.std.specs.Prelude.{◌≡◌};

    /// The identifier of the trait.
    pub const TRAIT_ID: ShapeId<'static> = ShapeId {
        full_name: "smithy.api#timestampFormat",
        namespace: "smithy.api",
        shape_name: "timestampFormat",
        member_name: None,
    };

    /// The trait with this format.
    pub const fn new(format: TimestampFormat) -> Self
        ensures { result ≡ format }
    {
        TimestampFormatTrait { format }
    }

    /// The format.
    pub fn format(&self) -> TimestampFormat
        ensures { result ≡ self.now }
    {
        self.format
    }
}

/// The namespace of an element in XML (Smithy, XML bindings, xmlNamespace trait).
#[derive(Clone, Debug, Drop)]
pub struct XmlNamespaceTrait<'a> {
    uri: &'a str,
    prefix: Option<&'a str>,
}

impl<'a> Model for XmlNamespaceTrait<'a> {
    ghost use Rattle.std.specs.Prelude.{option_map};
    ghost use Rattle.smithy_ids.specs.Traits.{Namespace};

    ghost Value = { Namespace };

    ghost view = { λ t. record { uri = t.uri.now; prefix = option_map (λ p. p.now) t.prefix } };
}

impl<'a> XmlNamespaceTrait<'a> {
    ghost use Rattle.std.specs.Prelude.{◌≡◌, option_map};
    ghost use Rattle.smithy_ids.specs.Traits.{Namespace};

    /// The identifier of the trait.
    pub const TRAIT_ID: ShapeId<'static> = ShapeId {
        full_name: "smithy.api#xmlNamespace",
        namespace: "smithy.api",
        shape_name: "xmlNamespace",
        member_name: None,
    };

    /// The trait with this URI and prefix.
    pub const fn new(uri: &'a str, prefix: Option<&'a str>) -> Self
        ensures { result ≡ record { uri = uri.now; prefix = option_map (λ p. p.now) prefix.entry } }
    {
        XmlNamespaceTrait { uri, prefix }
    }

    /// The URI.
    pub fn uri(&self) -> &'a str
        ensures { result.now ≡ self.now.uri }
    {
        self.uri
    }

    /// The prefix, where there is one.
    pub fn prefix(&self) -> Option<&'a str>
        ensures { option_map (λ p. p.now) result ≡ self.now.prefix }
    {
        self.prefix
    }
}

/// Method, URI template and status of an operation (Smithy, HTTP protocol bindings, http trait).
#[derive(Clone, Debug, Drop)]
pub struct HttpTrait<'a> {
    method: &'a str,
    uri: &'a str,
    code: u16,
}

impl<'a> Model for HttpTrait<'a> {
    ghost use Rattle.smithy_ids.specs.Traits.{Http};

    ghost Value = { Http };

    ghost view = { λ t. record { method = t.method.now; uri = t.uri.now; code = t.code } };
}

impl<'a> HttpTrait<'a> {
    ghost use Rattle.std.specs.Prelude.{◌≡◌, unwrap_or};
    ghost use Rattle.smithy_ids.specs.Traits.{Http};

    /// The trait with this method, URI template and status, which is 200 where none is given.
    pub const fn new(method: &'a str, uri: &'a str, code: Option<u16>) -> Self
        ensures { result ≡ record { method = method.now; uri = uri.now; code = unwrap_or code 200 } }
    {
        HttpTrait {
            method,
            uri,
            code: match code {
                Some(code) => code,
                None => 200,
            },
        }
    }

    /// The method.
    pub fn method(&self) -> &'a str
        ensures { result.now ≡ self.now.method }
    {
        self.method
    }

    /// The URI template.
    pub fn uri(&self) -> &'a str
        ensures { result.now ≡ self.now.uri }
    {
        self.uri
    }

    /// The status, 100 to 999 in what a server sends, here any number of 16 bits.
    pub fn code(&self) -> u16
        ensures { result ≡ self.now.code }
    {
        self.code
    }
}
