// The names of a service, which a client's settings hold.
ghost use Rattle.std.specs.Prelude.{◌≡◌, IfOk};
ghost use Rattle.smithy_binding.specs.Words.{option_copied};
ghost use Rattle.smithy_binding.specs.ServiceNames.{shape_name, shape_namespace, version_text, xml_uri, xml_prefix};

use smithy_types::OutOfMemory;
use std::alloc::Global;

/// The name of a service's shape, without its namespace.
#[derive(Debug, PartialEq, Eq, Drop)]
pub struct ServiceShapeName {
    text: String,
}

impl ServiceShapeName {
    /// The name of this text. Takes memory.
    pub fn new(alloc: Global, text: &str) -> Result<ServiceShapeName, OutOfMemory>
        ensures { IfOk result (λ name. shape_name name ≡ text.now) }
    {
        Ok(ServiceShapeName {
            text: String::from_str(alloc, text)?,
        })
    }

    /// The text.
    pub fn as_str(&self) -> &str
        ensures { result.now ≡ shape_name self.now }
    {
        self.text.as_str()
    }
}

/// The namespace of a service's shape.
#[derive(Debug, PartialEq, Eq, Drop)]
pub struct ServiceShapeNamespace {
    text: String,
}

impl ServiceShapeNamespace {
    /// The namespace of this text. Takes memory.
    pub fn new(alloc: Global, text: &str) -> Result<ServiceShapeNamespace, OutOfMemory>
        ensures { IfOk result (λ namespace. shape_namespace namespace ≡ text.now) }
    {
        Ok(ServiceShapeNamespace {
            text: String::from_str(alloc, text)?,
        })
    }

    /// The text.
    pub fn as_str(&self) -> &str
        ensures { result.now ≡ shape_namespace self.now }
    {
        self.text.as_str()
    }
}

/// The version of a service.
#[derive(Debug, PartialEq, Eq, Drop)]
pub struct ServiceVersion {
    text: String,
}

impl ServiceVersion {
    /// The version of this text. Takes memory.
    pub fn new(alloc: Global, text: &str) -> Result<ServiceVersion, OutOfMemory>
        ensures { IfOk result (λ version. version_text version ≡ text.now) }
    {
        Ok(ServiceVersion {
            text: String::from_str(alloc, text)?,
        })
    }

    /// The text.
    pub fn as_str(&self) -> &str
        ensures { result.now ≡ version_text self.now }
    {
        self.text.as_str()
    }
}

/// The XML namespace of a service (Smithy, `xmlNamespace` trait): its URI, and its prefix where it has one.
#[derive(Debug, PartialEq, Eq, Drop)]
pub struct ServiceXmlNamespace {
    uri: String,
    prefix: Option<String>,
}

impl ServiceXmlNamespace {
    /// The namespace of this URI and prefix. Takes memory.
    pub fn new(
        alloc: Global,
        uri: &str,
        prefix: Option<&str>,
    ) -> Result<ServiceXmlNamespace, OutOfMemory>
        ensures uri { IfOk result (λ namespace. xml_uri namespace ≡ uri.now) }
        ensures prefix { IfOk result (λ namespace. xml_prefix namespace ≡ option_copied prefix.entry) }
    {
        let prefix = match prefix {
            Some(prefix) => Some(String::from_str(alloc, prefix)?),
            None => None,
        };
        Ok(ServiceXmlNamespace {
            uri: String::from_str(alloc, uri)?,
            prefix,
        })
    }

    /// The URI.
    pub fn uri(&self) -> &str
        ensures { result.now ≡ xml_uri self.now }
    {
        self.uri.as_str()
    }

    /// The prefix.
    pub fn prefix(&self) -> Option<&str>
        ensures { option_copied result ≡ xml_prefix self.now }
    {
        match &self.prefix {
            Some(prefix) => Some(prefix.as_str()),
            None => None,
        }
    }
}
