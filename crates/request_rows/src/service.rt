// The names of a service.
use serde_json::Value;
use smithy_binding::{
    ServiceShapeName, ServiceShapeNamespace, ServiceVersion, ServiceXmlNamespace,
};
use smithy_types::Text;
use std::alloc::Global;
use test_rows::{Failed, text_of};

/// The answer of one of these calls; none of another.
pub fn answer(alloc: Global, call: &str, given: &Value) -> Result<Option<Text>, Failed> {
    match call {
        "service names" => Ok(Some(names(alloc, given)?)),
        _ => Ok(None),
    }
}

#[derive(Drop)]
struct Service {
    name: ServiceShapeName,
    namespace: ServiceShapeNamespace,
    version: ServiceVersion,
    xml: ServiceXmlNamespace,
}

fn names_given(alloc: Global, given: &Value) -> Result<Service, Failed> {
    let prefix = given.get("prefix").and_then(Value::as_str);
    Ok(Service {
        name: ServiceShapeName::new(alloc, text_of(given, "name")?)?,
        namespace: ServiceShapeNamespace::new(alloc, text_of(given, "namespace")?)?,
        version: ServiceVersion::new(alloc, text_of(given, "version")?)?,
        xml: ServiceXmlNamespace::new(alloc, text_of(given, "uri")?, prefix)?,
    })
}

// The texts of the first service's names, and which of them the second has too.
fn names(alloc: Global, given: &Value) -> Result<Text, Failed> {
    let first = names_given(alloc, given.get("first").ok_or(Failed)?)?;
    let second = names_given(alloc, given.get("second").ok_or(Failed)?)?;
    let (name, namespace) = (first.name.as_str(), first.namespace.as_str());
    let (version, uri) = (first.version.as_str(), first.xml.uri());
    let prefix = first.xml.prefix().unwrap_or("no prefix");
    let mut text = Text::from_string(format!(in alloc;
        "{name}, {namespace}, {version}, {uri}, {prefix}; the same:"
    )?);
    if first.name == second.name {
        text.push_str(" name")?;
    }
    if first.namespace == second.namespace {
        text.push_str(" namespace")?;
    }
    if first.version == second.version {
        text.push_str(" version")?;
    }
    if first.xml == second.xml {
        text.push_str(" XML namespace")?;
    }
    Ok(text)
}
