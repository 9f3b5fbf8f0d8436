// How the target of a request is joined to an endpoint, and what refusals say.
use crate::telling::Told;
use serde_json::Value;
use smithy_http::{Endpoint, EndpointPrefix, Headers, HttpError, ListFault, set_endpoint};
use smithy_types::{Text, legal_target};
use std::alloc::Global;
use test_rows::{Failed, long_text_of, text_of};

/// The target joined to the endpoint of a URL, behind a prefix where one is given.
pub fn set(alloc: Global, given: &Value) -> Result<Text, Failed> {
    let mut told = Told::new(alloc)?;
    let target = long_text_of(alloc, given, "target")?;
    let url = long_text_of(alloc, given, "url")?;
    let prefix = given.get("prefix").and_then(Value::as_str);
    match joined(alloc, target.as_str(), url.as_str(), prefix) {
        Ok(text) => told.tell_text("Ok", text.as_str())?,
        Err(error) => told.tell_text("Err", format!(in alloc; "{error:?}")?.as_str())?,
    }
    Ok(told.into_text())
}

fn joined(alloc: Global, target: &str, url: &str, prefix: Option<&str>) -> Result<Text, HttpError> {
    if !legal_target(target) {
        return Err(HttpError::Name);
    }
    let endpoint = Endpoint::new(alloc, url, Headers::new(alloc))?;
    match prefix {
        None => set_endpoint(alloc, target, &endpoint, None),
        Some(prefix) => {
            let prefix = EndpointPrefix::new(alloc, prefix)?;
            set_endpoint(alloc, target, &endpoint, Some(&prefix))
        }
    }
}

/// What each refusal says.
pub fn refusals(alloc: Global) -> Result<Text, Failed> {
    let mut told = Told::new(alloc)?;
    for error in REFUSALS {
        told.tell(format!(in alloc; "{error}")?.as_str())?;
    }
    Ok(told.into_text())
}

const REFUSALS: [HttpError; 10] = [
    HttpError::Name,
    HttpError::Value,
    HttpError::Target,
    HttpError::List(ListFault::Unended),
    HttpError::List(ListFault::Trailing),
    HttpError::List(ListFault::TooMany),
    HttpError::List(ListFault::Item),
    HttpError::NotUtf8,
    HttpError::Address,
    HttpError::OutOfMemory,
];

/// What an endpoint and a prefix are made of.
pub fn parts(alloc: Global, given: &Value) -> Result<Text, Failed> {
    let mut told = Told::new(alloc)?;
    let mut headers = Headers::new(alloc);
    let added = headers.try_insert("X-A", text_of(given, "header")?);
    added.ok().ok_or(Failed)?;
    let endpoint = Endpoint::new(alloc, text_of(given, "url")?, headers)?;
    let prefix = long_text_of(alloc, given, "prefix")?;
    told.tell_text("url", endpoint.url())?;
    told.tell_option(endpoint.headers().get("x-a"))?;
    match EndpointPrefix::new(alloc, prefix.as_str()) {
        Ok(prefix) => told.tell_text("Ok", prefix.as_str())?,
        Err(error) => told.tell_text("Err", format!(in alloc; "{error:?}")?.as_str())?,
    }
    Ok(told.into_text())
}
