// Requests that grow: many items in a body, many headers behind a prefix, many pairs in a query.
use crate::failed::Failed;
use crate::way_back::read_back;
use smithy_http::{Headers, Request};
use smithy_ids::{HttpTrait, ShapeId, ShapeType};
use smithy_schema::{Schema, SchemaError, SchemaIndex, Schemas};
use smithy_types::{Blob, Text};
use std::alloc::Global;

/// What a request has many of.
#[derive(Clone, Copy)]
pub enum Grown {
    /// Items of a list in the body.
    Items,
    /// Headers of a map behind a prefix.
    Headers,
    /// Pairs of a map in the query.
    Pairs,
}

fn shape() -> ShapeId<'static> {
    ShapeId::from_parts("ex#ManyIn", "ex", "ManyIn")
}

// The nodes of keys and values stand before the member.
const KEY: SchemaIndex = SchemaIndex(0);

const VALUE: SchemaIndex = SchemaIndex(1);

fn map_member() -> Schema<'static> {
    Schema::new_member(shape(), ShapeType::Map, "many", 0).with_map_members(KEY, VALUE)
}

fn member(grown: Grown) -> Schema<'static> {
    match grown {
        Grown::Items => {
            let list = Schema::new_member(shape(), ShapeType::List, "many", 0);
            list.with_list_member(VALUE)
        }
        Grown::Headers => map_member().with_http_prefix_headers("x-"),
        Grown::Pairs => map_member().with_http_query_params(),
    }
}

// The node of the structure, whose one member is that.
fn insert(table: &mut Schemas, grown: Grown) -> Result<SchemaIndex, SchemaError> {
    table.insert(Schema::new_member(shape(), ShapeType::String, "key", 0))?;
    table.insert(Schema::new_member(shape(), ShapeType::String, "value", 1))?;
    let members = [table.insert(member(grown))?];
    let schema = Schema::new_struct(shape(), ShapeType::Structure, &members);
    table.insert(schema.with_http(HttpTrait::new("PUT", "/", None)))
}

// The object of a list of so many texts of 98 bytes.
fn items_text(alloc: Global, count: u32) -> Result<String, Failed> {
    let mut text = String::from_str(alloc, "{\"many\":[")?;
    for item in 0..count {
        let separator = if item == 0 { "" } else { "," };
        let item = format!(in alloc; "{separator}\"{item:098}\"")?;
        text.push_str(item.as_str())?;
    }
    text.push_str("]}")?;
    Ok(text)
}

fn many_headers(alloc: Global, count: u32) -> Result<Headers, Failed> {
    let mut headers = Headers::new(alloc);
    for header in 0..count {
        let name = format!(in alloc; "x-{header}")?;
        headers.append(name.as_str(), b"a header's value")?;
    }
    Ok(headers)
}

// The target of so many pairs without a text.
fn many_pairs(alloc: Global, count: u32) -> Result<String, Failed> {
    let mut target = String::from_str(alloc, "/")?;
    for pair in 0..count {
        let mark = if pair == 0 { "?" } else { "&" };
        let pair = format!(in alloc; "{mark}{pair}=")?;
        target.push_str(pair.as_str())?;
    }
    Ok(target)
}

// The headers of a body that the codec wrote.
fn body_headers(alloc: Global, length: usize) -> Result<Headers, Failed> {
    let mut headers = Headers::new(alloc);
    headers.append("content-type", b"application/json")?;
    let length = format!(in alloc; "{length}")?;
    headers.append("content-length", length.as_bytes())?;
    Ok(headers)
}

fn request_with(
    alloc: Global,
    target: &str,
    headers: Headers,
    body: &[u8],
) -> Result<Request, Failed> {
    let method = Text::from_str(alloc, "PUT")?;
    let target = Text::from_str(alloc, target)?;
    let body = Blob::new(alloc, body)?;
    Ok(Request::from_parts(method, target, headers, body)?)
}

// A request of so many of these.
fn request_of(alloc: Global, grown: Grown, count: u32) -> Result<Request, Failed> {
    match grown {
        Grown::Items => {
            let text = items_text(alloc, count)?;
            let headers = body_headers(alloc, text.len())?;
            request_with(alloc, "/", headers, text.as_bytes())
        }
        Grown::Headers => request_with(alloc, "/", many_headers(alloc, count)?, b""),
        Grown::Pairs => {
            let target = many_pairs(alloc, count)?;
            request_with(alloc, target.as_str(), Headers::new(alloc), b"")
        }
    }
}

/// Reads a request of so many of these back, so many times.
pub fn read_grown(alloc: Global, grown: Grown, count: u32, times: u32) -> Result<(), Failed> {
    let mut table = Schemas::new(alloc);
    let node = insert(&mut table, grown)?;
    if table.get(node).is_none() {
        return Err(Failed);
    }
    let request = request_of(alloc, grown, count)?;
    read_back(alloc, &table, node, &request, times)
}
