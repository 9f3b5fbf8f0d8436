// A structure of many String members, some of them headers, and the object of the others.
use crate::failed::Failed;
use smithy_http::Headers;
use smithy_ids::{ShapeId, ShapeType};
use smithy_schema::{Schema, SchemaIndex, Schemas};
use smithy_types::OutOfMemory;
use std::alloc::Global;

/// How many of the first members are headers, and how many members of the body stand behind them.
#[derive(Clone, Copy)]
pub struct Sizes {
    pub headers: u32,
    pub fields: u32,
}

fn shape() -> ShapeId<'static> {
    ShapeId::from_parts("ex#Out", "ex", "Out")
}

// The name of a member of the body. Those of later ones stand behind it in byte order.
fn field_name(alloc: Global, field: u32) -> Result<String, OutOfMemory> {
    Ok(format!(in alloc; "field{field:06}")?)
}

fn header_name(alloc: Global, header: u32) -> Result<String, OutOfMemory> {
    Ok(format!(in alloc; "x-amz-meta-{header}")?)
}

fn insert_header(alloc: Global, table: &mut Schemas, header: u32) -> Result<SchemaIndex, Failed> {
    let name = header_name(alloc, header)?;
    let position = header as usize;
    let member = Schema::new_member(shape(), ShapeType::String, name.as_str(), position);
    Ok(table.insert(member.with_http_header(name.as_str()))?)
}

fn insert_field(
    alloc: Global,
    table: &mut Schemas,
    headers: u32,
    field: u32,
) -> Result<SchemaIndex, Failed> {
    let name = field_name(alloc, field)?;
    let position = headers as usize + field as usize;
    let member = Schema::new_member(shape(), ShapeType::String, name.as_str(), position);
    Ok(table.insert(member)?)
}

/// The node of a structure of these sizes.
pub fn insert_structure(
    alloc: Global,
    table: &mut Schemas,
    sizes: Sizes,
) -> Result<SchemaIndex, Failed> {
    let mut members = Vec::new(alloc);
    for header in 0..sizes.headers {
        members.push(insert_header(alloc, table, header)?)?;
    }
    for field in 0..sizes.fields {
        members.push(insert_field(alloc, table, sizes.headers, field)?)?;
    }
    let schema = Schema::new_struct(shape(), ShapeType::Structure, members.as_slice());
    Ok(table.insert(schema)?)
}

/// So many headers.
pub fn headers_of(alloc: Global, count: u32) -> Result<Headers, Failed> {
    let mut headers = Headers::new(alloc);
    for header in 0..count {
        let name = header_name(alloc, header)?;
        headers.append(name.as_str(), b"a header's value")?;
    }
    Ok(headers)
}

/// In which order the fields of an object stand.
#[derive(Clone, Copy)]
pub enum Order {
    /// In that of the members, which is byte order of their names.
    InTurn,
    /// In none.
    Scrambled,
}

// The field that stands at a place. A prime is no divisor of the counts that are measured, so each field stands once.
fn field_at(place: u32, fields: u32, order: Order) -> u32 {
    match order {
        Order::InTurn => place,
        Order::Scrambled => ((place as u64 * 7919) % fields.max(1) as u64) as u32,
    }
}

/// The JSON object of so many fields, in this order.
pub fn object_text(alloc: Global, fields: u32, order: Order) -> Result<String, Failed> {
    let mut text = String::from_str(alloc, "{")?;
    for place in 0..fields {
        let name = field_name(alloc, field_at(place, fields, order))?;
        let separator = if place == 0 { "" } else { "," };
        let member = format!(in alloc; "{separator}\"{name}\":\"a field's value\"")?;
        text.push_str(member.as_str())?;
    }
    text.push_str("}")?;
    Ok(text)
}
