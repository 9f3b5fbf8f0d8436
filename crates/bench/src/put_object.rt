// An input of many members: `PUT /{Bucket}/{Key+}?x-id=PutObject`, headers, a map in headers with a prefix, and a payload.
ghost use Rattle.std.specs.Prelude.{IfOk};
ghost use Rattle.smithy_serde.specs.StoredValues.{AreDefined, IsDefined};

use crate::failed::Failed;
use crate::inputs::{add, text_value};
use crate::placing::{Doing, do_with};
use smithy_ids::{HttpTrait, ShapeId, ShapeType};
use smithy_schema::{Schema, SchemaError, SchemaIndex, Schemas};
use smithy_serde::{ShapeValue, WriteList};
use smithy_types::{Blob, DateTime};
use std::alloc::Global;

const CLASS: &str = "x-amz-storage-class";

const REDIRECT: &str = "x-amz-website-redirect-location";

fn shape() -> ShapeId<'static> {
    ShapeId::from_parts("s#PutIn", "s", "PutIn")
}

// A text in the path.
fn label(name: &'static str, position: usize) -> Schema<'static> {
    Schema::new_member(shape(), ShapeType::String, name, position).with_http_label()
}

// A member in a header.
fn header(
    name: &'static str,
    position: usize,
    kind: ShapeType,
    header: &'static str,
) -> Schema<'static> {
    Schema::new_member(shape(), kind, name, position).with_http_header(header)
}

// A text in a header.
fn text(name: &'static str, position: usize, own: &'static str) -> Schema<'static> {
    header(name, position, ShapeType::String, own)
}

// The nodes of the keys and the values of `Metadata` stand before the members.
const META_KEY: SchemaIndex = SchemaIndex(0);

const META_VALUE: SchemaIndex = SchemaIndex(1);

fn insert_entry_nodes(table: &mut Schemas) -> Result<(), SchemaError> {
    table.insert(Schema::new_member(shape(), ShapeType::String, "key", 0))?;
    table.insert(Schema::new_member(shape(), ShapeType::String, "value", 1))?;
    Ok(())
}

fn metadata() -> Schema<'static> {
    Schema::new_member(shape(), ShapeType::Map, "Metadata", 12)
        .with_map_members(META_KEY, META_VALUE)
        .with_http_prefix_headers("x-amz-meta-")
}

// The members, in byte order of their names.
fn insert_members(table: &mut Schemas) -> Result<[SchemaIndex; 16], SchemaError> {
    let body = Schema::new_member(shape(), ShapeType::Blob, "Body", 0);
    let time = ShapeType::Timestamp;
    Ok([
        table.insert(body.with_http_payload().with_streaming())?,
        table.insert(label("Bucket", 1))?,
        table.insert(text("CacheControl", 2, "Cache-Control"))?,
        table.insert(text("ContentDisposition", 3, "Content-Disposition"))?,
        table.insert(text("ContentEncoding", 4, "Content-Encoding"))?,
        table.insert(text("ContentLanguage", 5, "Content-Language"))?,
        table.insert(header("ContentLength", 6, ShapeType::Long, "Content-Length"))?,
        table.insert(text("ContentMD5", 7, "Content-MD5"))?,
        table.insert(text("ContentType", 8, "Content-Type"))?,
        table.insert(text("Encryption", 9, "x-amz-server-side-encryption"))?,
        table.insert(header("Expires", 10, time, "Expires"))?,
        table.insert(label("Key", 11))?,
        table.insert(metadata())?,
        table.insert(text("Redirect", 13, REDIRECT))?,
        table.insert(text("StorageClass", 14, CLASS))?,
        table.insert(text("Tagging", 15, "x-amz-tagging"))?,
    ])
}

// The node of the structure.
fn insert(table: &mut Schemas) -> Result<SchemaIndex, SchemaError> {
    insert_entry_nodes(table)?;
    let members = insert_members(table)?;
    let schema = Schema::new_struct(shape(), ShapeType::Structure, &members);
    let http = HttpTrait::new("PUT", "/{Bucket}/{Key+}?x-id=PutObject", Some(200));
    table.insert(schema.with_http(http))
}

// The entries of `Metadata`.
fn meta_entries(alloc: Global, table: &Schemas) -> Result<WriteList, Failed>
    ensures { IfOk result (λ w. AreDefined table.now w) }
{
    let mut entries = WriteList::new(alloc);
    add(table, &mut entries, META_KEY.0, text_value(alloc, "Team")?)?;
    add(
        table,
        &mut entries,
        META_VALUE.0,
        text_value(alloc, "blue")?,
    )?;
    add(table, &mut entries, META_KEY.0, text_value(alloc, "owner")?)?;
    add(table, &mut entries, META_VALUE.0, text_value(alloc, "ann")?)?;
    Ok(entries)
}

// Nine of the members, in the order of their names; the member at position `p` is the node at `p + 2`.
#[tactic(auto, unfolding(smithy_serde::specs::StoredValues::IsDefined))]
fn put_writes(alloc: Global, table: &Schemas) -> Result<WriteList, Failed>
    ensures { IfOk result (λ w. AreDefined table.now w) }
{
    let mut writes = WriteList::new(alloc);
    add(
        table,
        &mut writes,
        2,
        ShapeValue::Blob(Blob::new(alloc, b"hello")?),
    )?;
    add(table, &mut writes, 3, text_value(alloc, "box")?)?;
    add(table, &mut writes, 4, text_value(alloc, "no-cache")?)?;
    add(table, &mut writes, 8, ShapeValue::Long(5))?;
    add(table, &mut writes, 10, text_value(alloc, "text/plain")?)?;
    let expires = DateTime::from_secs(1_515_523_620);
    add(table, &mut writes, 12, ShapeValue::Timestamp(expires))?;
    add(table, &mut writes, 13, text_value(alloc, "a b/c.txt")?)?;
    add(
        table,
        &mut writes,
        14,
        ShapeValue::Map(meta_entries(alloc, table)?),
    )?;
    add(table, &mut writes, 16, text_value(alloc, "STANDARD_IA")?)?;
    Ok(writes)
}

/// Places the input so many times, or reads its request back.
pub fn do_put(alloc: Global, doing: Doing, times: u32) -> Result<(), Failed> {
    let mut table = Schemas::new(alloc);
    let node = insert(&mut table)?;
    let writes = put_writes(alloc, &table)?;
    do_with(alloc, &table, node, writes, doing, times)
}
