// The schema of the command `generate`: the input of an operation `POST /g/{id}`.
ghost use Rattle.std.specs.Prelude.{◌≡◌, ◌++◌, ◌∷◌, [], codes, OnOk, IfOk, Some};
ghost use Rattle.smithy_ids.specs.ShapeIdParts.{parts_of};
ghost use Rattle.smithy_bind.specs.Generating as generating;

use smithy_ids::{HttpTrait, ShapeId, ShapeType};
use smithy_schema::{Schema, SchemaIndex, Schemas};
use smithy_types::OutOfMemory;
use std::alloc::Global;

// The nodes, by their places in the table.
pub const NUMBER: SchemaIndex = SchemaIndex(0);

pub const TEXT: SchemaIndex = SchemaIndex(1);

pub const ID: SchemaIndex = SchemaIndex(2);

pub const ITEMS: SchemaIndex = SchemaIndex(3);

pub const TAGS: SchemaIndex = SchemaIndex(4);

pub const INPUT: SchemaIndex = SchemaIndex(5);

const MEMBERS: [SchemaIndex; 3] = [ID, ITEMS, TAGS];

fn input_id() -> ShapeId<'static>
    ensures { (parts_of result).full_name ≡ codes "ex#GenerateInput" }
{
    ShapeId::from_parts("ex#GenerateInput", "ex", "GenerateInput")
}

// A node of the prelude's simple shapes.
fn number_node() -> Schema<'static>
    ensures { result ≡ generating.number_node }
{
    let id = ShapeId::from_parts("smithy.api#Integer", "smithy.api", "Integer");
    Schema::new(id, ShapeType::Integer)
}

fn text_node() -> Schema<'static>
    ensures { result ≡ generating.text_node }
{
    let id = ShapeId::from_parts("smithy.api#String", "smithy.api", "String");
    Schema::new(id, ShapeType::String)
}

fn id_node() -> Schema<'static>
    ensures { result ≡ generating.id_node }
{
    Schema::new_member(input_id(), ShapeType::Long, "id", 0).with_http_label()
}

fn items_node() -> Schema<'static>
    ensures { result ≡ generating.items_node }
{
    Schema::new_member(input_id(), ShapeType::List, "items", 1).with_list_member(NUMBER)
}

fn tags_node() -> Schema<'static>
    ensures { result ≡ generating.tags_node }
{
    let list = Schema::new_member(input_id(), ShapeType::List, "tags", 2).with_list_member(TEXT);
    list.with_http_header("X-Tags")
}

fn input_node() -> Schema<'static>
    ensures { result ≡ generating.input_node }
{
    let input = Schema::new_struct(input_id(), ShapeType::Structure, &MEMBERS);
    input.with_http(HttpTrait::new("POST", "/g/{id}", None))
}

// Adds a node. No node here has another fault than want of memory.
fn add(table: &mut Schemas, node: Schema<'_>) -> Result<(), OutOfMemory>
    ensures { OnOk result (table.new ≡ table.old ++ Some node.entry ∷ []) }
{
    match table.insert(node) {
        Ok(_) => Ok(()),
        Err(_) => Err(OutOfMemory),
    }
}

/// The table of the schema. Takes memory.
pub fn generated_table(alloc: Global) -> Result<Schemas, OutOfMemory>
    ensures { IfOk result (λ t. t ≡ generating.table) }
{
    let mut table = Schemas::new(alloc);
    add(&mut table, number_node())?;
    add(&mut table, text_node())?;
    add(&mut table, id_node())?;
    add(&mut table, items_node())?;
    add(&mut table, tags_node())?;
    add(&mut table, input_node())?;
    Ok(table)
}
