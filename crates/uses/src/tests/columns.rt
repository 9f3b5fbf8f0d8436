// A column beside a table: its cells are filled once, and dropped once.
use crate::*;
use smithy_binding::header_name_of;
use smithy_ids::{ShapeId, ShapeType};
use smithy_schema::laws::cells_are_given;
use smithy_schema::{
    Provider, Schema, SchemaError, SchemaExtension, SchemaIndex, SchemaRef, Schemas,
};
use smithy_serde::{OmitFlags, StructValue};
use smithy_types::OutOfMemory;
use std::alloc::Global;
use std::cell::Cell;
use std::test::Fail;

const ABC: SchemaIndex = SchemaIndex(0);

const RUNTIME: SchemaIndex = SchemaIndex(1);

const HOLE: SchemaIndex = SchemaIndex(2);

// One more than was counted so far.
fn count(counted: &Cell<usize>) {
    counted.set(counted.get().wrapping_add(1));
}

// The length of a member's name.
fn name_length(node: SchemaRef<'_>) -> usize {
    match node.member_name() {
        Some(name) => name.len(),
        None => 0,
    }
}

// Gives the length of a member's name, counts its calls, and has no memory for the first ones.
#[derive(Drop)]
struct NameLengths<'c> {
    calls: &'c Cell<usize>,
    refused: usize,
}

impl Provider<usize> for NameLengths<'_> {
    ghost use Rattle.std.specs.Prelude.{⊤};

    ghost takes = { λ _ schema. ⊤ };

    ghost gives = { λ _ schema cell. ⊤ };

    fn provide(&self, node: SchemaRef<'_>) -> Result<usize, OutOfMemory> {
        count(self.calls);
        if self.calls.get() <= self.refused {
            return Err(OutOfMemory);
        }
        Ok(name_length(node))
    }
}

// A table of a member `abc`, a member whose name is made when the test runs, and a hole.
fn lengths_table(alloc: Global) -> Result<Schemas, SchemaError> {
    let shape = ShapeId::from_parts("ex#Shape", "ex", "Shape");
    let name = String::from_str(alloc, "runtime")?;
    let mut table = Schemas::new(alloc);
    table.insert(Schema::new_member(shape, ShapeType::String, "abc", 0))?;
    table.insert(Schema::new_member(shape, ShapeType::String, name.as_str(), 1))?;
    table.declare()?;
    Ok(table)
}

#[test]
fn a_provider_is_called_once(rt: HostRuntime) -> Result<(), Fail> {
    let alloc = rt.alloc();
    let table = lengths_table(alloc)?;
    let calls = Cell::new(0);
    let lengths = NameLengths {
        calls: &calls,
        refused: 0,
    };
    let mut column = SchemaExtension::new(alloc, &table, lengths)?;
    assert_eq!(rt; column.peek(ABC).copied(), None);
    assert_eq!(rt; column.get(ABC)?.copied(), Some(3));
    assert_eq!(rt; column.get(ABC)?.copied(), Some(3));
    assert_eq!(rt; calls.get(), 1);
    assert_eq!(rt; column.peek(ABC).copied(), Some(3));
    assert_eq!(rt; column.get(RUNTIME)?.copied(), Some(7));
    assert_eq!(rt; column.get(HOLE)?.copied(), None);
    assert_eq!(rt; column.get(SchemaIndex(3))?.copied(), None);
    assert_eq!(rt; calls.get(), 2);
    cells_are_given(&column);
    assert_eq!(rt; column.table().len(), 3);
    Ok(())
}

#[test]
fn a_refused_cell_stays_empty(rt: HostRuntime) -> Result<(), Fail> {
    let alloc = rt.alloc();
    let table = lengths_table(alloc)?;
    let calls = Cell::new(0);
    let lengths = NameLengths {
        calls: &calls,
        refused: 1,
    };
    let mut column = SchemaExtension::new(alloc, &table, lengths)?;
    assert!(rt; column.fill(ABC).is_err());
    assert_eq!(rt; column.peek(ABC).copied(), None);
    assert_eq!(rt; column.get(ABC)?.copied(), Some(3));
    Ok(())
}

// Counts when it is dropped.
struct Counted<'c> {
    drops: &'c Cell<usize>,
}

impl Drop for Counted<'_> {
    fn drop(self) {
        let Counted { drops } = self;
        count(drops);
    }
}

// Gives values that count when they are dropped.
#[derive(Drop)]
struct CountedDrops<'c> {
    drops: &'c Cell<usize>,
}

impl<'c> Provider<Counted<'c>> for CountedDrops<'c> {
    ghost use Rattle.std.specs.Prelude.{⊤};

    ghost takes = { λ _ schema. ⊤ };

    ghost gives = { λ _ schema cell. ⊤ };

    fn provide(&self, _node: SchemaRef<'_>) -> Result<Counted<'c>, OutOfMemory> {
        Ok(Counted { drops: self.drops })
    }
}

#[test]
fn a_column_drops_its_value_once(rt: HostRuntime) -> Result<(), Fail> {
    let alloc = rt.alloc();
    let table = lengths_table(alloc)?;
    let drops = Cell::new(0);
    let mut column = SchemaExtension::new(alloc, &table, CountedDrops { drops: &drops })?;
    assert!(rt; column.get(ABC)?.is_some());
    assert!(rt; column.get(ABC)?.is_some());
    assert_eq!(rt; drops.get(), 0);
    drop(column);
    assert_eq!(rt; drops.get(), 1);
    Ok(())
}

#[test]
fn two_inputs_have_requests_by_one_column(rt: HostRuntime) -> Result<(), Fail> {
    let alloc = rt.alloc();
    let table = get_object_table(alloc)?;
    let schema = table.get(get_object::INPUT).expect(&rt, "no node");
    let first = StructValue::with_writes(
        &table,
        get_object::INPUT,
        get_object_writes(alloc, "b", "x", 3, 7)?,
    );
    let second = StructValue::with_writes(
        &table,
        get_object::INPUT,
        get_object_writes(alloc, "b", "y", 4, 8)?,
    );
    let id = schema.member_schema("Id").expect(&rt, "no member");
    let name = header_name_of(alloc, id)?.expect(&rt, "no name");
    assert_eq!(rt; name.as_str(), "x-id");
    assert!(rt; header_name_of(alloc, schema)?.is_none());
    let (one, other) = two_requests(alloc, &first, &second, schema, OmitFlags::KEEP_ALL)?;
    assert_eq!(rt; one.headers().get("x-id"), Some("7"));
    assert_eq!(rt; other.headers().get("x-id"), Some("8"));
    assert_eq!(rt; other.uri(), "/b/y?max=4");
    Ok(())
}
