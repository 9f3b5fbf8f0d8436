// Values without the members that are null.
ghost use Rattle.std.specs.Prelude.{◌≡◌, IfOk};
ghost use Rattle.smithy_schema.specs.Nodes.{Table};
ghost use Rattle.smithy_serde.specs.Present.{present, present_members, present_parts};
ghost use Rattle.smithy_serde.specs.StoredValues.{value_in, writes_in, IsDefined, StaysDefined};

use crate::value::{ShapeValue, WriteList};
use smithy_types::OutOfMemory;
use std::alloc::Global;

// A value without the null members of its structures.
#[cycle(present)]
fn present(alloc: Global, value: ShapeValue) -> Result<ShapeValue, OutOfMemory>
    ensures value { (t : Table) → IfOk result (λ v. value_in t v ≡ present (value_in t value)) }
    ensures defined { (t : Table) → IfOk result (λ v. IsDefined t value → IsDefined t v) }
{
    match value {
        ShapeValue::List(items) => Ok(ShapeValue::List(present_parts(alloc, items)?)),
        ShapeValue::Map(entries) => Ok(ShapeValue::Map(present_parts(alloc, entries)?)),
        ShapeValue::Struct(members) => Ok(ShapeValue::Struct(present_members(alloc, members)?)),
        scalar => Ok(scalar),
    }
}

#[cycle(present)]
fn present_parts(alloc: Global, parts: WriteList) -> Result<WriteList, OutOfMemory>
    ensures writes { (t : Table) → IfOk result (λ w. writes_in t w ≡ present_parts (writes_in t parts)) }
    ensures defined { IfOk result (λ ws. StaysDefined parts ws) }
{
    let mut kept = WriteList::new(alloc);
    'parts: for write in parts.writes {
        kept.push(write.node, present(alloc, write.value)?)?;
    }
    Ok(kept)
}

#[cycle(present)]
fn present_members(alloc: Global, members: WriteList) -> Result<WriteList, OutOfMemory>
    ensures writes { (t : Table) → IfOk result (λ w. writes_in t w ≡ present_members (writes_in t members)) }
    ensures defined { IfOk result (λ ws. StaysDefined members ws) }
{
    let mut kept = WriteList::new(alloc);
    'members: for write in members.writes {
        match write.value {
            ShapeValue::Null => {}
            value => kept.push(write.node, present(alloc, value)?)?,
        }
    }
    Ok(kept)
}

impl WriteList {
    ghost use Rattle.std.specs.Prelude.{◌≡◌, IfOk};
    ghost use Rattle.smithy_schema.specs.Nodes.{Table};
    ghost use Rattle.smithy_serde.specs.Present.{present_members};
    ghost use Rattle.smithy_serde.specs.StoredValues.{writes_in, StaysDefined};

    /// The writes of a structure without those that are null, at every depth: a member without a value is not there (Smithy, data
    /// model, structure). Items of lists and entries of maps stay. Takes memory for the lists of writes.
    pub fn present(self, alloc: Global) -> Result<WriteList, OutOfMemory>
        ensures writes { (t : Table) → IfOk result (λ w. writes_in t w ≡ present_members (writes_in t self)) }
        ensures defined { IfOk result (λ ws. StaysDefined self ws) }
    {
        present_members(alloc, self)
    }
}
