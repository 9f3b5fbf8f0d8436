// What reads a value of its own type.
ghost use Rattle.std.specs.Prelude.{Result};
ghost use Rattle.smithy_serde.specs.declared.error.SerdeError.{SerdeError};
ghost use Rattle.smithy_serde.specs.Held.{Held};
ghost use Rattle.smithy_serde.specs.ReadsBy.{ReadsBy};

use crate::builders::ValueReader;
use crate::deserializer::ShapeDeserializer;
use crate::error::SerdeError;
use crate::read_plan::shape_of;
use crate::struct_value::StructValue;
use crate::value_reading::read_struct_value;
use std::alloc::Global;

/// Reads a value of its own type.
pub trait ShapeReader {
    type Output;

    /// How the answer follows from the value at hand, want of memory aside.
    ghost gives: { Self → Held → Result Self.Output SerdeError → Type 0 };

    /// Reads the value at hand.
    fn read<D: ShapeDeserializer>(
        &self,
        alloc: Global,
        reader: &mut D,
    ) -> Result<Self::Output, SerdeError>
        ensures { ReadsBy (gives self.now) (D.at_hand reader.old) (D.at_hand reader.new) result };
}

impl<'t> ShapeReader for ValueReader<'t> {
    ghost use Rattle.smithy_serde.specs.ValueReading.{gives_structure};

    type Output = StructValue<'t>;

    ghost gives = { gives_structure };

    fn read<D: ShapeDeserializer>(
        &self,
        alloc: Global,
        reader: &mut D,
    ) -> Result<StructValue<'t>, SerdeError> {
        let Some(schema) = self.table.get(self.schema) else {
            unreachable!()
        };
        let writes = read_struct_value(alloc, reader, self.table, shape_of(schema))?;
        Ok(StructValue::with_writes(self.table, self.schema, writes))
    }
}
