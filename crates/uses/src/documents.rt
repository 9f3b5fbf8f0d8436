// Documents: a structure as a document with the name of its shape, and back.
ghost use Rattle.uses.specs.RoundTrip.{ComesBack, ComesBackFrom};

use smithy_document::DiscriminatedDocumentExt;
use smithy_document::laws::{documents_are_read_back, documents_tell_normal_forms};
use smithy_serde::{SerdeError, SerializableStruct, StructValue, ValueReader};
use smithy_types::{DiscriminatedDocument, NoSettings};
use std::alloc::Global;

/// The structure that a document is read as: of a document of writes that follow the reader's node, their normal form.
/// It is refused where a number of the document has two forms. Takes memory.
pub fn structure_in<'t>(
    alloc: Global,
    document: &DiscriminatedDocument<NoSettings>,
    reader: ValueReader<'t>,
) -> Result<StructValue<'t>, SerdeError>
    ensures { ComesBackFrom reader.entry document.now.document result }
{
    documents_tell_normal_forms();
    documents_are_read_back();
    if !document.document().is_canonical() {
        return Err(SerdeError::invalid_input(alloc, "a number has two forms"));
    }
    document.as_shape(alloc, &reader)
}

/// The structure that a structure's document is read as: its normal form, where it follows the reader's node. Takes
/// memory.
pub fn through_document<'t>(
    alloc: Global,
    value: &dyn SerializableStruct,
    reader: ValueReader<'t>,
) -> Result<StructValue<'t>, SerdeError>
    ensures { ComesBack reader.entry (writes value.now) result }
{
    documents_tell_normal_forms();
    let told = DiscriminatedDocument::<NoSettings>::from_struct(alloc, value.schema(), value)?;
    structure_in(alloc, &told, reader)
}
