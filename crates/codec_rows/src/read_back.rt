// A document that is read back, by what the laws say.
ghost use Rattle.std.specs.Prelude.{IsTrue};
ghost use Rattle.smithy_types.specs.DocumentView.{view};
ghost use Rattle.smithy_types.specs.Documents.{is_canonical};
ghost use Rattle.smithy_serde.specs.StoredValues.{HasNode};
ghost use Rattle.codec_rows.specs.ReadBack.{ReadsBackAt};

use smithy_document::DocumentShapeDeserializer;
use smithy_document::laws::{documents_are_read_back, schemas_stand};
use smithy_schema::{SchemaIndex, Schemas};
use smithy_serde::{SerdeError, ShapeValue, read_value};
use smithy_types::Document;
use std::alloc::Global;

/// The document by the node: the normal form of each value that follows the node and has the document, or memory was wanted.
pub fn read_back(
    alloc: Global,
    document: &Document,
    table: &Schemas,
    node: SchemaIndex,
) -> Result<ShapeValue, SerdeError>
    requires canonical { IsTrue (is_canonical (view document.now)) }
    requires defined { HasNode table.now node.0 }
    ensures { ReadsBackAt table.now node.0 (view document.now) result }
{
    let Some(schema) = table.get(node) else {
        unreachable!()
    };
    schemas_stand(schema);
    documents_are_read_back();
    let mut reader = DocumentShapeDeserializer::new(document);
    read_value(alloc, &mut reader, table, node)
}
