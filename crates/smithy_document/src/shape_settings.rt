// Settings by which documents are read as shapes.
ghost use Rattle.std.specs.Prelude.{Bool, true, IsTrue};
ghost use Rattle.smithy_document.specs.Words.{view, is_canonical, Begins, then_some};
ghost use Rattle.smithy_serde.specs.Held as held;
ghost use Rattle.smithy_document.specs.views.DocumentHand.{hand};

use crate::deserializer::DocumentShapeDeserializer;
use smithy_types::{Document, DocumentSettings, NoSettings};

/// Settings by which documents are read as shapes, with their reader of a document. Settings of another crate's own answer
/// with `DocumentShapeDeserializer::new_with_settings`, and do not tell what is held.
pub trait ShapeSettings: DocumentSettings + Sized {
    /// Whether their reader tells what it holds.
    ghost tells: { Bool };

    /// A reader of the document by these settings. Condition: the document is canonical. Takes no memory.
    fn reader<'a>(&'a self, document: &'a Document) -> DocumentShapeDeserializer<'a, Self>
        requires { IsTrue (is_canonical (view document.now)) }
        ensures { Begins (then_some tells (held.document (view document.entry.now))) (hand result) };
}

impl ShapeSettings for NoSettings {
    ghost tells = { true };

    fn reader<'a>(&'a self, document: &'a Document) -> DocumentShapeDeserializer<'a, NoSettings> {
        DocumentShapeDeserializer::new(document)
    }
}
