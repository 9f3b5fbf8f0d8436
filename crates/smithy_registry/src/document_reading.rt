// Documents, read by what is registered for their discriminators.
ghost use Rattle.std.specs.Prelude.{IsTrue};
ghost use Rattle.smithy_types.specs.Documents.{is_canonical};
ghost use Rattle.smithy_registry.specs.Discriminators.{Deserializes};

use crate::type_registry::TypeRegistry;
use smithy_document::{DiscriminatedDocumentExt, ShapeSettings};
use smithy_serde::{SerdeError, ShapeReader};
use smithy_types::DiscriminatedDocument;
use std::alloc::Global;

impl<R: ShapeReader + Drop> TypeRegistry<R> {
    /// Reads a document as the shape that its discriminator names. It is refused with `InvalidInput` where it has none,
    /// with `UnknownMember` where nothing is registered under that name, and else as what reads the shape refuses. Condition:
    /// the document is canonical. Takes the memory that the reading wants.
    pub fn deserialize_document<S: ShapeSettings>(
        &self,
        alloc: Global,
        document: &DiscriminatedDocument<S>,
    ) -> Result<R::Output, SerdeError>
        requires { IsTrue (is_canonical document.now.document) }
        ensures { Deserializes R.gives S.tells self.now document.now result }
    {
        let Some(name) = document.discriminator() else {
            return Err(SerdeError::invalid_input(
                alloc,
                "document has no discriminator; cannot resolve shape via TypeRegistry",
            ));
        };
        let Some(entry) = self.entry_for_fqn(name) else {
            return Err(SerdeError::unknown_member(alloc, name));
        };
        document.as_shape(alloc, entry.deserialize_fn())
    }
}
