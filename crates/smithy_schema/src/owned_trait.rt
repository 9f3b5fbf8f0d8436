// Traits that own their name and what they hold.
ghost use Rattle.std.specs.Prelude.{◌≡◌, IfOk, Some};
ghost use Rattle.smithy_ids.specs.ShapeIds.{parts_in};
ghost use Rattle.smithy_ids.specs.ShapeIdParts.{parts_of};
ghost use Rattle.smithy_types.specs.DocumentView.{view};
ghost use Rattle.smithy_schema.specs.views.OwnedTraits.{name_of};

use crate::shape_id_buf::ShapeIdBuf;
use smithy_ids::ShapeId;
use smithy_types::{Document, OutOfMemory, Text};
use std::alloc::Global;
use std::marker::Model;

/// A trait that holds nothing (Smithy, annotation traits), seen as its full name.
#[derive(Drop)]
pub struct AnnotationTrait {
    id: ShapeIdBuf,
}

impl Model for AnnotationTrait {
    ghost use Rattle.std.specs.Prelude.{List, ℕ};

    ghost Value = { List ℕ };

    ghost view = { λ t. t.id };
}

impl AnnotationTrait {
    /// The trait of this name. It takes memory for a copy of the name.
    pub fn new(alloc: Global, id: ShapeId<'_>) -> Result<Self, OutOfMemory>
        ensures { IfOk result (λ t. t ≡ (parts_of id.entry).full_name) }
    {
        let id = ShapeIdBuf::copied(alloc, id)?;
        Ok(AnnotationTrait { id })
    }
}

/// A trait that holds a text, seen as its full name and that text.
#[derive(Drop)]
pub struct StringTrait {
    id: ShapeIdBuf,
    text: Text,
}

impl Model for StringTrait {
    ghost use Rattle.std.specs.Prelude.{List, ℕ};

    ghost Value = { List ℕ × List ℕ };

    ghost view = { λ t. (t.id, t.text) };
}

impl StringTrait {
    /// The trait of this name that holds this text. It takes memory for copies of both.
    pub fn new(alloc: Global, id: ShapeId<'_>, value: &str) -> Result<Self, OutOfMemory>
        ensures { IfOk result (λ t. t ≡ ((parts_of id.entry).full_name, value.now)) }
    {
        let id = ShapeIdBuf::copied(alloc, id)?;
        let text = Text::from_str(alloc, value)?;
        Ok(StringTrait { id, text })
    }

    /// The text. Takes no memory.
    pub fn value(&self) -> &str
        ensures { result.now ≡ self.now.1 }
    {
        self.text.as_str()
    }
}

/// A trait that holds any value, as a document: seen as its full name and that document.
#[derive(Drop)]
pub struct DocumentTrait {
    id: ShapeIdBuf,
    document: Document,
}

impl Model for DocumentTrait {
    ghost use Rattle.std.specs.Prelude.{List, ℕ};
    ghost use Rattle.std.specs.Coded.{coded×, coded_ℕ, coded_list};
    ghost use Rattle.smithy_types.specs.Documents as doc;
    ghost use Rattle.smithy_types.specs.DocumentCode.{coded_document};
    ghost use Rattle.smithy_types.specs.DocumentView as seen;

    ghost Value = { List ℕ × doc.Document };

    ghost coded = { coded× (coded_list coded_ℕ) coded_document };

    ghost view = { λ t. (t.id, seen.view t.document) };
}

impl DocumentTrait {
    /// The trait of this name that holds this document. It takes memory for a copy of the name.
    pub fn new(alloc: Global, id: ShapeId<'_>, value: Document) -> Result<Self, OutOfMemory>
        ensures { IfOk result (λ t. t ≡ ((parts_of id.entry).full_name, view value)) }
    {
        let id = ShapeIdBuf::copied(alloc, id)?;
        Ok(DocumentTrait {
            id,
            document: value,
        })
    }

    /// The document. Takes no memory.
    pub fn value(&self) -> &Document
        ensures { view result.now ≡ self.now.1 }
    {
        &self.document
    }
}

/// A trait without a field of its own in a description.
#[derive(Drop)]
pub enum Trait {
    Annotation(AnnotationTrait),
    String(StringTrait),
    Document(DocumentTrait),
}

impl Trait {
    fn id(&self) -> &ShapeIdBuf
        ensures { result.now ≡ name_of self.now }
    {
        match self {
            Trait::Annotation(annotation) => &annotation.id,
            Trait::String(text) => &text.id,
            Trait::Document(document) => &document.id,
        }
    }

    // The full name.
    pub(crate) fn name(&self) -> &str
        ensures { result.now ≡ name_of self.now }
    {
        self.id().as_str()
    }

    /// The identifier of the trait: the parts of its full name. Takes no memory.
    pub fn trait_id(&self) -> ShapeId<'_>
        ensures { parts_in (name_of self.now) ≡ Some (parts_of result) }
    {
        self.id().as_id()
    }
}
