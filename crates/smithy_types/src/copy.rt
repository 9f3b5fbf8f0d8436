// Equal documents.
ghost use Rattle.std.specs.Prelude.{◌≡◌, IfOk};
ghost use Rattle.smithy_types.specs.views.DocumentView.{view, items_view, members_view};

use crate::document::{Document, Documents, Members};
use crate::error::OutOfMemory;
use crate::text::Text;
use std::alloc::Global;

impl Document {
    /// An equal document. Takes memory.
    #[cycle(copied)]
    pub fn copy(&self, alloc: Global) -> Result<Document, OutOfMemory>
        ensures { IfOk result (λ d. view d ≡ view self.now) }
    {
        Ok(match self {
            Document::String(text) => Document::String(Text::from_str(alloc, text.as_str())?),
            Document::Array(items) => Document::Array(items.copy(alloc)?),
            Document::Object(members) => Document::Object(members.copy(alloc)?),
            Document::Number(number) => Document::Number(*number),
            Document::Bool(truth) => Document::Bool(*truth),
            Document::Null => Document::Null,
        })
    }
}

impl Documents {
    #[cycle(copied)]
    fn copy(&self, alloc: Global) -> Result<Documents, OutOfMemory>
        ensures { IfOk result (λ ds. items_view ds ≡ items_view self.now) }
    {
        let mut items = Vec::with_capacity(alloc, self.len())?;
        for item in &self.items {
            items.push(item.copy(alloc)?)?;
        }
        Ok(Documents { items })
    }
}

impl Members {
    #[cycle(copied)]
    fn copy(&self, alloc: Global) -> Result<Members, OutOfMemory>
        ensures { IfOk result (λ ms. members_view ms ≡ members_view self.now) }
    {
        let mut found = Members::new(alloc);
        for (name, value) in self.entries.iter() {
            found.insert(Text::from_str(alloc, name.as_str())?, value.copy(alloc)?)?;
        }
        Ok(found)
    }
}
