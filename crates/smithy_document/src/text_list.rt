// Texts that stand in one buffer.
ghost use Rattle.smithy_document.specs.views.JsonTree.{text_at};

use smithy_types::OutOfMemory;
use std::alloc::Global;
use std::marker::Model;

/// A list of texts that stand in one buffer, seen as the list of them in order.
#[derive(Drop)]
pub(crate) struct TextList {
    bytes: String,
    // Where each text begins and ends.
    cuts: Vec<(usize, usize)>,
}

impl Model for TextList {
    ghost use Rattle.std.specs.Prelude.{List, ℕ, string_bytes};
    ghost use Rattle.smithy_document.specs.views.TextCuts.{pieces, AreCuts};

    ghost Value = { List (List ℕ) };

    ghost view = { λ a. pieces (string_bytes a.bytes) a.cuts.items };

    ghost invariant = { λ a. AreCuts (string_bytes a.bytes) a.cuts.items };
}

impl TextList {
    ghost use Rattle.std.specs.Prelude.{◌≡◌, ◌++◌, ◌∷◌, [], length, IfOk, OnOk, OnErr};

    /// No texts, and room for so many bytes of them.
    pub(crate) fn with_capacity(alloc: Global, bytes: usize) -> Result<TextList, OutOfMemory>
        ensures { IfOk result (λ texts. texts ≡ []) }
    {
        Ok(TextList {
            bytes: String::with_capacity(alloc, bytes)?,
            cuts: Vec::new(alloc),
        })
    }

    /// Adds a copy of the text at the end, and gives its position, counted from 0.
    #[inline(always)]
    pub(crate) fn push(&mut self, text: &str) -> Result<usize, OutOfMemory>
        ensures position { IfOk result (λ position. position ≡ length self.old) }
        ensures ok { OnOk result (self.new ≡ self.old ++ text.now ∷ []) }
        ensures err { OnErr result (self.new ≡ self.old) }
    {
        let position = self.cuts.len();
        let start = self.bytes.len();
        self.cuts.try_reserve(1)?;
        self.bytes.push_str(text)?;
        self.cuts.push_reserved((start, self.bytes.len()));
        Ok(position)
    }

    /// The text at a position, and the empty one behind the last.
    pub(crate) fn get(&self, position: usize) -> &str
        ensures { result.now ≡ text_at self.now position }
    {
        match self.cuts.get(position) {
            Some(cut) => &self.bytes.as_str()[cut.0..cut.1],
            None => "",
        }
    }
}
