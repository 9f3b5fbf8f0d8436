// A text with the texts that it spells as a list.
use smithy_http::{HttpError, ListFault, list_texts};
use smithy_types::{OutOfMemory, Text, Words};
use std::alloc::Global;
use std::marker::Model;

// A text, seen as it is. What it spells as a list is kept beside it, so that a list is opened, told and read again
// without memory.
#[derive(Drop)]
pub(crate) struct InputText {
    text: Text,
    listed: Result<Words, ListFault>,
}

impl Model for InputText {
    ghost use Rattle.std.specs.Prelude.{◌≡◌, List, ℕ};
    ghost use Rattle.smithy_http.specs.ListTexts.{list_texts};

    ghost Value = { List ℕ };

    ghost view = { λ a. a.text };

    ghost invariant = { λ a. a.listed ≡ list_texts a.text };
}

impl InputText {
    ghost use Rattle.std.specs.Prelude.{◌≡◌, Ok, Err, IfOk, MatchResult};
    ghost use Rattle.smithy_http.specs.ListTexts.{list_texts as texts_of};

    // A copy of the text.
    pub(crate) fn new(alloc: Global, text: &str) -> Result<InputText, OutOfMemory>
        ensures { IfOk result (λ t. t ≡ text.now) }
    {
        let listed = match list_texts(alloc, text) {
            Ok(texts) => Ok(texts),
            Err(HttpError::List(fault)) => Err(fault),
            Err(_) => return Err(OutOfMemory),
        };
        let text = Text::from_str(alloc, text)?;
        Ok(InputText { text, listed })
    }

    pub(crate) fn as_str(&self) -> &str
        ensures { result.now ≡ self.now }
    {
        self.text.as_str()
    }

    // The texts that it spells as a list, or why it spells none.
    pub(crate) fn listed(&self) -> Result<&Words, ListFault>
        ensures { MatchResult result (λ ts. texts_of self.now ≡ Ok ts.now) (λ f. texts_of self.now ≡ Err f) }
    {
        match &self.listed {
            Ok(texts) => Ok(texts),
            Err(fault) => Err(*fault),
        }
    }
}
