// Texts of one's own.
ghost use Rattle.std.specs.Prelude.{◌≡◌, IfOk, IsTrue};
ghost use Rattle.std.specs.Str.{is_utf8};

use smithy_types::{OutOfMemory, Text};
use std::alloc::Global;

/// A copy of the text.
pub(crate) fn copied_text(alloc: Global, text: &str) -> Result<Text, OutOfMemory>
    ensures text { IfOk result (λ t. t ≡ text.now) }
    ensures utf8 { IfOk result (λ t. IsTrue (is_utf8 t)) }
{
    Ok(Text::from_str(alloc, text)?)
}
