// Texts with their names, in byte order of these.
ghost use Rattle.std.specs.Prelude.{IfOk};
ghost use Rattle.smithy_recovery.specs.views.NameOrder.{texts_seen, IsInOrder};

use smithy_types::OutOfMemory;

/// A text with its name.
#[derive(Clone, Copy)]
pub struct NamedText<'t> {
    pub name: &'t str,
    pub text: &'t str,
}

/// The texts in byte order of their names, those of one name in their order. Takes memory where there are more than 20.
pub fn in_name_order<'t>(mut texts: Vec<NamedText<'t>>) -> Result<Vec<NamedText<'t>>, OutOfMemory>
    ensures { IfOk result (λ v. IsInOrder (texts_seen texts.entry) (texts_seen v)) }
{
    texts.sort_by_key(|text| text.name)?;
    Ok(texts)
}
