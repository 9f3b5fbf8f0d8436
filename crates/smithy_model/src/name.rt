// Names of shapes and traits.
ghost use Rattle.std.specs.Prelude.{◌≡◌};
ghost use Rattle.smithy_model.specs.Names.{is_full_name};

/// Whether a text is a full name: it has a `#`, and no `$` behind its first one.
pub fn is_full_name(name: &str) -> bool
    ensures { result ≡ is_full_name name.now }
{
    match name.split_once('#') {
        Some((_, shape)) => !shape.as_bytes().contains(&b'$'),
        None => false,
    }
}
