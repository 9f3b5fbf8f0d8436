// Laws on identifiers.
ghost use Rattle.smithy_ids.specs.ShapeIds.{NamesTellParts};

/// Equal full names have equal parts: the namespace has no `#`, and the shape's name has no `$`. It does no work.
pub fn names_tell_parts()
    ensures { NamesTellParts }
{}
