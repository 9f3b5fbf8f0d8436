// A piece of a template (Smithy, HTTP protocol bindings, http trait, uri).
use smithy_types::Text;

/// A piece of a template.
#[derive(Debug, Drop)]
pub enum Piece {
    /// A text that stands in the target as it is. It may be empty.
    Literal(Text),
    /// Where a label's text goes, by the name of its member: `{name}`, or `{name+}`, which is greedy.
    Hole { name: Text, greedy: bool },
}
