// The first hole of a template, and what stands behind it (Smithy, HTTP protocol bindings, http trait, uri).
ghost use Rattle.std.specs.Prelude.{◌≡◌};
ghost use Rattle.smithy_schema.specs.Templates.{hole_of};
ghost use Rattle.smithy_schema.specs.views.CutHoles.{hole_shown, CutsAtClose, CutsAtOpen, IsGreedyName, CutsHole};

/// A hole and the literal before it.
#[derive(Drop)]
pub struct CutHole<'t> {
    pub literal: &'t str,
    pub name: &'t str,
    pub is_greedy: bool,
}

// The text before a `}` and the text behind it.
fn cut_at_close<'t>(text: &'t str) -> Option<(&'t str, &'t str)>
    ensures { CutsAtClose text.now result }
{
    text.split_once('}')
}

// The text before a `{` and the text behind it.
fn cut_at_open<'t>(text: &'t str) -> Option<(&'t str, &'t str)>
    ensures { CutsAtOpen text.now result }
{
    text.split_once('{')
}

// The name of a hole that is greedy.
fn greedy_name<'t>(hole: &'t str) -> Option<&'t str>
    ensures { IsGreedyName hole.now result }
{
    hole.strip_suffix('+')
}

// The hole of this text, behind a literal.
fn hole_behind<'t>(literal: &'t str, hole: &'t str) -> CutHole<'t>
    ensures literal { result.literal.now ≡ literal.now }
    ensures hole { hole_shown result ≡ hole_of hole.now }
{
    match greedy_name(hole) {
        Some(name) => CutHole {
            literal,
            name,
            is_greedy: true,
        },
        None => CutHole {
            literal,
            name: hole,
            is_greedy: false,
        },
    }
}

/// The first hole, behind its literal, and the text behind it. Takes no memory.
#[tactic(auto, using(crate::proofs::PieceLemmas::cutting))]
pub fn cut_hole<'t>(text: &'t str) -> Option<(CutHole<'t>, &'t str)>
    ensures { CutsHole text.now result }
{
    let Some((literal, behind)) = cut_at_open(text) else {
        return None;
    };
    let Some((hole, next)) = cut_at_close(behind) else {
        return None;
    };
    Some((hole_behind(literal, hole), next))
}
