// Templates, cut at their holes (Smithy, HTTP protocol bindings, http trait, uri).
ghost use Rattle.std.specs.Prelude.{◌≡◌, IfOk};
ghost use Rattle.smithy_binding.specs.Words.{pieces};
ghost use Rattle.smithy_binding.specs.views.CutTemplate.{template_shown};
ghost use Rattle.smithy_binding.specs.views.LeftTemplates.{template_left};

use crate::template_rest::TemplateRest;
use crate::uri_template::UriTemplate;
use smithy_schema::CutHole;
use std::alloc::{AllocError, Global};

/// A template: holes, each behind its literal, and the last literal.
#[derive(Drop)]
pub struct CutTemplate<'t> {
    pub holes: Vec<CutHole<'t>>,
    pub last: &'t str,
}

/// The holes and literals of what is left of a template. Takes memory for the list of holes, linear in their number.
#[tactic(auto, using(crate::proofs::HoleLemmas::holing))]
pub fn cut_rest<'t>(
    alloc: Global,
    template: TemplateRest<'t>,
) -> Result<CutTemplate<'t>, AllocError>
    ensures { IfOk result (λ t. template_shown t ≡ template_left template.entry) }
{
    let mut holes = Vec::new(alloc);
    let mut rest = template;
    while let Some((hole, behind)) = rest.next_hole() {
        holes.push(hole)?;
        rest = behind;
    }
    Ok(CutTemplate {
        holes,
        last: rest.last_literal(),
    })
}

/// The same of a whole template.
pub fn cut_template<'t>(
    alloc: Global,
    template: UriTemplate<'t>,
) -> Result<CutTemplate<'t>, AllocError>
    ensures { IfOk result (λ t. template_shown t ≡ pieces template.entry.text.now) }
{
    cut_rest(alloc, template.rest)
}

/// The template's holes and literals. Takes memory for the list of holes, linear in their number.
pub fn cut<'t>(alloc: Global, text: &'t str) -> Result<CutTemplate<'t>, AllocError>
    ensures { IfOk result (λ t. template_shown t ≡ pieces text.now) }
{
    cut_rest(alloc, TemplateRest::Text(text))
}
