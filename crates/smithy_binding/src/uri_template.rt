// The template of a request: its schema's own, which is cut already, or an endpoint's, which is cut as it is filled.
ghost use Rattle.std.specs.Prelude.{◌≡◌};
ghost use Rattle.smithy_binding.specs.Words.{pieces};
ghost use Rattle.smithy_binding.specs.views.LeftTemplates.{template_left};

use crate::template_rest::TemplateRest;

/// A template: its text, and what its holes are taken from.
#[derive(Clone, Copy)]
pub struct UriTemplate<'t> {
    pub text: &'t str,
    pub rest: TemplateRest<'t>,
    ghost same: { template_left rest ≡ pieces text.now },
}
