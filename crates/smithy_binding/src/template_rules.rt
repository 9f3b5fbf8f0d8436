// The first rule of a checked schema that its method and its template break (Smithy, HTTP protocol bindings, http).
ghost use Rattle.std.specs.Prelude.{◌≡◌, IfOk};
ghost use Rattle.smithy_binding.specs.Words.{schema_of};
ghost use Rattle.smithy_binding.specs.views.Checking.{shown, texts_shown};
ghost use Rattle.smithy_binding.specs.views.Breaking.{path_rule_for, hole_rule_for, cut_rule_for, template_rule_for, template_rule_among, http_rule_among};
ghost use Rattle.smithy_binding.specs.views.CutTemplate.{template_shown};

use crate::clear::{
    are_whole_segments, filled_by_a, has_unclosed_brace, has_whole_authority, have_one_hole,
    hole_count, is_greedy_last,
};
use crate::members::{Counted, count};
use crate::name_check::{NameKind, names_of};
use crate::place::uri_template;
use crate::rules::Rule;
use crate::template::{CutTemplate, cut_template};
use crate::uri_template::UriTemplate;
use smithy_schema::SchemaRef;
use smithy_types::{is_token, legal_target};
use std::alloc::{AllocError, Global};

// Of the path, where the template with `a` in each hole is this text.
fn path_rule(template: &CutTemplate<'_>, filled: &str) -> Option<Rule>
    ensures { result ≡ path_rule_for (template_shown template.now) filled.now }
{
    if !legal_target(filled) {
        return Some(Rule::LegalTemplate);
    }
    if !are_whole_segments(template) {
        return Some(Rule::WholeSegments);
    }
    if !has_whole_authority(template) {
        return Some(Rule::WholeAuthority);
    }
    None
}

// Of the holes, where `have_one` says of the label names whether each is that of one hole.
fn hole_rule(template: &CutTemplate<'_>, have_one: bool, count: usize) -> Option<Rule>
    ensures { result ≡ hole_rule_for (template_shown template.now) have_one count }
{
    if !have_one || hole_count(template) != count {
        return Some(Rule::LabelHoles);
    }
    if !is_greedy_last(template) {
        return Some(Rule::GreedyLast);
    }
    None
}

// Of the template, for labels of these names, of which there are `count`, those without a name included.
fn cut_rule<'t>(
    alloc: Global,
    template: &CutTemplate<'t>,
    labels: &[&'t str],
    count: usize,
) -> Result<Option<Rule>, AllocError>
    ensures { IfOk result
        (λ r. r ≡ cut_rule_for (template_shown template.now) (texts_shown labels.now) count) }
{
    let filled = filled_by_a(alloc, template)?;
    if let Some(rule) = path_rule(template, filled.as_str()) {
        return Ok(Some(rule));
    }
    let have_one = have_one_hole(alloc, template, labels)?;
    match hole_rule(template, have_one, count) {
        Some(rule) => Ok(Some(rule)),
        None => Ok(None),
    }
}

// The same of a template before it is cut.
fn template_rule<'t>(
    alloc: Global,
    uri: UriTemplate<'t>,
    labels: &[&'t str],
    count: usize,
) -> Result<Option<Rule>, AllocError>
    ensures { IfOk result
        (λ r. r ≡ template_rule_for uri.entry.text.now (texts_shown labels.now) count) }
{
    if has_unclosed_brace(uri.text) {
        return Ok(Some(Rule::ClosedBraces));
    }
    let template = cut_template(alloc, uri)?;
    match cut_rule(alloc, &template, labels, count)? {
        Some(rule) => Ok(Some(rule)),
        None => Ok(None),
    }
}

// Of the template, for the labels among these members.
fn template_rule_among<'t>(
    alloc: Global,
    template: UriTemplate<'t>,
    members: &[SchemaRef<'t>],
) -> Result<Option<Rule>, AllocError>
    ensures { IfOk result
        (λ r. r ≡ template_rule_among template.entry.text.now (shown members.now)) }
{
    let labels = names_of(alloc, members, NameKind::Label)?;
    let count = count(members, Counted::Label);
    template_rule(alloc, template, labels.as_slice(), count)
}

/// Of `@http`, where the schema has it: the method is a token, and the template is clear and begins with `/`. Takes
/// memory.
pub fn http_rule<'t>(
    alloc: Global,
    schema: SchemaRef<'t>,
    members: &[SchemaRef<'t>],
) -> Result<Option<Rule>, AllocError>
    ensures { IfOk result (λ r. r ≡ http_rule_among (schema_of schema.entry) (shown members.now)) }
{
    let Some(http) = schema.http() else {
        return Ok(None);
    };
    if !is_token(http.method()) {
        return Ok(Some(Rule::MethodToken));
    }
    if let Some(rule) = template_rule_among(alloc, uri_template(schema, ""), members)? {
        return Ok(Some(rule));
    }
    if !http.uri().as_bytes().starts_with(b"/") {
        return Ok(Some(Rule::LeadingSlash));
    }
    Ok(None)
}
