// Templates that leave no doubt which text a hole has.
ghost use Rattle.std.specs.Prelude.{◌≡◌, IfOk, length, map, string_bytes};
ghost use Rattle.smithy_binding.specs.Words.{after_last, list_all, has_unclosed_brace, holes_of};
ghost use Rattle.smithy_binding.specs.Clear.{filled_by_a, ends_segment, begins_segment, are_whole_segments, has_whole_authority, is_greedy_last};
ghost use Rattle.smithy_binding.specs.views.Checking.{is_clear_for, texts_shown};
ghost use Rattle.smithy_binding.specs.views.ClearParts.{is_marked_once, MarksOnce, have_one_hole, is_clear_path, are_clear_holes};
ghost use Rattle.smithy_binding.specs.views.CutTemplate.{hole_shown, template_shown};
ghost use Rattle.smithy_binding.specs.views.TargetParts.{is_close};

use crate::template::{CutTemplate, cut_template};
use crate::uri_template::UriTemplate;
use smithy_schema::CutHole;
use smithy_types::{before_query, behind_scheme, legal_target};
use std::alloc::{AllocError, Global};
use std::collections::BTreeMap;

// What stands behind the last `}`.
fn behind_last_close(bytes: &[u8]) -> &[u8]
    ensures { result.now ≡ after_last is_close bytes.now }
{
    let mut start = 0;
    for (i, b) in bytes.iter().enumerate() {
        if *b == b'}' {
            start = i + 1;
        }
    }
    &bytes[start..]
}

/// Whether a `{` stands behind the last `}`.
pub fn has_unclosed_brace(text: &str) -> bool
    ensures { result ≡ has_unclosed_brace text.now }
{
    behind_last_close(text.as_bytes()).contains(&b'{')
}

/// The template with each hole filled by `a`.
pub fn filled_by_a(alloc: Global, template: &CutTemplate<'_>) -> Result<String, AllocError>
    ensures { IfOk result (λ t. string_bytes t ≡ filled_by_a (template_shown template.now)) }
{
    let mut out = String::new(alloc);
    for hole in template.holes.iter() {
        out.push_str(hole.literal)?;
        out.push_str("a")?;
    }
    out.push_str(template.last)?;
    Ok(out)
}

// The literal may stand before a hole.
fn ends_segment(literal: &[u8]) -> bool
    ensures { result ≡ ends_segment literal.now }
{
    literal.ends_with(b"/") && !literal.contains(&b'?')
}

// The literal may stand behind a hole.
fn begins_segment(literal: &[u8]) -> bool
    ensures { result ≡ begins_segment literal.now }
{
    literal.is_empty() || literal.starts_with(b"/") || literal.starts_with(b"?")
}

/// Whether every hole is a whole segment of the path.
pub fn are_whole_segments(template: &CutTemplate<'_>) -> bool
    ensures { let shown = template_shown template.now in
        result ≡ are_whole_segments shown.first shown.rest }
{
    let mut is_behind = false;
    for hole in template.holes.iter() {
        let literal = hole.literal.as_bytes();
        if is_behind && !begins_segment(literal) {
            return false;
        }
        if !ends_segment(literal) {
            return false;
        }
        is_behind = true;
    }
    !is_behind || begins_segment(template.last.as_bytes())
}

// The literal before the first hole.
fn first_literal<'t>(template: &CutTemplate<'t>) -> &'t str
    ensures { result.now ≡ (template_shown template.now).first }
{
    match template.holes.first() {
        Some(hole) => hole.literal,
        None => template.last,
    }
}

/// Whether, in absolute form, the authority and the `/` behind it stand before the first hole and before any query.
pub fn has_whole_authority(template: &CutTemplate<'_>) -> bool
    ensures { result ≡ has_whole_authority (template_shown template.now) }
{
    let stem = before_query(first_literal(template)).as_bytes();
    let rest = behind_scheme(stem);
    rest.len() == stem.len() || rest.contains(&b'/')
}

/// Whether no hole but the last is greedy.
pub fn is_greedy_last(template: &CutTemplate<'_>) -> bool
    ensures { result ≡ is_greedy_last (holes_of (template_shown template.now)) }
{
    let mut is_greedy = false;
    for hole in template.holes.iter() {
        if is_greedy {
            return false;
        }
        is_greedy = hole.is_greedy;
    }
    true
}

// For each name of a hole, whether one hole alone has it.
fn names_once<'t>(
    alloc: Global,
    holes: &[CutHole<'t>],
) -> Result<BTreeMap<&'t str, bool>, AllocError>
    ensures { IfOk result (MarksOnce (map hole_shown holes.now)) }
{
    let mut once = BTreeMap::new(alloc);
    for hole in holes {
        let is_first = once.get(&hole.name).is_none();
        once.insert(hole.name, is_first)?;
    }
    Ok(once)
}

// Whether the name stands once.
#[tactic(auto, unfolding(crate::specs::views::ClearParts::is_marked_once))]
fn is_once<'t>(once: &BTreeMap<&'t str, bool>, name: &'t str) -> bool
    ensures { result ≡ is_marked_once once.now name.now }
{
    once.get(&name).copied().unwrap_or(false)
}

fn are_once<'t>(once: &BTreeMap<&'t str, bool>, names: &[&'t str]) -> bool
    ensures { result ≡ list_all (λ name. is_marked_once once.now name.now) names.now }
{
    for name in names {
        if !is_once(once, name) {
            return false;
        }
    }
    true
}

/// Whether each name is that of one hole alone.
pub fn have_one_hole<'t>(
    alloc: Global,
    template: &CutTemplate<'t>,
    names: &[&'t str],
) -> Result<bool, AllocError>
    ensures { IfOk result (λ b. b ≡ have_one_hole names.now (template_shown template.now)) }
{
    let once = names_once(alloc, template.holes.as_slice())?;
    Ok(are_once(&once, names))
}

/// How many holes the template has.
pub fn hole_count(template: &CutTemplate<'_>) -> usize
    ensures { result ≡ length (holes_of (template_shown template.now)) }
{
    template.holes.as_slice().len()
}

// With `a` in each hole it is a legal target, and the holes are whole segments of its path.
fn is_clear_path(template: &CutTemplate<'_>, filled: &str) -> bool
    ensures { result ≡ is_clear_path (template_shown template.now) filled.now }
{
    legal_target(filled) && are_whole_segments(template) && has_whole_authority(template)
}

// Of the label names `have_one` says whether each is that of one hole; there is no other hole, and only the last is greedy.
fn are_clear_holes(template: &CutTemplate<'_>, have_one: bool, count: usize) -> bool
    ensures { result ≡ are_clear_holes (holes_of (template_shown template.now)) have_one count }
{
    have_one && hole_count(template) == count && is_greedy_last(template)
}

/// Whether the template is clear for labels of these names, of which there are `count`, those without a name
/// included: no `{` is left open, with `a` in each hole it is a legal target, its holes are whole segments of the
/// path, one for each label and no other, and only the last may be greedy. Takes memory.
pub fn is_clear<'t>(
    alloc: Global,
    uri: UriTemplate<'t>,
    labels: &[&'t str],
    count: usize,
) -> Result<bool, AllocError>
    ensures { IfOk result
        (λ b. b ≡ is_clear_for uri.entry.text.now (texts_shown labels.now) count) }
{
    if has_unclosed_brace(uri.text) {
        return Ok(false);
    }
    let template = cut_template(alloc, uri)?;
    let filled = filled_by_a(alloc, &template)?;
    if !is_clear_path(&template, filled.as_str()) {
        return Ok(false);
    }
    let have_one = have_one_hole(alloc, &template, labels)?;
    Ok(are_clear_holes(&template, have_one, count))
}
