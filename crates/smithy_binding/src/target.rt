// A request target: the template with its holes filled (Smithy, HTTP protocol bindings, httpLabel).
ghost use Rattle.std.specs.Prelude.{◌≡◌, ◌++◌, IfOk, IfErr, OnOk, Ok, map, option_map, string_bytes};
ghost use Rattle.smithy_binding.specs.Words.{has_byte};
ghost use Rattle.smithy_binding.specs.Filling.{fill, filled_by, keep_slashes};
ghost use Rattle.smithy_binding.specs.Faults.{filled_fault};
ghost use Rattle.smithy_binding.specs.Refusing.{IsTold, Says};
ghost use Rattle.smithy_binding.specs.views.Seen.{label_pair};
ghost use Rattle.smithy_binding.specs.views.LabelTexts.{text_under, label_text, is_text, missing_in, long_fault, target_in, Extends, LacksLabel, IsTextOf, IsFaultOf};
ghost use Rattle.smithy_binding.specs.views.LeftTemplates.{template_left};
ghost use Rattle.smithy_binding.specs.views.TargetParts.{separator, target_behind, text_by, one_query, IsBehindFirst};

use crate::labels::{Label, LabelTexts, text_of_label, texts_by_name};
use crate::refusal::{missing_hole, too_long};
use crate::template_rest::TemplateRest;
use crate::uri_template::UriTemplate;
use percent_encoding::{AsciiSet, NON_ALPHANUMERIC, ascii_set, utf8_percent_encode};
use smithy_serde::SerdeError;
use smithy_strings::push_escaped;
use smithy_types::{MAX_TARGET_LEN, OutOfMemory};
use std::alloc::Global;

const ESCAPED_BUT_SLASH: AsciiSet = ascii_set!(
    NON_ALPHANUMERIC
        .remove(b'-')
        .remove(b'.')
        .remove(b'_')
        .remove(b'~')
        .remove(b'/')
);

fn push_path(out: &mut String, text: &str) -> Result<(), OutOfMemory>
    ensures { OnOk result (string_bytes out.new ≡ string_bytes out.old ++ keep_slashes text.now) }
{
    utf8_percent_encode(text, ESCAPED_BUT_SLASH).append_to(out)?;
    Ok(())
}

fn push_hole_text(out: &mut String, is_greedy: bool, text: &str) -> Result<(), OutOfMemory>
    ensures { OnOk result
        (string_bytes out.new ≡ string_bytes out.old ++ text_by is_greedy text.now) }
{
    if is_greedy {
        push_path(out, text)
    } else {
        push_escaped(out, text)
    }
}

fn push_label<'l>(
    alloc: Global,
    out: &mut String,
    name: &'l str,
    is_greedy: bool,
    texts: &LabelTexts<'l>,
) -> Result<(), SerdeError>
    ensures ok { OnOk result (Extends (label_text texts.now name.now is_greedy) out.old out.new) }
    ensures err { IfErr result (LacksLabel name.now (label_text texts.now name.now is_greedy)) }
{
    let Some(text) = text_of_label(texts, name) else {
        return Err(missing_hole(alloc, name));
    };
    if text.is_empty() {
        return Err(missing_hole(alloc, name));
    }
    push_hole_text(out, is_greedy, text)?;
    Ok(())
}

// Whether a label of this name has a text that is not empty.
fn has_text<'l>(texts: &LabelTexts<'l>, name: &'l str) -> bool
    ensures { result ≡ is_text (text_under texts.now name.now) }
{
    match text_of_label(texts, name) {
        Some(text) => !text.is_empty(),
        None => false,
    }
}

// The name of the first hole without a text.
#[tactic(auto, using(crate::proofs::Fills::missing))]
fn first_missing<'l>(template: TemplateRest<'l>, texts: &LabelTexts<'l>) -> Option<&'l str>
    ensures { option_map (λ name. name.now) result
        ≡ missing_in texts.now (template_left template.entry) }
{
    let mut rest = template;
    while let Some((hole, behind)) = rest.next_hole() {
        if !has_text(texts, hole.name) {
            return Some(hole.name);
        }
        rest = behind;
    }
    None
}

// The refusal of a target that is too long before this rest of its template, in which a hole without a text comes first.
fn too_long_before<'l>(alloc: Global, rest: TemplateRest<'l>, texts: &LabelTexts<'l>) -> SerdeError
    ensures { Says result
        (long_fault (filled_by (text_under texts.now) (template_left rest.entry))) }
{
    match first_missing(rest, texts) {
        Some(name) => missing_hole(alloc, name),
        None => too_long(alloc),
    }
}

// The template with the text of each hole, which is not written further than a target goes.
#[tactic(auto, using(crate::proofs::Fills::filling))]
fn fill_by<'l>(
    alloc: Global,
    template: TemplateRest<'l>,
    texts: &LabelTexts<'l>,
    room: usize,
) -> Result<String, SerdeError>
    ensures ok { IfOk result (IsTextOf (filled_by (text_under texts.now) (template_left template.entry))) }
    ensures err { IfErr result (IsFaultOf (filled_by (text_under texts.now) (template_left template.entry))) }
{
    let mut out = String::with_capacity(alloc, room)?;
    let mut rest = template;
    while let Some((hole, behind)) = rest.next_hole() {
        out.push_str(hole.literal)?;
        push_label(alloc, &mut out, hole.name, hole.is_greedy, texts)?;
        if out.len() > MAX_TARGET_LEN {
            return Err(too_long_before(alloc, behind, texts));
        }
        rest = behind;
    }
    out.push_str(rest.last_literal())?;
    Ok(out)
}

// The template with the text of each hole, which the labels have by its name.
#[inline(always)]
fn fill<'l>(
    alloc: Global,
    template: TemplateRest<'l>,
    labels: &'l [Label<'l, 'l>],
    room: usize,
) -> Result<String, SerdeError>
    ensures ok { IfOk result (IsTextOf (fill (template_left template.entry) (map label_pair labels.now))) }
    ensures err { IfErr result (IsFaultOf (fill (template_left template.entry) (map label_pair labels.now))) }
{
    let texts = texts_by_name(alloc, labels)?;
    fill_by(alloc, template, &texts, room)
}

/// Adds a pair behind a `&`, both sides escaped (Smithy, HTTP protocol bindings, httpQuery).
#[inline(always)]
pub fn push_pair(query: &mut String, name: &str, text: &str) -> Result<(), OutOfMemory>
    ensures { OnOk result
        (string_bytes query.new ≡ string_bytes query.old ++ one_query name.now text.now) }
{
    query.push_str("&")?;
    push_escaped(query, name)?;
    query.push_str("=")?;
    push_escaped(query, text)
}

// The pairs behind the first `&`.
fn behind_first<'q>(query: &'q str) -> Option<&'q str>
    ensures { IsBehindFirst query.now result }
{
    query.strip_prefix('&')
}

// What stands before the first pair.
fn first_separator(path: &str) -> &'static str
    ensures { result.now ≡ separator (has_byte 63 path.now) }
{
    if path.as_bytes().contains(&b'?') {
        "&"
    } else {
        "?"
    }
}

// The path, and behind it the pairs of a query that each stand behind a `&`.
fn push_query(path: &mut String, query: &str) -> Result<(), OutOfMemory>
    ensures { OnOk result (string_bytes path.new ≡ target_behind (string_bytes path.old) query.now) }
{
    if let Some(pairs) = behind_first(query) {
        let separator = first_separator(path.as_str());
        path.push_str(separator)?;
        path.push_str(pairs)?;
    }
    Ok(())
}

/// The target: the template with its holes filled, and behind it the pairs of a query that each stand behind a `&`.
///
/// `InvalidInput` at the first hole without a non-empty text, and else `Custom` where the template goes past 65,534
/// bytes by a hole. Takes memory: of labels no more than that and one text.
#[inline(always)]
pub fn whole_target<'l>(
    alloc: Global,
    template: UriTemplate<'l>,
    labels: &'l [Label<'l, 'l>],
    query: &str,
) -> Result<String, SerdeError>
    ensures ok { IfOk result
        (λ t. target_in template.entry.text.now labels.now query.now ≡ Ok (string_bytes t)) }
    ensures err { IfErr result
        (IsTold (filled_fault (target_in template.entry.text.now labels.now query.now))) }
{
    let room = template.text.len() + query.len();
    let mut target = fill(alloc, template.rest, labels, room)?;
    push_query(&mut target, query)?;
    Ok(target)
}
