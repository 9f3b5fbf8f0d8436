// The texts of the labels, cut out of a path by its template (Smithy, HTTP protocol bindings, httpLabel).
ghost use Rattle.std.specs.Prelude.{◌≡◌, IfOk, map, option_map};
ghost use Rattle.smithy_types.specs.Texts.{found};
ghost use Rattle.smithy_binding.specs.views.CutTemplate.{behind_holes, literal_alone};
ghost use Rattle.smithy_recovery.specs.Finding.{Finds};
ghost use Rattle.smithy_recovery.specs.PathParts.{behind_front, before_end, segment, part_by};
ghost use Rattle.smithy_recovery.specs.views.Kept.{label_seen, labels_seen, texts_cut, text_in_map, text_under, IsMapOf, HasTexts, part_behind, text_of_hole};

use crate::error::RecoverError;
use smithy_binding::CutHole;
use smithy_strings::decoded;
use smithy_types::{OutOfMemory, Text, before_query};
use std::alloc::Global;
use std::collections::BTreeMap;

/// The text of a label, by its name.
#[derive(Drop)]
pub struct LabelText<'t> {
    name: &'t str,
    text: Text,
}

// So many labels are gone through where they stand: that costs less than a map.
const FEW_LABELS: usize = 8;

/// The texts of labels by their names: the labels, and where there are many a map of their texts.
#[derive(Drop)]
pub struct LabelTexts<'t> {
    labels: &'t [LabelText<'t>],
    texts: Option<BTreeMap<&'t str, &'t str>>,
}

/// What stands behind a front.
pub fn behind<'p>(text: &'p str, front: &str) -> Option<&'p str>
    ensures { option_map (λ t. t.now) result ≡ behind_front front.now text.now }
{
    text.strip_prefix(front)
}

// What stands before an end.
fn before<'p>(text: &'p str, end: &str) -> Option<&'p str>
    ensures { option_map (λ t. t.now) result ≡ before_end end.now text.now }
{
    text.strip_suffix(end)
}

// The first segment.
fn segment(path: &str) -> &str
    ensures { result.now ≡ segment path.now }
{
    match path.split_once('/') {
        Some((segment, _)) => segment,
        None => path,
    }
}

// What a hole has of the path, by the literal behind it.
fn hole_part<'p>(is_greedy: bool, literal: &str, path: &'p str) -> Option<&'p str>
    ensures { option_map (λ t. t.now) result ≡ part_by is_greedy literal.now path.now }
{
    if is_greedy {
        before(path, before_query(literal))
    } else {
        Some(segment(path))
    }
}

// That part, and what stands behind it.
fn cut_part<'p>(is_greedy: bool, literal: &str, path: &'p str) -> Option<(&'p str, &'p str)>
    ensures { option_map (λ x. (x.0.now, x.1.now)) result ≡ part_behind is_greedy literal.now path.now }
{
    let part = hole_part(is_greedy, literal, path)?;
    let rest = behind(path, part)?;
    Some((part, rest))
}

// The text of a hole behind its own literal, and what stands behind its part of the path.
fn next_text<'p>(
    alloc: Global,
    hole: &CutHole<'_>,
    literal: &str,
    path: &'p str,
) -> Result<(Text, &'p str), RecoverError>
    ensures { Finds (λ x. (x.0, x.1.now)) result (text_of_hole hole.now literal.now path.now) }
{
    let Some(text) = behind(path, hole.literal) else {
        return Err(RecoverError::NotPlaced);
    };
    let Some((part, rest)) = cut_part(hole.is_greedy, literal, text) else {
        return Err(RecoverError::NotPlaced);
    };
    match decoded(alloc, part)? {
        Some(text) => Ok((text, rest)),
        None => Err(RecoverError::NotPlaced),
    }
}

// The literal that stands before holes and the last literal.
fn first_literal<'t>(holes: &[CutHole<'t>], last: &'t str) -> &'t str
    ensures { result.now ≡ (behind_holes holes.now (literal_alone last.now)).first }
{
    match holes {
        [] => last,
        [hole, ..] => hole.literal,
    }
}

/// The texts of holes in a path. `NotPlaced` where the path is none of theirs. Takes memory.
pub fn path_texts<'t>(
    alloc: Global,
    holes: &[CutHole<'t>],
    last: &'t str,
    mut path: &str,
) -> Result<Vec<LabelText<'t>>, RecoverError>
    ensures { Finds labels_seen result (texts_cut holes.now last.now path.now) }
{
    let mut texts = Vec::new(alloc);
    for (i, hole) in holes.iter().enumerate() {
        let literal = first_literal(&holes[i + 1..], last);
        let (text, rest) = next_text(alloc, hole, literal, path)?;
        texts.push(LabelText {
            name: hole.name,
            text,
        })?;
        path = rest;
    }
    Ok(texts)
}

// A map of the texts by their names, of each name the first one.
#[tactic(auto, unfolding(crate::specs::views::Kept::text_in_map))]
fn texts_in_map<'t>(
    alloc: Global,
    labels: &'t [LabelText<'t>],
) -> Result<BTreeMap<&'t str, &'t str>, OutOfMemory>
    ensures { IfOk result (IsMapOf (map label_seen labels.now)) }
{
    let mut texts = BTreeMap::new(alloc);
    for label in labels {
        if texts.get(&label.name).is_none() {
            texts.insert(label.name, label.text.as_str())?;
        }
    }
    Ok(texts)
}

/// The texts by their names, of each name the first one. Takes memory for more than eight.
pub fn by_name<'t>(
    alloc: Global,
    labels: &'t [LabelText<'t>],
) -> Result<LabelTexts<'t>, OutOfMemory>
    ensures { IfOk result (HasTexts (map label_seen labels.now)) }
{
    if labels.len() > FEW_LABELS {
        let texts = Some(texts_in_map(alloc, labels)?);
        return Ok(LabelTexts { labels, texts });
    }
    Ok(LabelTexts {
        labels,
        texts: None,
    })
}

// The text of the first label of a name.
fn first_text<'l>(labels: &'l [LabelText<'l>], name: &str) -> Option<&'l str>
    ensures { option_map (λ t. t.now) result ≡ found name.now (map label_seen labels.now) }
{
    for label in labels {
        if label.name == name {
            return Some(label.text.as_str());
        }
    }
    None
}

/// The text under a name.
#[tactic(auto, unfolding(crate::specs::views::Kept::text_in_map))]
pub fn text_under<'l>(texts: &LabelTexts<'l>, name: &'l str) -> Option<&'l str>
    ensures { option_map (λ t. t.now) result ≡ text_under texts.now name.now }
{
    match &texts.texts {
        Some(texts) => texts.get(&name).copied(),
        None => first_text(texts.labels, name),
    }
}
