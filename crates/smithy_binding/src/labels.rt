// The texts of label members (Smithy, HTTP protocol bindings, httpLabel).
ghost use Rattle.std.specs.Prelude.{◌≡◌, IfOk, map, option_map};
ghost use Rattle.smithy_binding.specs.Words.{found};
ghost use Rattle.smithy_binding.specs.views.Seen.{label_pair};
ghost use Rattle.smithy_binding.specs.views.LabelTexts.{text_in_map, text_under};

use std::alloc::{AllocError, Global};
use std::borrow::CowStr;
use std::collections::BTreeMap;

/// The text of a label member, by the member's name. The text is borrowed where it stands ready in the value.
#[derive(Drop)]
pub struct Label<'t, 'w> {
    pub name: &'t str,
    pub text: CowStr<'w, Global>,
}

// So many labels are searched through where they stand: that costs less than a map.
const FEW_LABELS: usize = 8;

/// The texts of labels by their names: the labels, and where there are many a map of their texts.
#[derive(Drop)]
pub struct LabelTexts<'l> {
    pub labels: &'l [Label<'l, 'l>],
    pub texts: Option<BTreeMap<&'l str, &'l str>>,
}

// The texts in a map, where of each name the first label's text stays.
#[tactic(auto, unfolding(crate::specs::views::LabelTexts::text_in_map))]
fn texts_in_map<'l>(
    alloc: Global,
    labels: &'l [Label<'l, 'l>],
) -> Result<BTreeMap<&'l str, &'l str>, AllocError>
    ensures { IfOk result (λ m. text_in_map m ≡ (λ name. found name (map label_pair labels.now))) }
{
    let mut texts = BTreeMap::new(alloc);
    let mut i = labels.len();
    while i > 0 {
        i -= 1;
        let label = &labels[i];
        texts.insert(label.name, label.text.as_str())?;
    }
    Ok(texts)
}

/// The text of the first label of each name. Takes memory for more than eight labels, linear in their number.
pub fn texts_by_name<'l>(
    alloc: Global,
    labels: &'l [Label<'l, 'l>],
) -> Result<LabelTexts<'l>, AllocError>
    ensures { IfOk result (λ t. text_under t ≡ (λ name. found name (map label_pair labels.now))) }
{
    let texts = if labels.len() > FEW_LABELS {
        Some(texts_in_map(alloc, labels)?)
    } else {
        None
    };
    Ok(LabelTexts { labels, texts })
}

// The text of the first label of a name.
fn first_text<'l>(labels: &'l [Label<'l, 'l>], name: &str) -> Option<&'l str>
    ensures { option_map (λ t. t.now) result ≡ found name.now (map label_pair labels.now) }
{
    for label in labels {
        if label.name == name {
            return Some(label.text.as_str());
        }
    }
    None
}

/// The text under a name.
#[tactic(auto, unfolding(crate::specs::views::LabelTexts::text_in_map))]
#[inline(always)]
pub fn text_of_label<'l>(texts: &LabelTexts<'l>, name: &'l str) -> Option<&'l str>
    ensures { option_map (λ t. t.now) result ≡ text_under texts.now name.now }
{
    match &texts.texts {
        Some(texts) => texts.get(&name).copied(),
        None => first_text(texts.labels, name),
    }
}
