// Texts that stand once.
ghost use Rattle.std.specs.Prelude.{◌≡◌, map, IfOk};
ghost use Rattle.smithy_types.specs.Texts.{are_distinct, is_one_of};

use smithy_types::OutOfMemory;
use std::alloc::Global;
use std::collections::BTreeMap;

// So many texts are compared with each other: that costs less than a map.
const FEW_TEXTS: usize = 8;

fn is_one_of(text: &str, texts: &[&str]) -> bool
    ensures { result ≡ is_one_of text.now (map (λ t. t.now) texts.now) }
{
    for other in texts {
        if text == *other {
            return true;
        }
    }
    false
}

// Whether no two of the texts are the same, each compared with those behind it.
fn are_few_distinct(texts: &[&str]) -> bool
    ensures { result ≡ are_distinct (map (λ t. t.now) texts.now) }
{
    for (place, text) in texts.iter().enumerate() {
        if is_one_of(*text, &texts[place + 1..]) {
            return false;
        }
    }
    true
}

/// Whether no two of the texts are the same. More than eight are kept in a map, so that their number costs no more than
/// its logarithm for each; that takes memory.
pub fn are_distinct<'t>(alloc: Global, texts: &[&'t str]) -> Result<bool, OutOfMemory>
    ensures { IfOk result (λ b. b ≡ are_distinct (map (λ t. t.now) texts.now)) }
{
    if texts.len() <= FEW_TEXTS {
        return Ok(are_few_distinct(texts));
    }
    let mut later = BTreeMap::new(alloc);
    let mut i = texts.len();
    while i > 0 {
        i -= 1;
        let text = texts[i];
        if later.get(&text).is_some() {
            return Ok(false);
        }
        later.insert(text, i)?;
    }
    Ok(true)
}
