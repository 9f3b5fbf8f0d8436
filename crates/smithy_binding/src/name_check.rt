// The names of a schema's members, and whether they are distinct.
ghost use Rattle.std.specs.Prelude.{◌≡◌, nat_eq, IfOk, map, option_map, string_bytes};
ghost use Rattle.smithy_binding.specs.Words.{list_all, list_any, starts_with, is_token, are_distinct, is_one_of, schema_of};
ghost use Rattle.smithy_binding.specs.declared.name_check.NameKind.TheVariants as names;
ghost use Rattle.smithy_binding.specs.views.Checking.{shown, name_under, names_under, texts_shown, lower_names, is_sound_prefix_of, are_sound_prefixes, have_sound_headers, have_sound_names};

use smithy_schema::SchemaRef;
use smithy_types::is_token;
use std::alloc::{AllocError, Global};
use std::collections::BTreeMap;

/// A name that members have.
#[derive(Clone, Copy)]
pub enum NameKind {
    Member,
    Label,
    Header,
    Prefix,
    Query,
}

/// The name of this kind that the member has.
pub fn name_under<'t>(member: SchemaRef<'t>, kind: NameKind) -> Option<&'t str>
    ensures { option_map (λ n. n.now) result ≡ name_under kind (schema_of member.entry) }
{
    match kind {
        NameKind::Member => member.member_name(),
        NameKind::Label => {
            member.http_label()?;
            member.member_name()
        }
        NameKind::Header => Some(member.http_header()?.value()),
        NameKind::Prefix => Some(member.http_prefix_headers()?.value()),
        NameKind::Query => Some(member.http_query()?.value()),
    }
}

/// The names of this kind, in order.
pub fn names_of<'t>(
    alloc: Global,
    members: &[SchemaRef<'t>],
    kind: NameKind,
) -> Result<Vec<&'t str>, AllocError>
    ensures { IfOk result (λ v. texts_shown v.items ≡ names_under kind (shown members.now)) }
{
    let mut names = Vec::with_capacity(alloc, members.len())?;
    for member in members {
        if let Some(name) = name_under(*member, kind) {
            names.push(name)?;
        }
    }
    Ok(names)
}

// So many names are compared with each other: that costs less than a map.
const FEW_NAMES: usize = 16;

fn is_one_of(name: &str, names: &[&str]) -> bool
    ensures { result ≡ is_one_of name.now (texts_shown names.now) }
{
    names.iter().any(|other| name == *other)
}

// Whether no two of the names are the same, each compared with those behind it.
fn are_few_distinct(names: &[&str]) -> bool
    ensures { result ≡ are_distinct (texts_shown names.now) }
{
    for (place, name) in names.iter().enumerate() {
        if is_one_of(*name, &names[place + 1..]) {
            return false;
        }
    }
    true
}

/// Whether no two of the names are the same. Takes memory for more than sixteen.
pub fn are_distinct<'t>(alloc: Global, names: &[&'t str]) -> Result<bool, AllocError>
    ensures { IfOk result (λ b. b ≡ are_distinct (texts_shown names.now)) }
{
    if names.len() <= FEW_NAMES {
        return Ok(are_few_distinct(names));
    }
    let mut later = BTreeMap::new(alloc);
    let mut i = names.len();
    while i > 0 {
        i -= 1;
        let name = names[i];
        if later.get(&name).is_some() {
            return Ok(false);
        }
        later.insert(name, i)?;
    }
    Ok(true)
}

/// The names in lower case. Takes memory.
pub fn lower_names(alloc: Global, names: &[&str]) -> Result<Vec<String>, AllocError>
    ensures { IfOk result (λ v. map string_bytes v.items ≡ lower_names (texts_shown names.now)) }
{
    let mut lower = Vec::with_capacity(alloc, names.len())?;
    for name in names {
        lower.push(name.to_ascii_lowercase(alloc)?)?;
    }
    Ok(lower)
}

/// The names as texts. Takes memory.
pub fn as_texts<'s>(alloc: Global, names: &'s [String]) -> Result<Vec<&'s str>, AllocError>
    ensures { IfOk result (λ v. texts_shown v.items ≡ map string_bytes names.now) }
{
    let mut texts = Vec::with_capacity(alloc, names.len())?;
    for name in names {
        texts.push(name.as_str())?;
    }
    Ok(texts)
}

fn are_tokens(names: &[&str]) -> bool
    ensures { result ≡ list_all is_token (texts_shown names.now) }
{
    names.iter().all(|name| is_token(name))
}

/// Whether the prefix begins one of the names.
pub fn begins_any(prefix: &str, names: &[&str]) -> bool
    ensures { result ≡ list_any (λ name. starts_with nat_eq name prefix.now) (texts_shown names.now) }
{
    names
        .iter()
        .any(|name| name.as_bytes().starts_with(prefix.as_bytes()))
}

fn is_sound_prefix(alloc: Global, headers: &[&str], prefix: &str) -> Result<bool, AllocError>
    ensures { IfOk result (λ b. b ≡ is_sound_prefix_of (texts_shown headers.now) prefix.now) }
{
    if !prefix.is_empty() && !is_token(prefix) {
        return Ok(false);
    }
    let lower = prefix.to_ascii_lowercase(alloc)?;
    Ok(!begins_any(lower.as_str(), headers))
}

fn are_sound_prefixes(
    alloc: Global,
    headers: &[&str],
    prefixes: &[&str],
) -> Result<bool, AllocError>
    ensures { IfOk result
        (λ b. b ≡ are_sound_prefixes (texts_shown headers.now) (texts_shown prefixes.now)) }
{
    for prefix in prefixes {
        if !is_sound_prefix(alloc, headers, prefix)? {
            return Ok(false);
        }
    }
    Ok(true)
}

/// Whether no two of the members have one name; a member without a name has none in common. Takes memory.
pub fn have_distinct_names(alloc: Global, members: &[SchemaRef<'_>]) -> Result<bool, AllocError>
    ensures { IfOk result (λ b. b ≡ are_distinct (names_under names.Member (shown members.now))) }
{
    let names = names_of(alloc, members, NameKind::Member)?;
    are_distinct(alloc, names.as_slice())
}

/// Whether header names are tokens (RFC 7230, section 3.2.6), distinct without case, and begun by no prefix, and
/// prefixes are empty or tokens (httpHeader, httpPrefixHeaders). Takes memory.
pub fn have_sound_headers(alloc: Global, members: &[SchemaRef<'_>]) -> Result<bool, AllocError>
    ensures { IfOk result (λ b. b ≡ have_sound_headers (shown members.now)) }
{
    let headers = names_of(alloc, members, NameKind::Header)?;
    let lower_headers = lower_names(alloc, headers.as_slice())?;
    let lower = as_texts(alloc, lower_headers.as_slice())?;
    if !are_tokens(lower.as_slice()) || !are_distinct(alloc, lower.as_slice())? {
        return Ok(false);
    }
    let prefixes = names_of(alloc, members, NameKind::Prefix)?;
    are_sound_prefixes(alloc, lower.as_slice(), prefixes.as_slice())
}

/// The same, and whether query names are distinct (httpQuery). Takes memory.
pub fn have_sound_names(alloc: Global, members: &[SchemaRef<'_>]) -> Result<bool, AllocError>
    ensures { IfOk result (λ b. b ≡ have_sound_names (shown members.now)) }
{
    if !have_sound_headers(alloc, members)? {
        return Ok(false);
    }
    let queries = names_of(alloc, members, NameKind::Query)?;
    are_distinct(alloc, queries.as_slice())
}
