// The first rule of a checked schema that the names of headers, prefixes and queries break.
ghost use Rattle.std.specs.Prelude.{◌≡◌, IfOk};
ghost use Rattle.smithy_binding.specs.Words.{schema_of};
ghost use Rattle.smithy_binding.specs.Broken.{by_members, header_rule, prefix_rule, prefix_map_rule};
ghost use Rattle.smithy_binding.specs.views.Checking.{shown, texts_shown};
ghost use Rattle.smithy_binding.specs.views.Breaking.{broken_shown, broken_prefix_of, broken_header_of, query_rule_of};

use crate::name_check::{
    NameKind, are_distinct, as_texts, begins_any, lower_names, name_under, names_of,
};
use crate::rules::{BrokenRule, Rule, by_member, by_schema};
use smithy_schema::SchemaRef;
use smithy_types::is_token;
use std::alloc::{AllocError, Global};

// Of the name of a header.
fn header_rule(alloc: Global, member: SchemaRef<'_>) -> Result<Option<Rule>, AllocError>
    ensures { IfOk result (λ r. r ≡ header_rule (schema_of member.entry)) }
{
    let Some(header) = name_under(member, NameKind::Header) else {
        return Ok(None);
    };
    let lower = header.to_ascii_lowercase(alloc)?;
    if !is_token(lower.as_str()) {
        return Ok(Some(Rule::HeaderToken));
    }
    Ok(None)
}

// The first member whose name of a header is wrong.
fn broken_name<'t>(
    alloc: Global,
    members: &[SchemaRef<'t>],
) -> Result<Option<BrokenRule<'t>>, AllocError>
    ensures { IfOk result (λ b. broken_shown b ≡ by_members header_rule (shown members.now)) }
{
    for member in members {
        if let Some(rule) = header_rule(alloc, *member)? {
            return Ok(Some(by_member(*member, rule)));
        }
    }
    Ok(None)
}

// Of a prefix beside headers.
fn prefix_rule(alloc: Global, headers: &[&str], prefix: &str) -> Result<Option<Rule>, AllocError>
    ensures { IfOk result (λ r. r ≡ prefix_rule (texts_shown headers.now) prefix.now) }
{
    if !prefix.is_empty() && !is_token(prefix) {
        return Ok(Some(Rule::PrefixToken));
    }
    let lower = prefix.to_ascii_lowercase(alloc)?;
    if begins_any(lower.as_str(), headers) {
        return Ok(Some(Rule::PrefixApart));
    }
    Ok(None)
}

// Of a prefix map beside headers.
fn prefix_map_rule(
    alloc: Global,
    headers: &[&str],
    member: SchemaRef<'_>,
) -> Result<Option<Rule>, AllocError>
    ensures { IfOk result
        (λ r. r ≡ prefix_map_rule (texts_shown headers.now) (schema_of member.entry)) }
{
    match name_under(member, NameKind::Prefix) {
        Some(prefix) => prefix_rule(alloc, headers, prefix),
        None => Ok(None),
    }
}

// The first prefix map whose prefix is wrong.
fn broken_prefix<'t>(
    alloc: Global,
    headers: &[&str],
    members: &[SchemaRef<'t>],
) -> Result<Option<BrokenRule<'t>>, AllocError>
    ensures { IfOk result
        (λ b. broken_shown b ≡ broken_prefix_of (texts_shown headers.now) (shown members.now)) }
{
    for member in members {
        if let Some(rule) = prefix_map_rule(alloc, headers, *member)? {
            return Ok(Some(by_member(*member, rule)));
        }
    }
    Ok(None)
}

/// Of the names of headers and the prefixes: names are tokens (RFC 7230, section 3.2.6), distinct in lower case, and
/// begun by no prefix, and prefixes are empty or tokens. Takes memory.
pub fn broken_header<'t>(
    alloc: Global,
    members: &[SchemaRef<'t>],
) -> Result<Option<BrokenRule<'t>>, AllocError>
    ensures { IfOk result (λ b. broken_shown b ≡ broken_header_of (shown members.now)) }
{
    if let Some(broken) = broken_name(alloc, members)? {
        return Ok(Some(broken));
    }
    let headers = names_of(alloc, members, NameKind::Header)?;
    let lower_headers = lower_names(alloc, headers.as_slice())?;
    let lower = as_texts(alloc, lower_headers.as_slice())?;
    if !are_distinct(alloc, lower.as_slice())? {
        return Ok(Some(by_schema(Rule::DistinctHeaders)));
    }
    broken_prefix(alloc, lower.as_slice(), members)
}

/// Of the names of queries, which are distinct. Takes memory.
pub fn query_rule(alloc: Global, members: &[SchemaRef<'_>]) -> Result<Option<Rule>, AllocError>
    ensures { IfOk result (λ r. r ≡ query_rule_of (shown members.now)) }
{
    let queries = names_of(alloc, members, NameKind::Query)?;
    if !are_distinct(alloc, queries.as_slice())? {
        return Ok(Some(Rule::DistinctQueries));
    }
    Ok(None)
}
