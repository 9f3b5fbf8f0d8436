// The first rule of a checked schema that a member breaks, as both checks ask of each.
ghost use Rattle.std.specs.Prelude.{◌≡◌};
ghost use Rattle.smithy_binding.specs.Words.{schema_of};
ghost use Rattle.smithy_binding.specs.Broken.{by_members, member_rule, response_member_rule};
ghost use Rattle.smithy_binding.specs.views.Checking.{shown};
ghost use Rattle.smithy_binding.specs.views.Breaking.{broken_shown, member_rule_in};

use crate::direction::Direction;
use crate::member_check::{
    has_code_kind, has_header_kind, has_label_kind, has_plain_elements, has_plain_header_elements,
    has_prefix_kind, has_query_kind, has_query_map_kind, is_bound_once, is_response_bound_once,
    is_unwritable,
};
use crate::rules::{BrokenRule, Rule, by_member};
use smithy_schema::SchemaRef;

// Of a member of an input.
fn request_member_rule(member: SchemaRef<'_>) -> Option<Rule>
    ensures { result ≡ member_rule (schema_of member.entry) }
{
    if !member.has_cited_nodes() {
        return Some(Rule::DefinedNodes);
    }
    if !is_bound_once(member) {
        return Some(Rule::OneBinding);
    }
    if is_unwritable(member.shape_type()) {
        return Some(Rule::WritableKind);
    }
    if !has_label_kind(member) {
        return Some(Rule::LabelKind);
    }
    if !has_query_kind(member) {
        return Some(Rule::QueryKind);
    }
    if !has_header_kind(member) {
        return Some(Rule::HeaderKind);
    }
    if !has_plain_elements(member) {
        return Some(Rule::PlainElements);
    }
    if !has_prefix_kind(member) {
        return Some(Rule::PrefixMapKind);
    }
    if !has_query_map_kind(member) {
        return Some(Rule::QueryMapKind);
    }
    None
}

// Of a member of an output.
fn response_member_rule(member: SchemaRef<'_>) -> Option<Rule>
    ensures { result ≡ response_member_rule (schema_of member.entry) }
{
    if !member.has_cited_nodes() {
        return Some(Rule::DefinedNodes);
    }
    if !is_response_bound_once(member) {
        return Some(Rule::OneResponseBinding);
    }
    if is_unwritable(member.shape_type()) {
        return Some(Rule::WritableKind);
    }
    if !has_header_kind(member) {
        return Some(Rule::HeaderKind);
    }
    if !has_plain_header_elements(member) {
        return Some(Rule::PlainElements);
    }
    if !has_prefix_kind(member) {
        return Some(Rule::PrefixMapKind);
    }
    if !has_code_kind(member) {
        return Some(Rule::ResponseCodeKind);
    }
    None
}

fn member_rule(member: SchemaRef<'_>, way: Direction) -> Option<Rule>
    ensures { result ≡ member_rule_in way (schema_of member.entry) }
{
    match way {
        Direction::Request => request_member_rule(member),
        Direction::Response => response_member_rule(member),
    }
}

/// The first member that breaks a rule, and the first that it breaks. Takes no memory.
pub fn broken_member<'t>(members: &[SchemaRef<'t>], way: Direction) -> Option<BrokenRule<'t>>
    ensures { broken_shown result ≡ by_members (member_rule_in way) (shown members.now) }
{
    for member in members {
        if let Some(rule) = member_rule(*member, way) {
            return Some(by_member(*member, rule));
        }
    }
    None
}
