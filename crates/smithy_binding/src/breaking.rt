// The first rule of a checked schema that a schema breaks, in the order of the checks.
ghost use Rattle.std.specs.Prelude.{◌≡◌, false, Some, IfOk};
ghost use Rattle.smithy_binding.specs.Words.{schema_of};
ghost use Rattle.smithy_binding.specs.Checked.{has_named_members};
ghost use Rattle.smithy_binding.specs.Broken.{named_rule, payload_rule, broken_input, broken_output};
ghost use Rattle.smithy_binding.specs.views.Checking.{shown};
ghost use Rattle.smithy_binding.specs.views.Breaking.{broken_shown, payload_rule_in, joint_rule_for, response_joint_rule_of, broken_among, broken_response_among};

use crate::check::{has_true_flag, has_true_hint};
use crate::direction::Direction;
use crate::member_check::is_payload_kind;
use crate::member_rules::broken_member;
use crate::members::{
    Counted, count, defined_members, has_unbound_member, is_structure, named_members, payload_kind,
};
use crate::name_rules::{broken_header, query_rule};
use crate::rules::{BrokenRule, Rule, by_schema};
use crate::template_rules::http_rule;
use smithy_ids::ShapeType;
use smithy_schema::SchemaRef;
use smithy_types::OutOfMemory;
use std::alloc::{AllocError, Global};

// Why the members are not those of a structure, defined and with distinct names.
fn named_rule(alloc: Global, schema: SchemaRef<'_>) -> Result<Rule, AllocError>
    requires { has_named_members (schema_of schema) ≡ false }
    ensures { IfOk result (λ r. named_rule (schema_of schema.entry) ≡ Some r) }
{
    if !is_structure(schema) {
        return Ok(Rule::Structure);
    }
    let Some(_members) = defined_members(alloc, schema)? else {
        return Ok(Rule::DefinedMembers);
    };
    Ok(Rule::DistinctMembers)
}

// Of a payload of this kind, if there is one.
fn payload_rule(kind: Option<ShapeType>, is_beside_unbound: bool) -> Option<Rule>
    ensures { result ≡ payload_rule kind is_beside_unbound }
{
    match kind {
        Some(kind) => {
            if !is_payload_kind(kind) {
                return Some(Rule::PayloadKind);
            }
            if is_beside_unbound {
                return Some(Rule::LonePayload);
            }
            None
        }
        None => None,
    }
}

fn payload_rule_in(members: &[SchemaRef<'_>], way: Direction) -> Option<Rule>
    ensures { result ≡ payload_rule_in way (shown members.now) }
{
    payload_rule(payload_kind(members, way), has_unbound_member(members, way))
}

// Of the members of an input together, but for their names.
fn joint_rule(schema: SchemaRef<'_>, members: &[SchemaRef<'_>]) -> Option<Rule>
    ensures { result ≡ joint_rule_for (schema_of schema.entry) (shown members.now) }
{
    if count(members, Counted::Payload) > 1 {
        return Some(Rule::OnePayload);
    }
    if let Some(rule) = payload_rule_in(members, Direction::Request) {
        return Some(rule);
    }
    if count(members, Counted::Prefix) > 1 {
        return Some(Rule::OnePrefixMap);
    }
    if count(members, Counted::QueryMap) > 1 {
        return Some(Rule::OneQueryMap);
    }
    if !has_true_flag(schema, members) {
        return Some(Rule::TrueFlag);
    }
    if !has_true_hint(schema, members) {
        return Some(Rule::TrueHint);
    }
    None
}

// Of the members of an output together, but for their names.
fn response_joint_rule(members: &[SchemaRef<'_>]) -> Option<Rule>
    ensures { result ≡ response_joint_rule_of (shown members.now) }
{
    if count(members, Counted::Payload) > 1 {
        return Some(Rule::OnePayload);
    }
    if let Some(rule) = payload_rule_in(members, Direction::Response) {
        return Some(rule);
    }
    if count(members, Counted::Prefix) > 1 {
        return Some(Rule::OnePrefixMap);
    }
    if count(members, Counted::ResponseCode) > 1 {
        return Some(Rule::OneResponseCode);
    }
    None
}

// Of an input whose members are defined and have distinct names.
fn broken_among<'t>(
    alloc: Global,
    schema: SchemaRef<'t>,
    members: &[SchemaRef<'t>],
) -> Result<Option<BrokenRule<'t>>, AllocError>
    ensures { IfOk result
        (λ b. broken_shown b ≡ broken_among (schema_of schema.entry) (shown members.now)) }
{
    if let Some(broken) = broken_member(members, Direction::Request) {
        return Ok(Some(broken));
    }
    if let Some(rule) = joint_rule(schema, members) {
        return Ok(Some(by_schema(rule)));
    }
    if let Some(broken) = broken_header(alloc, members)? {
        return Ok(Some(broken));
    }
    if let Some(rule) = query_rule(alloc, members)? {
        return Ok(Some(by_schema(rule)));
    }
    match http_rule(alloc, schema, members)? {
        Some(rule) => Ok(Some(by_schema(rule))),
        None => Ok(None),
    }
}

// Of an output whose members are defined and have distinct names.
fn broken_response_among<'t>(
    alloc: Global,
    members: &[SchemaRef<'t>],
) -> Result<Option<BrokenRule<'t>>, AllocError>
    ensures { IfOk result (λ b. broken_shown b ≡ broken_response_among (shown members.now)) }
{
    if let Some(broken) = broken_member(members, Direction::Response) {
        return Ok(Some(broken));
    }
    if let Some(rule) = response_joint_rule(members) {
        return Ok(Some(by_schema(rule)));
    }
    match broken_header(alloc, members)? {
        Some(broken) => Ok(Some(broken)),
        None => Ok(None),
    }
}

/// The first rule of a checked input schema that the schema breaks, in the order of `checked_input`: the first of its
/// tests that fails, and of one that is asked of each member the first member that it fails for. None exactly where
/// `checked_input` holds. Linear in the number of members, but for the names, which are sorted. Takes memory.
pub fn broken_input_rule<'t>(
    alloc: Global,
    schema: SchemaRef<'t>,
) -> Result<Option<BrokenRule<'t>>, OutOfMemory>
    ensures { IfOk result (λ b. broken_shown b ≡ broken_input (schema_of schema.entry)) }
{
    match named_members(alloc, schema)? {
        Some(members) => Ok(broken_among(alloc, schema, members.as_slice())?),
        None => Ok(Some(by_schema(named_rule(alloc, schema)?))),
    }
}

/// The same of a checked output schema, in the order of `checked_output`. None exactly where `checked_output` holds.
pub fn broken_output_rule<'t>(
    alloc: Global,
    schema: SchemaRef<'t>,
) -> Result<Option<BrokenRule<'t>>, OutOfMemory>
    ensures { IfOk result (λ b. broken_shown b ≡ broken_output (schema_of schema.entry)) }
{
    match named_members(alloc, schema)? {
        Some(members) => Ok(broken_response_among(alloc, members.as_slice())?),
        None => Ok(Some(by_schema(named_rule(alloc, schema)?))),
    }
}
