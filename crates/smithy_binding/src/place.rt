// The request of an input (Smithy, HTTP protocol bindings).
ghost use Rattle.std.specs.Prelude.{◌≡◌, IsTrue, OnOk, string_bytes};
ghost use Rattle.smithy_binding.specs.Words.{is_token, pieces, is_header_value, schema_of, writes_in, AreDefined, IsReady};
ghost use Rattle.smithy_binding.specs.Checked.{checked_input};
ghost use Rattle.smithy_binding.specs.Answer.{legal_request};
ghost use Rattle.smithy_binding.specs.HeaderNames.{AreNamed};
ghost use Rattle.smithy_binding.specs.Placing.{method_of, template_of, endpoint_or_slash};
ghost use Rattle.smithy_binding.specs.views.LeftTemplates.{template_left};
ghost use Rattle.smithy_binding.specs.views.Planned.{AnswersPlan};
ghost use Rattle.smithy_binding.specs.Refusing.{Answers};

use crate::direction::{DirectedSchema, Direction};
use crate::header_names::HeaderNames;
use crate::message::{MessagePlan, place_message};
use crate::refusal::{not_legal, too_long};
use crate::target::whole_target;
use crate::template_rest::TemplateRest;
use crate::uri_template::UriTemplate;
use smithy_http::{Headers, HttpError, Request};
use smithy_schema::{SchemaRef, Schemas};
use smithy_serde::{
    FinishSerializer, OmitFlags, SerdeError, SerializableStruct, WriteList, record_members,
};
use smithy_types::{Blob, MAX_TARGET_LEN, Text};
use std::alloc::Global;

fn method_of<'t>(schema: SchemaRef<'t>) -> &'t str
    ensures { result.now ≡ method_of (schema_of schema.entry) }
{
    match schema.http() {
        Some(http) => http.method(),
        None => "GET",
    }
}

/// The template: that of `@http`, else the endpoint, else `/`. Takes no memory.
pub fn template_of<'t>(schema: SchemaRef<'t>, endpoint: &'t str) -> &'t str
    ensures { result.now ≡ template_of (schema_of schema.entry) endpoint.now }
{
    if let Some(http) = schema.http() {
        return http.uri();
    }
    endpoint_or_slash(endpoint)
}

// The pieces that the schema keeps of its own template, or else the endpoint.
fn template_rest<'t>(schema: SchemaRef<'t>, endpoint: &'t str) -> TemplateRest<'t>
    ensures { template_left result ≡ pieces (template_of (schema_of schema.entry) endpoint.now) }
{
    match schema.template_pieces() {
        Some(pieces) => TemplateRest::Pieces(pieces.as_slice()),
        None => TemplateRest::Text(endpoint_or_slash(endpoint)),
    }
}

/// The same template, cut as far as the schema keeps it so. Takes no memory.
pub fn uri_template<'t>(schema: SchemaRef<'t>, endpoint: &'t str) -> UriTemplate<'t>
    ensures { result.text.now ≡ template_of (schema_of schema.entry) endpoint.now }
{
    UriTemplate {
        text: template_of(schema, endpoint),
        rest: template_rest(schema, endpoint),
    }
}

/// The endpoint, or `/` where it is empty. Takes no memory.
pub fn endpoint_or_slash(endpoint: &str) -> &str
    ensures { result.now ≡ endpoint_or_slash endpoint.now }
{
    if endpoint.is_empty() { "/" } else { endpoint }
}

/// The request of these parts. `Custom` where the target is longer than 65,534 bytes, and else where it is not legal (RFC
/// 7230, section 5.3). Takes memory. Condition: the method is a token.
#[inline(always)]
pub fn request_with(
    alloc: Global,
    method: &str,
    target: String,
    headers: Headers,
    body: Blob,
) -> Result<Request, SerdeError>
    requires { IsTrue (is_token method.now) }
    ensures { Answers result (legal_request method.now (string_bytes target) headers body) }
{
    if target.len() > MAX_TARGET_LEN {
        return Err(too_long(alloc));
    }
    match Request::with_method(alloc, method, Text::from_string(target), headers, body) {
        Ok(request) => Ok(request),
        Err(HttpError::Target) => Err(not_legal(alloc)),
        Err(_) => Err(SerdeError::OutOfMemory),
    }
}

/// What a request is placed by, beside its writes.
#[derive(Clone, Copy, Drop)]
pub struct Plan<'s, 'e, 'c> {
    pub schema: SchemaRef<'s>,
    pub endpoint: &'e str,
    pub content_type: &'c str,
    pub omit: OmitFlags,
}

/// The request of the writes, whose nodes are those of the table, placed by a checked input schema; `serializer` writes
/// the body. Its refusals are those of `HttpBindingProtocol::serialize_request`. Takes memory.
pub fn place_writes<S: FinishSerializer + Drop, N: HeaderNames>(
    alloc: Global,
    names: &mut N,
    serializer: S,
    table: &Schemas,
    writes: &WriteList,
    plan: Plan<'_, '_, '_>,
) -> Result<Request, SerdeError>
    requires checked { IsTrue (checked_input (schema_of plan.schema)) }
    requires defined { AreDefined table.now writes.now }
    requires content_type { IsTrue (is_header_value plan.content_type.now) }
    requires ready { IsReady (S.seen serializer) }
    requires serves { N.serves names.old (schema_of plan.schema).table }
    ensures answer { AnswersPlan
        (S.seen serializer).text plan.entry (writes_in table.now writes.now) result }
    ensures kept { N.keeps names.old names.new }
    ensures named { OnOk result
        (AreNamed (N.has names.new) plan.entry.schema (writes_in table.now writes.now)) }
{
    let schema = plan.schema;
    let directed = DirectedSchema {
        schema,
        way: Direction::Request,
    };
    let message_plan = MessagePlan {
        schema: directed,
        content_type: plan.content_type,
        omit: plan.omit,
    };
    let message = place_message(alloc, names, serializer, table, writes, message_plan)?;
    let template = uri_template(schema, plan.endpoint);
    let target = whole_target(
        alloc,
        template,
        message.labels.as_slice(),
        message.query.as_str(),
    )?;
    request_with(
        alloc,
        method_of(schema),
        target,
        message.headers,
        message.body,
    )
}

/// The request of an input, which is told to a recorder where it keeps no writes; all else is as of `place_writes`.
pub fn place_input<S: FinishSerializer + Drop, N: HeaderNames>(
    alloc: Global,
    names: &mut N,
    serializer: S,
    input: &dyn SerializableStruct,
    plan: Plan<'_, '_, '_>,
) -> Result<Request, SerdeError>
    requires checked { IsTrue (checked_input (schema_of plan.schema)) }
    requires content_type { IsTrue (is_header_value plan.content_type.now) }
    requires ready { IsReady (S.seen serializer) }
    requires serves { N.serves names.old (schema_of plan.schema).table }
    ensures answer { AnswersPlan (S.seen serializer).text plan.entry (writes input.now) result }
    ensures kept { N.keeps names.old names.new }
    ensures named { OnOk result (AreNamed (N.has names.new) plan.entry.schema (writes input.now)) }
{
    if let Some((table, writes)) = input.stored_writes() {
        return place_writes(alloc, names, serializer, table, writes, plan);
    }
    let recorded = record_members(alloc, input)?;
    place_writes(
        alloc,
        names,
        serializer,
        recorded.table(),
        recorded.writes(),
        plan,
    )
}
