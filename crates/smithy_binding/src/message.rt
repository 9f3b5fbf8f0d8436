// What a message has of its writes, but for its first line (Smithy, HTTP protocol bindings).
ghost use Rattle.std.specs.Prelude.{IsTrue, IfOk, IfErr, OnOk};
ghost use Rattle.smithy_binding.specs.Words.{list_all, is_header_value, members_of, schema_of, writes_in, AreDefined, IsReady};
ghost use Rattle.smithy_binding.specs.Refusing.{IsTold};
ghost use Rattle.smithy_binding.specs.views.Directed.{directed_of};
ghost use Rattle.smithy_binding.specs.views.NamesAtHand.{WritesHaveNames};
ghost use Rattle.smithy_binding.specs.views.Placed.{has_placed_kind};
ghost use Rattle.smithy_binding.specs.views.PlacedMessages.{planned_fault, IsMessage};

use crate::body::message_body;
use crate::body_form::body_form;
use crate::default_headers::add_defaults;
use crate::direction::DirectedSchema;
use crate::header_names::HeaderNames;
use crate::labels::Label;
use crate::placement::{MessageParts, gather_writes};
use smithy_http::Headers;
use smithy_schema::Schemas;
use smithy_serde::{FinishSerializer, OmitFlags, SerdeError, WriteList};
use smithy_types::Blob;
use std::alloc::Global;

/// What a message is placed by, beside its writes.
#[derive(Clone, Copy, Drop)]
pub struct MessagePlan<'s, 'c> {
    pub schema: DirectedSchema<'s>,
    pub content_type: &'c str,
    pub omit: OmitFlags,
}

/// What a message has of its writes: its headers and its body, and what its first line is made of.
#[derive(Drop)]
pub struct Message<'t, 'w> {
    pub headers: Headers,
    pub body: Blob,
    /// Each pair behind a `&`.
    pub query: String,
    pub labels: Vec<Label<'t, 'w>>,
}

/// The message of the writes, whose nodes are those of the table; `serializer` writes the body. Refused with the first
/// fault of the writes in order, and then of the body's document. Takes memory.
#[inline(always)]
pub fn place_message<'t, 'w, S: FinishSerializer + Drop, N: HeaderNames>(
    alloc: Global,
    names: &mut N,
    serializer: S,
    table: &Schemas,
    writes: &'w WriteList,
    plan: MessagePlan<'t, '_>,
) -> Result<Message<'t, 'w>, SerdeError>
    requires kinds { IsTrue (list_all has_placed_kind (members_of (directed_of plan.schema))) }
    requires defined { AreDefined table.now writes.now }
    requires content_type { IsTrue (is_header_value plan.content_type.now) }
    requires ready { IsReady (S.seen serializer) }
    requires serves { N.serves names.old (schema_of plan.schema.schema).table }
    ensures ok { IfOk result
        (IsMessage (S.seen serializer).text plan.entry (writes_in table.now writes.now)) }
    ensures err { IfErr result (IsTold (planned_fault plan.entry (writes_in table.now writes.now))) }
    ensures kept { N.keeps names.old names.new }
    ensures named { OnOk result (WritesHaveNames (N.has names.new) plan.entry.schema table.now writes.now) }
{
    let schema = plan.schema;
    let mut parts = MessageParts::new(alloc, schema.schema)?;
    gather_writes(alloc, names, schema, table, writes, &mut parts)?;
    let form = body_form(schema);
    let body = message_body(alloc, serializer, schema.schema, form, table, &parts.body)?;
    let length = body.as_slice().len();
    add_defaults(
        alloc,
        &mut parts.headers,
        plan.content_type,
        form.is_codec(),
        length,
        plan.omit,
    )?;
    Ok(Message {
        headers: parts.headers,
        body,
        query: parts.query,
        labels: parts.labels,
    })
}
