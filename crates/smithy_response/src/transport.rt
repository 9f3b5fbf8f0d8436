// The part of a response that needs no reader of its body: what its status, headers and bytes hand out.
ghost use Rattle.std.specs.Prelude.{◌≡◌, Some};
ghost use Rattle.smithy_response.specs.Words.{option_copied, schema_of, read_at};
ghost use Rattle.smithy_serde.specs.Held as held;
ghost use Rattle.smithy_response.specs.GivenScalars.{GivesScalar, GivesRaw};
ghost use Rattle.smithy_response.specs.Handed.{has_no_bytes};
ghost use Rattle.smithy_response.specs.Settling.{skips};

use crate::bound_positions::{has_payload, has_unbound, next_bound};
use crate::header_reads::shape_type;
use crate::opening::{next_entry, open_entries, opened_type, read_entries};
use crate::parts::BoundMember;
use crate::prefixes::{has_unreadable, has_unreadable_behind};
use crate::refusals::{
    header_wrapped, nothing_at_hand, prefix_wrapped, raw_refusal, status_refusal,
};
use crate::taking::member_taken;
use smithy_http::{NonUtf8HeaderHandling, Response};
use smithy_schema::SchemaRef;
use smithy_serde::{Group, ReadScalar, ScalarKind, SerdeError};
use smithy_types::{Blob, Text};
use std::alloc::Global;

/// A response with the position of the next member, and the member at hand.
#[derive(Drop)]
pub struct Transport {
    pub(crate) response: Response,
    pub(crate) is_error: bool,
    pub(crate) policy: NonUtf8HeaderHandling,
    pub(crate) place: usize,
    pub(crate) member: BoundMember,
}

/// What the bound members hand out next.
#[derive(Drop)]
pub enum Turn<'s> {
    /// A member that the response has outside the body.
    Member(SchemaRef<'s>),
    /// A member whose value is the body's.
    Payload(SchemaRef<'s>),
    Done,
}

impl Transport {
    ghost use Rattle.std.specs.Prelude.{◌≡◌, true, false, []};
    ghost use Rattle.smithy_schema.specs.References.{schema_of};
    ghost use Rattle.smithy_serde.specs.declared.scalar.Group.TheVariants as group;
    ghost use Rattle.smithy_serde.specs.Held.{IsAnswer};
    ghost use Rattle.smithy_serde.specs.ReadCalls.{IsIn, NextElement, NextEntry, TellsNull};
    ghost use Rattle.smithy_response.specs.Handed.{reads_body};
    ghost use Rattle.smithy_response.specs.Routes.{in_header, in_prefix};
    ghost use Rattle.smithy_response.specs.views.Transporting.{transport_at_hand, transport_settled, settled_from, is_nothing, RefusesNothing, ReadsBound, OpensBound, IsSameResponse, IsSameTurn, NextBound};

    /// The response from its first member on.
    pub(crate) fn start(&mut self)
        ensures same { IsSameResponse self.old self.new }
        ensures place { self.new.place ≡ 0 }
        ensures closed { (transport_at_hand self.new).opened ≡ [] }
        ensures nothing { is_nothing self.new.member ≡ true }
    {
        self.place = 0;
        self.member = BoundMember::Nothing;
    }

    /// Brings the next bound member to hand, if one is left. The body is handed out once.
    pub(crate) fn next<'s>(
        &mut self,
        alloc: Global,
        schema: SchemaRef<'s>,
        is_given: bool,
    ) -> Result<Turn<'s>, SerdeError>
        ensures turn { NextBound (schema_of schema.entry) is_given self.old self.new result }
        ensures same { IsSameResponse self.old self.new }
        ensures closed { (transport_at_hand self.new).opened ≡ [] }
    {
        self.member = BoundMember::Nothing;
        while let Some(position) = next_bound(schema, self.place) {
            self.place = position + 1;
            if let Some(member) = schema.member_schema_by_index(position) {
                if !member.has_http_response_binding() {
                    continue;
                }
                match member_taken(alloc, &self.response, member)? {
                    BoundMember::Nothing => {}
                    BoundMember::Body => {
                        if !is_given {
                            self.member = BoundMember::Body;
                            return Ok(Turn::Payload(member));
                        }
                    }
                    taken => {
                        self.member = taken;
                        return Ok(Turn::Member(member));
                    }
                }
            }
        }
        Ok(Turn::Done)
    }

    /// Whether the fields of the body are handed out.
    pub(crate) fn reads_body(&self, schema: SchemaRef<'_>) -> bool
        ensures { result ≡ reads_body (schema_of schema.entry) self.now.response self.now.is_error }
    {
        !has_payload(schema)
            && has_unbound(schema)
            && !(self.is_error && has_no_bytes(&self.response))
    }

    /// Reads what is at hand as a scalar of the kind.
    #[tactic(auto, unfolding(smithy_serde::specs::HeldReads::read_scalar))]
    pub(crate) fn read(
        &self,
        alloc: Global,
        schema: SchemaRef<'_>,
        kind: ScalarKind,
    ) -> Result<ReadScalar, SerdeError>
        ensures reads { ReadsBound self.now kind (schema_of schema.entry) result }
        ensures nothing { RefusesNothing (is_nothing self.now.member) result }
    {
        match &self.member {
            BoundMember::Header(_, header) => header.read(alloc, &self.response, schema, kind),
            BoundMember::Prefix(_, _, entries) => {
                read_entries(alloc, &self.response, entries, schema, kind)
            }
            BoundMember::Status => read_status(alloc, self.response.status(), schema, kind),
            BoundMember::Raw => read_raw(alloc, self.response.body(), schema, kind),
            BoundMember::Nothing => Err(nothing_at_hand(alloc)),
            BoundMember::Body => Err(nothing_at_hand(alloc)),
        }
    }

    /// Opens what is at hand.
    pub(crate) fn open(
        &mut self,
        alloc: Global,
        schema: SchemaRef<'_>,
        group: Group,
    ) -> Result<(), SerdeError>
        ensures opens { OpensBound group (schema_of schema.entry) self.old self.new result }
        ensures same { IsSameTurn self.old self.new }
    {
        match &mut self.member {
            BoundMember::Header(_, header) => header.open(alloc, &self.response, schema, group),
            BoundMember::Prefix(_, _, Some(map)) => {
                map.entry.open(alloc, &self.response, schema, group)
            }
            BoundMember::Prefix(_, prefix, entries) => {
                let map = open_entries(alloc, &self.response, prefix.as_str(), schema, group)?;
                *entries = Some(map);
                Ok(())
            }
            BoundMember::Status => Err(status_refusal(alloc, opened_type(group))),
            BoundMember::Raw => Err(raw_refusal(alloc, opened_type(group))),
            BoundMember::Nothing => Err(nothing_at_hand(alloc)),
            BoundMember::Body => Err(nothing_at_hand(alloc)),
        }
    }

    /// Brings the next element to hand, or closes the list.
    pub(crate) fn next_element(&mut self) -> Result<bool, SerdeError>
        requires { IsIn group.List (transport_at_hand self.old) }
        ensures next { NextElement (transport_at_hand self.old) (transport_at_hand self.new) result }
        ensures same { IsSameTurn self.old self.new }
    {
        match &mut self.member {
            BoundMember::Header(_, header) => Ok(header.next_element()),
            BoundMember::Prefix(_, _, Some(map)) => Ok(map.entry.next_element()),
            _ => unreachable!(),
        }
    }

    /// Brings the next entry to hand and answers its key, or closes the map.
    pub(crate) fn next_entry(&mut self, alloc: Global) -> Result<Option<Text>, SerdeError>
        requires { IsIn group.Map (transport_at_hand self.old) }
        ensures next { NextEntry (transport_at_hand self.old) (transport_at_hand self.new) result }
        ensures same { IsSameTurn self.old self.new }
    {
        match &mut self.member {
            BoundMember::Prefix(_, _, entries) => next_entry(alloc, entries),
            _ => unreachable!(),
        }
    }

    /// Whether the value at hand is the null, which no bound member is: a header, a status and raw bytes have no text for it,
    /// and what isn't there isn't handed out.
    pub(crate) fn is_null(&self) -> bool
        ensures told { TellsNull (transport_at_hand self.now) result }
        ensures no { result ≡ false }
    {
        false
    }

    /// What becomes of a consumer's refusal at the member at hand.
    pub(crate) fn settle(&self, alloc: Global, refused: SerdeError) -> Result<(), SerdeError>
        ensures { IsAnswer (transport_settled self.now refused) result }
    {
        match &self.member {
            BoundMember::Header(member, header) => {
                self.settle_header(alloc, member.as_str(), header.name.as_str(), refused)
            }
            BoundMember::Prefix(member, prefix, _) => {
                self.settle_prefix(alloc, member.as_str(), prefix.as_str(), refused)
            }
            BoundMember::Nothing => Err(refused),
            BoundMember::Status => Err(refused),
            BoundMember::Raw => Err(refused),
            BoundMember::Body => Err(refused),
        }
    }

    // The same at a header.
    fn settle_header(
        &self,
        alloc: Global,
        member: &str,
        name: &str,
        refused: SerdeError,
    ) -> Result<(), SerdeError>
        ensures { IsAnswer (settled_from self.now (in_header name.now) member.now refused) result }
    {
        if matches!(refused, SerdeError::OutOfMemory) {
            return Err(refused);
        }
        if skips(self.policy) && has_unreadable(self.response.headers().get_all_bytes(name)) {
            return Ok(());
        }
        Err(header_wrapped(alloc, member, name, &refused))
    }

    // The same at the headers behind a prefix.
    fn settle_prefix(
        &self,
        alloc: Global,
        member: &str,
        prefix: &str,
        refused: SerdeError,
    ) -> Result<(), SerdeError>
        ensures { IsAnswer (settled_from self.now (in_prefix prefix.now) member.now refused) result }
    {
        if matches!(refused, SerdeError::OutOfMemory) {
            return Err(refused);
        }
        let lower = Text::from_string(prefix.to_ascii_lowercase(alloc)?);
        if skips(self.policy)
            && has_unreadable_behind(self.response.headers().iter_bytes(), lower.as_str())
        {
            return Ok(());
        }
        Err(prefix_wrapped(alloc, member, prefix, &refused))
    }

    /// Nothing of the member at hand is open.
    pub(crate) fn close(&mut self)
        ensures same { IsSameTurn self.old self.new }
        ensures closed { (transport_at_hand self.new).opened ≡ [] }
    {
        match &mut self.member {
            BoundMember::Header(_, header) => header.list = None,
            BoundMember::Prefix(_, _, entries) => *entries = None,
            BoundMember::Nothing => {}
            BoundMember::Status => {}
            BoundMember::Raw => {}
            BoundMember::Body => {}
        }
    }
}

// Reads the status as a scalar.
#[tactic(auto, unfolding(smithy_serde::specs::HeldReads::read_scalar))]
fn read_status(
    alloc: Global,
    status: u16,
    schema: SchemaRef<'_>,
    kind: ScalarKind,
) -> Result<ReadScalar, SerdeError>
    ensures { GivesScalar kind (read_at kind (schema_of schema.entry) (Some (held.status status))) result }
{
    match kind {
        ScalarKind::Integer => Ok(ReadScalar::Integer(i32::from(status))),
        _ => Err(status_refusal(alloc, shape_type(kind))),
    }
}

// Reads the bytes of the body as a scalar.
#[tactic(auto, unfolding(smithy_serde::specs::HeldReads::read_scalar))]
fn read_raw(
    alloc: Global,
    body: Option<&Blob>,
    schema: SchemaRef<'_>,
    kind: ScalarKind,
) -> Result<ReadScalar, SerdeError>
    ensures { GivesRaw kind (schema_of schema.entry) (option_copied body.entry) result }
{
    let Some(body) = body else {
        return Err(nothing_at_hand(alloc));
    };
    match kind {
        ScalarKind::String => {
            let text = String::from_utf8_lossy(alloc, body.as_slice())?;
            Ok(ReadScalar::String(Text::from_string(text)))
        }
        ScalarKind::Blob => Ok(ReadScalar::Blob(Blob::new(alloc, body.as_slice())?)),
        _ => Err(raw_refusal(alloc, shape_type(kind))),
    }
}

fn skips(policy: NonUtf8HeaderHandling) -> bool
    ensures { result ≡ skips policy }
{
    match policy {
        NonUtf8HeaderHandling::Reject => false,
        NonUtf8HeaderHandling::Skip => true,
    }
}

fn has_no_bytes(response: &Response) -> bool
    ensures { result ≡ has_no_bytes response.now }
{
    match response.body() {
        Some(body) => body.as_slice().is_empty(),
        None => true,
    }
}
