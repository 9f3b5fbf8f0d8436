// What a response is read by.
ghost use Rattle.smithy_serde.specs.StoredValues.{HasNode};
ghost use Rattle.smithy_bind.specs.Responding.{target_asked};
ghost use Rattle.smithy_bind.specs.views.CodedView.{Stand};
ghost use Rattle.smithy_bind.specs.views.ReplyView.{IsExpectable, IsTarget, ReadsCoded, ReadsExpected, ReadsSchema};
ghost use Rattle.smithy_job.specs.KeysView.{keys_seen};
ghost use Rattle.smithy_job.specs.Tables.{ReadsAs};

use crate::coded::error_of_code;
use crate::json_value::{document_text, json_reader};
use crate::reply::Reply;
use smithy_binding::checked_output;
use smithy_job::{CodedError, Expected, ExpectedIn, Keys, Message, read_expected};
use smithy_model::JobError;
use smithy_registry::sanitize_error_code;
use smithy_response::response_value;
use smithy_schema::{SchemaIndex, SchemaRef, Schemas};
use smithy_serde::SerdeError;
use smithy_types::Blob;
use std::alloc::Global;

/// What a response is read by.
#[derive(Clone, Copy)]
pub enum By<'t> {
    /// The schema at an index, as an output or as a modelled error.
    Schema {
        place: SchemaIndex,
        is_error: bool,
        /// Whether the error was found for a code.
        is_coded: bool,
    },
    /// No error has this code.
    Unknown(&'t str),
}

/// What a response is read by, over its table.
#[derive(Drop)]
pub struct Target<'t> {
    pub table: Schemas,
    pub by: By<'t>,
}

/// What a response is read by, for what stands under the keys. Takes memory. No job where they haven't the form, where the model
/// hasn't what they ask for, or where no response can be read by its schema.
pub fn read_target<'t>(alloc: Global, keys: &Keys<'_, 't>) -> Result<Target<'t>, JobError>
    ensures { ReadsAs IsTarget (target_asked (keys_seen keys.now)) result }
{
    let ExpectedIn { table, expected } = read_expected(alloc, keys)?;
    let by = by_expected(alloc, &table, &expected)?;
    Ok(Target { table, by })
}

fn by_expected<'t>(
    alloc: Global,
    table: &Schemas,
    expected: &Expected<'t>,
) -> Result<By<'t>, JobError>
    requires { IsExpectable table.now expected.now }
    ensures { ReadsExpected table.now expected.now result }
{
    match expected {
        Expected::Output(place) => by_schema(alloc, table, *place, false, false),
        Expected::Error(place) => by_schema(alloc, table, *place, true, false),
        Expected::Coded(error) => by_code(alloc, table, error),
    }
}

// The schema at an index. No job where no response can be read by it.
fn by_schema<'t>(
    alloc: Global,
    table: &Schemas,
    place: SchemaIndex,
    is_error: bool,
    is_coded: bool,
) -> Result<By<'t>, JobError>
    requires { HasNode table.now place.0 }
    ensures { ReadsSchema table.now place.0 is_error is_coded result }
{
    let Some(schema) = table.get(place) else {
        unreachable!()
    };
    if !checked_output(alloc, schema)? {
        return Err(JobError::NoJob);
    }
    Ok(By::Schema {
        place,
        is_error,
        is_coded,
    })
}

// The error of a code.
fn by_code<'t>(alloc: Global, table: &Schemas, error: &CodedError<'t>) -> Result<By<'t>, JobError>
    requires operation { Stand table.now error.now.operation.items }
    requires service { Stand table.now error.now.service.items }
    ensures { ReadsCoded table.now error.now result }
{
    match error_of_code(alloc, table, error)? {
        Some(place) => by_schema(alloc, table, place, true, true),
        None => Ok(By::Unknown(error.code)),
    }
}

impl<'t> Target<'t> {
    ghost use Rattle.smithy_serde.specs.StoredValues.{HasNode};
    ghost use Rattle.smithy_schema.specs.Nodes.{at_place};
    ghost use Rattle.smithy_schema.specs.References.{schema_of};
    ghost use Rattle.std.specs.Prelude.{◌≡◌, Some};
    ghost use Rattle.smithy_bind.specs.views.ReplyView.{IsSound, NamesSchema, ReadsText, RepliesBy};

    /// What is read of a response by it, with a body of JSON (AWS restJson1), or the first refusal. Takes memory. Condition: a
    /// response can be read by it.
    #[tactic(auto, unfolding(crate::specs::Responding::read_by))]
    pub fn reply(&self, alloc: Global, message: &Message) -> Result<Reply<'_>, SerdeError>
        requires { IsSound self.now }
        ensures { RepliesBy self.now message.now result }
    {
        match self.by {
            By::Schema {
                place,
                is_error,
                is_coded,
            } => {
                let text = self.text_at(alloc, place, is_error, message)?;
                let error = self.name_at(place, is_coded);
                Ok(Reply { error, text })
            }
            By::Unknown(code) => Err(SerdeError::unknown_member(alloc, sanitize_error_code(code))),
        }
    }

    // The node at an index.
    fn schema_at(&self, place: SchemaIndex) -> SchemaRef<'_>
        requires { HasNode self.now.table place.0 }
        ensures { at_place self.now.table place.0 ≡ Some (schema_of result) }
    {
        let Some(schema) = self.table.get(place) else {
            unreachable!()
        };
        schema
    }

    /// Its full name, where it was found for a code. Takes no memory. Condition: the node is defined.
    pub fn name_at(&self, place: SchemaIndex, is_coded: bool) -> Option<&str>
        requires { HasNode self.now.table place.0 }
        ensures { NamesSchema self.now.table place.0 is_coded result }
    {
        if !is_coded {
            return None;
        }
        Some(self.schema_at(place).shape_id().as_str())
    }

    // The JSON text of what is read of a response by the node at an index.
    #[tactic(auto, using(crate::proofs::ReplyLemmas::memory_makes, crate::proofs::ReplyLemmas::value_refused, crate::proofs::ReplyLemmas::value_text))]
    fn text_at(
        &self,
        alloc: Global,
        place: SchemaIndex,
        is_error: bool,
        message: &Message,
    ) -> Result<Blob, SerdeError>
        requires { HasNode self.now.table place.0 }
        ensures { ReadsText self.now.table place.0 is_error message.now.response message.now.policy result }
    {
        let schema = self.schema_at(place);
        let response = &message.response;
        let Ok(body) = json_reader(alloc, response.body_bytes()) else {
            return Err(SerdeError::OutOfMemory);
        };
        let value = response_value(
            alloc,
            body,
            response,
            &self.table,
            place,
            is_error,
            message.policy,
        )?;
        document_text(alloc, schema, &value)
    }
}
