// The command `requests`: the requests of many inputs of one operation, whose model is read and checked once.
ghost use Rattle.std.specs.Prelude.{◌≡◌, ◌+◌, ◌<◌, ◌≤◌, ◌++◌, length, drop};
ghost use Rattle.smithy_json.specs.JsonView.{view};
ghost use Rattle.smithy_bind.specs.Outcome.{json_bodies, requested_to};
ghost use Rattle.smithy_bind.specs.views.AnswerView.{Gives};

use crate::line::with_line;
use crate::sending::{HeaderColumn, placed_among, placed_by};
use crate::told::Answer;
use smithy_binding::{HttpBindingProtocol, LowerHeaderNames, checked_input};
use smithy_http::Request;
use smithy_job::{Common, Inputs, inputs_of, read_common};
use smithy_json::JsonValue;
use smithy_model::JobError;
use smithy_schema::{SchemaExtension, Schemas};
use smithy_serde::{Codec, SerdeError, StructValue, WriteList};
use smithy_types::OutOfMemory;
use std::alloc::Global;

// So many inputs are read before they are placed: blocks of memory that are free again serve the next ones.
const FEW_INPUTS: usize = 4;

// The next of some inputs behind so many of them: a few, or the whole of what is left. Condition: some are left.
fn next_part<'i, 't>(inputs: &'i [JsonValue<'t>], done: usize, whole: bool) -> &'i [JsonValue<'t>]
    requires { done < length inputs.now }
    ensures some { 0 < length result.now }
    ensures within { done + length result.now ≤ length inputs.now }
    ensures cut { drop done inputs.now ≡ result.now ++ drop (done + length result.now) inputs.now }
{
    let (_, left) = inputs.split_at(done);
    if whole {
        return left;
    }
    match left.split_at_checked(FEW_INPUTS) {
        Some((few, _)) => few,
        None => left,
    }
}

/// An operation whose model was read and checked once, and which places any number of inputs.
#[derive(Drop)]
pub struct ReadOperation<'v, 't> {
    /// What the jobs of the inputs have in common.
    pub common: Common<'v, 't>,
}

impl<'v, 't> ReadOperation<'v, 't> {
    ghost use Rattle.std.specs.Prelude.{◌≡◌, codes, map, option_map, IfOk, IfSome};
    ghost use Rattle.std.specs.List.{AllByRecursion};
    ghost use Rattle.smithy_json.specs.JsonView.{view};
    ghost use Rattle.smithy_serde.specs.StoredValues.{AreDefined, HasNode};
    ghost use Rattle.smithy_job.specs.Tables.{ReadsAs};
    ghost use Rattle.smithy_bind.specs.Requesting.{operation};
    ghost use Rattle.smithy_bind.specs.views.RequestedView.{AddsLine, IsOperation, IsRead, MakesInput, MakesLines, PlacesInput, TellsBehind, TellsInputs};

    /// The operation of a job, whose `input` or `inputs` are not looked at: its model, its name, the endpoint and the headers to be
    /// left out. Takes memory. No job where one of these has not its form, or where no request can be placed by the schema.
    pub fn read(alloc: Global, job: &'v JsonValue<'t>) -> Result<ReadOperation<'v, 't>, JobError>
        ensures value { ReadsAs IsOperation (operation (view job.now)) result }
        ensures read { IfOk result IsRead }
    {
        let common = read_common(alloc, job)?;
        let Some(schema) = common.model.table.get(common.model.index) else {
            unreachable!()
        };
        if !checked_input(alloc, schema)? {
            return Err(JobError::NoJob);
        }
        Ok(ReadOperation { common })
    }

    /// The request of an input, with a body of JSON by a codec (AWS restJson1), or its first fault: what `request` answers to the
    /// job of this input alone. Takes memory. No job where the value has not the form of an input. Conditions: the operation was
    /// read, and the codec is lawful.
    pub fn request<C: Codec + Drop>(
        &self,
        alloc: Global,
        codec: C,
        input: &JsonValue<'_>,
    ) -> Result<Result<Request, SerdeError>, JobError>
        requires lawful { C.lawful codec }
        requires read { IsRead self.now }
        ensures { PlacesInput (C.text codec) self.now (view input.now) result }
    {
        let protocol = HttpBindingProtocol::rest_json(codec);
        let Inputs { further, mut each } = self
            .common
            .read_inputs(alloc, std::slice::from_ref(input))?;
        let nodes = further.as_ref().unwrap_or(&self.common.model.table);
        let Some(writes) = each.pop() else {
            unreachable!()
        };
        match self.made(alloc, &protocol, nodes, writes) {
            Some(made) => Ok(made),
            None => Err(JobError::NoJob),
        }
    }

    /// A line of JSON for each input, in order, that tells its request, its first fault, or that the value has not the form of
    /// an input. Nothing of the model is read or checked again, but for two readings at most where a name in the inputs is no
    /// member's. Takes memory. Conditions: the operation was read, and the codec is lawful.
    pub fn lines<C: Codec + Drop>(
        &self,
        alloc: Global,
        codec: C,
        inputs: &[JsonValue<'_>],
    ) -> Result<Vec<u8>, OutOfMemory>
        requires lawful { C.lawful codec }
        requires read { IsRead self.now }
        ensures { IfOk result (TellsInputs (C.text codec) self.now (map view inputs.now)) }
    {
        let protocol = HttpBindingProtocol::rest_json(codec);
        let provider = LowerHeaderNames::new(alloc);
        let mut names = SchemaExtension::new(alloc, &self.common.model.table, provider)?;
        self.lines_by(alloc, &protocol, &mut names, inputs)
    }

    // The lines of inputs by a protocol, a few after the other. From where a name in them is no member's, all that are left are read
    // at once, so that the model is not read again for each of them.
    fn lines_by<C: Codec>(
        &self,
        alloc: Global,
        protocol: &HttpBindingProtocol<C>,
        names: &mut HeaderColumn<'_>,
        inputs: &[JsonValue<'_>],
    ) -> Result<Vec<u8>, OutOfMemory>
        requires lawful { C.lawful protocol.now.codec }
        requires json { protocol.now.content_type ≡ codes "application/json" }
        requires read { IsRead self.now }
        requires beside { names.old.table ≡ self.now.common.model.table }
        ensures { IfOk result (TellsInputs (C.text protocol.now.codec) self.now (map view inputs.now)) }
    {
        let mut lines = Vec::new(alloc);
        let mut done = 0;
        let mut whole = false;
        while done < inputs.len() {
            let part = next_part(inputs, done, whole);
            let (more, is_further) = self.with_inputs(alloc, protocol, names, part, lines)?;
            lines = more;
            whole = is_further;
            done += part.len();
        }
        Ok(lines)
    }

    // The lines, and behind them those of inputs, and whether a name in these is no member's.
    fn with_inputs<C: Codec>(
        &self,
        alloc: Global,
        protocol: &HttpBindingProtocol<C>,
        names: &mut HeaderColumn<'_>,
        inputs: &[JsonValue<'_>],
        lines: Vec<u8>,
    ) -> Result<(Vec<u8>, bool), OutOfMemory>
        requires lawful { C.lawful protocol.now.codec }
        requires json { protocol.now.content_type ≡ codes "application/json" }
        requires read { IsRead self.now }
        requires beside { names.old.table ≡ self.now.common.model.table }
        ensures lines { IfOk result
            (TellsBehind (C.text protocol.now.codec) self.now (map view inputs.now) lines) }
        ensures beside { names.new.table ≡ self.now.common.model.table }
    {
        let Inputs { further, each } = self.common.read_inputs(alloc, inputs)?;
        let nodes = further.as_ref().unwrap_or(&self.common.model.table);
        let more = self.lines_of(alloc, protocol, names, nodes, each, lines)?;
        Ok((more, further.is_some()))
    }

    // What comes of the writes of an input, where there are some.
    fn made<C: Codec>(
        &self,
        alloc: Global,
        protocol: &HttpBindingProtocol<C>,
        nodes: &Schemas,
        writes: Option<WriteList>,
    ) -> Option<Result<Request, SerdeError>>
        requires lawful { C.lawful protocol.now.codec }
        requires json { protocol.now.content_type ≡ codes "application/json" }
        requires read { IsRead self.now }
        requires node { HasNode nodes.now self.now.common.model.index.0 }
        requires defined { IfSome writes (AreDefined nodes.now) }
        ensures { MakesInput (C.text protocol.now.codec) self.now nodes.now writes result }
    {
        let Common { model, .. } = &self.common;
        let Some(schema) = model.table.get(model.index) else {
            unreachable!()
        };
        match writes {
            Some(writes) => {
                let input = StructValue::with_writes(nodes, model.index, writes);
                let endpoint = self.common.endpoint;
                Some(placed_by(alloc, protocol, schema, &input, endpoint, self.common.omit))
            }
            None => None,
        }
    }

    // The same for one of many inputs, with a column of header names beside the model's table.
    fn made_among<C: Codec>(
        &self,
        alloc: Global,
        protocol: &HttpBindingProtocol<C>,
        names: &mut HeaderColumn<'_>,
        nodes: &Schemas,
        writes: Option<WriteList>,
    ) -> Option<Result<Request, SerdeError>>
        requires lawful { C.lawful protocol.now.codec }
        requires json { protocol.now.content_type ≡ codes "application/json" }
        requires read { IsRead self.now }
        requires node { HasNode nodes.now self.now.common.model.index.0 }
        requires defined { IfSome writes (AreDefined nodes.now) }
        requires beside { names.old.table ≡ self.now.common.model.table }
        ensures made { MakesInput (C.text protocol.now.codec) self.now nodes.now writes result }
        ensures beside { names.new.table ≡ self.now.common.model.table }
    {
        let Common { model, .. } = &self.common;
        let Some(schema) = model.table.get(model.index) else {
            unreachable!()
        };
        match writes {
            Some(writes) => {
                let input = StructValue::with_writes(nodes, model.index, writes);
                let Common { endpoint, omit, .. } = &self.common;
                Some(placed_among(alloc, protocol, names, schema, &input, endpoint, *omit))
            }
            None => None,
        }
    }

    // The lines, and behind them that of one of many inputs, by its writes.
    fn with_input<C: Codec>(
        &self,
        alloc: Global,
        protocol: &HttpBindingProtocol<C>,
        names: &mut HeaderColumn<'_>,
        nodes: &Schemas,
        writes: Option<WriteList>,
        lines: Vec<u8>,
    ) -> Result<Vec<u8>, OutOfMemory>
        requires lawful { C.lawful protocol.now.codec }
        requires json { protocol.now.content_type ≡ codes "application/json" }
        requires read { IsRead self.now }
        requires node { HasNode nodes.now self.now.common.model.index.0 }
        requires defined { IfSome writes (AreDefined nodes.now) }
        requires beside { names.old.table ≡ self.now.common.model.table }
        ensures line { IfOk result
            (AddsLine (C.text protocol.now.codec) self.now nodes.now writes lines) }
        ensures beside { names.new.table ≡ self.now.common.model.table }
    {
        let made = self.made_among(alloc, protocol, names, nodes, writes);
        with_line(alloc, lines, &made)
    }

    // The lines, and behind them those of inputs, by their writes.
    fn lines_of<C: Codec>(
        &self,
        alloc: Global,
        protocol: &HttpBindingProtocol<C>,
        names: &mut HeaderColumn<'_>,
        nodes: &Schemas,
        each: Vec<Option<WriteList>>,
        mut lines: Vec<u8>,
    ) -> Result<Vec<u8>, OutOfMemory>
        requires lawful { C.lawful protocol.now.codec }
        requires json { protocol.now.content_type ≡ codes "application/json" }
        requires read { IsRead self.now }
        requires node { HasNode nodes.now self.now.common.model.index.0 }
        requires defined { AllByRecursion (λ w. IfSome w (AreDefined nodes.now)) each.items }
        requires beside { names.old.table ≡ self.now.common.model.table }
        ensures lines { IfOk result
            (MakesLines (C.text protocol.now.codec) self.now nodes.now each lines) }
        ensures beside { names.new.table ≡ self.now.common.model.table }
    {
        for writes in each {
            lines = self.with_input(alloc, protocol, names, nodes, writes, lines)?;
        }
        Ok(lines)
    }
}

/// What is to be told of the inputs that a JSON value has: a line for each, in order. Takes memory. No job where what their jobs
/// have in common is none, or where no request can be placed by the schema. Condition: the codec, which writes the bodies, is
/// lawful.
#[tactic(auto, unfolding(crate::specs::Outcome::requested_to))]
pub fn lines_told<C: Codec + Drop>(
    alloc: Global,
    codec: C,
    value: &JsonValue<'_>,
) -> Result<Answer, JobError>
    requires { C.lawful codec }
    ensures { Gives (requested_to (json_bodies (C.text codec)) (view value.now)) result }
{
    let Some(inputs) = inputs_of(value) else {
        return Err(JobError::NoJob);
    };
    let operation = ReadOperation::read(alloc, value)?;
    Ok(Answer::Output(operation.lines(alloc, codec, inputs)?))
}
