// The input of a request (Smithy, HTTP protocol bindings).
ghost use Rattle.std.specs.Prelude.{◌≡◌, Some, IsTrue, IfOk};
ghost use Rattle.smithy_schema.specs.Nodes.{at_place};
ghost use Rattle.smithy_schema.specs.References.{schema_of};
ghost use Rattle.smithy_schema.specs.WellMade.{is_well_made};
ghost use Rattle.smithy_serde.specs.StoredValues.{HasNode, AreDefined};
ghost use Rattle.smithy_serde.specs.StructValues.{table_of, node_of};
ghost use Rattle.smithy_binding.specs.Checked.{checked_input};
ghost use Rattle.smithy_recovery.specs.Recovering.{IsCheckedAt, Recovers, IsInputOf, Lacks};
ghost use Rattle.smithy_recovery.specs.views.Stages.{StandsAt, TellsTyped, Answers, Places, TellsSame, RecoversNode};

use crate::error::RecoverError;
use crate::laws::recovered_is_exact;
use crate::member_values::read_writes;
use crate::same_facts::has_same_facts;
use crate::typed::has_typed_writes;
use smithy_binding::{HttpBindingProtocol, has_clear_template};
use smithy_http::Request;
use smithy_schema::{SchemaIndex, SchemaRef, Schemas};
use smithy_serde::{Codec, OmitFlags, SerdeError, StructValue, WriteList};
use smithy_types::OutOfMemory;
use smithy_unambiguity::laws::{facts_decide_view, view_settles};
use std::alloc::Global;

// By what an input is recovered and placed: a node of a table with its place, an endpoint, and the default headers to leave out.
#[derive(Clone, Copy, Drop)]
struct Setting<'t, 'e> {
    table: &'t Schemas,
    place: SchemaIndex,
    schema: SchemaRef<'t>,
    endpoint: &'e str,
    omit: OmitFlags,
}

/// The input of a request: the one typed input that is its own normal form and whose request, placed by `protocol` with
/// the default headers that `omit` leaves, has the facts of this one: its method, its path, under each name of a header
/// the same values and under each name of the query the same pieces, in order, and its body. It is a structure over
/// `table` by the node at `schema`; its writes stand in index order.
///
/// `NotPlaced` exactly where no typed input has a request with these facts. So requests of other makers are recovered
/// only as far as they are spelled as `serialize_request` spells them: an escape in lower case, other blanks in a list of
/// a header, a member of JSON that no member of the schema has, or JSON in another layout is of no input.
/// `OutOfMemory` where memory was wanted and not there; then nothing is known of the request.
///
/// Takes memory: for the input, for what the codec's reader keeps, and for the request of the input, which is placed once
/// and compared. Its time is that of reading the request, of placing one and, where their headers or queries stand in
/// another order, of sorting these by names: linear in the request and in the shapes of the structures in its body, up to
/// the logarithm of the number of headers, of pieces of the query, and of members. Conditions: the schema stands in the
/// table, `checked_input` holds of it, and the codec is lawful.
pub fn recover_request<'t, C: Codec>(
    alloc: Global,
    protocol: &HttpBindingProtocol<C>,
    request: &Request,
    table: &'t Schemas,
    schema: SchemaIndex,
    endpoint: &str,
    omit: OmitFlags,
) -> Result<StructValue<'t>, RecoverError>
    requires node { HasNode table.now schema.0 }
    requires checked { IsCheckedAt table.now schema.0 }
    requires lawful { C.lawful protocol.now.codec }
    ensures table { IfOk result (λ v. table_of v ≡ table.now) }
    ensures node { IfOk result (λ v. Some (node_of v) ≡ at_place table.now schema.0) }
    ensures value { Recovers C.text C.holds protocol.now table.now schema.0 endpoint.now omit request.now result }
    ensures ok { IfOk result (IsInputOf C.text C.holds protocol.now endpoint.now omit request.now) }
    ensures not_placed { Lacks C.text C.holds protocol.now table.now schema endpoint.now omit request.now result }
{
    facts_decide_view(protocol);
    view_settles(protocol);
    recovered_is_exact(protocol);
    let Some(node) = table.get(schema) else {
        unreachable!()
    };
    let setting = Setting {
        table,
        place: schema,
        schema: node,
        endpoint,
        omit,
    };
    recover_input(alloc, protocol, request, setting)
}

// The input of a request by a schema that stands at its place of the table.
fn recover_input<'t, C: Codec>(
    alloc: Global,
    protocol: &HttpBindingProtocol<C>,
    request: &Request,
    setting: Setting<'t, '_>,
) -> Result<StructValue<'t>, RecoverError>
    requires node { at_place setting.table.now setting.place.0 ≡ Some (schema_of setting.schema) }
    requires checked { IsTrue (checked_input (schema_of setting.schema)) }
    requires well_made { IsTrue (is_well_made (schema_of setting.schema)) }
    requires lawful { C.lawful protocol.now.codec }
    ensures table { IfOk result (λ v. table_of v ≡ setting.entry.table.now) }
    ensures node { IfOk result (StandsAt setting.entry) }
    ensures value { RecoversNode C.text C.holds protocol.now setting.entry request.now result }
{
    let (table, schema, endpoint) = (setting.table, setting.schema, setting.endpoint);
    let writes = read_writes(alloc, protocol, request, table, schema, endpoint)?;
    if !are_typed(alloc, table, schema, &writes, endpoint)? {
        return Err(RecoverError::NotPlaced);
    }
    let input = StructValue::with_writes(table, setting.place, writes);
    if !is_placed_so(alloc, protocol, request, setting, &input)? {
        return Err(RecoverError::NotPlaced);
    }
    Ok(input)
}

// Whether the writes are a typed input's, and the template is clear.
fn are_typed(
    alloc: Global,
    table: &Schemas,
    schema: SchemaRef<'_>,
    writes: &WriteList,
    endpoint: &str,
) -> Result<bool, OutOfMemory>
    requires table { (schema_of schema).table ≡ table.now }
    requires checked { IsTrue (checked_input (schema_of schema)) }
    requires defined { AreDefined table.now writes.now }
    ensures { TellsTyped schema.entry endpoint.now table.now writes.now result }
{
    if !has_typed_writes(alloc, table, schema, writes)? {
        return Ok(false);
    }
    has_clear_template(alloc, schema, endpoint)
}

// The request of an input, or its first fault.
fn serialized<C: Codec>(
    alloc: Global,
    protocol: &HttpBindingProtocol<C>,
    setting: Setting<'_, '_>,
    input: &StructValue<'_>,
) -> Result<Request, SerdeError>
    requires checked { IsTrue (checked_input (schema_of setting.schema)) }
    requires lawful { C.lawful protocol.now.codec }
    ensures { Answers C.text protocol.now setting.entry input.now result }
{
    protocol.serialize_request(alloc, input, setting.schema, setting.endpoint, setting.omit)
}

// The request of an input. `NotPlaced` where it has none.
fn placed<C: Codec>(
    alloc: Global,
    protocol: &HttpBindingProtocol<C>,
    setting: Setting<'_, '_>,
    input: &StructValue<'_>,
) -> Result<Request, RecoverError>
    requires checked { IsTrue (checked_input (schema_of setting.schema)) }
    requires lawful { C.lawful protocol.now.codec }
    ensures { Places C.text protocol.now setting.entry input.now result }
{
    match serialized(alloc, protocol, setting, input) {
        Ok(request) => Ok(request),
        Err(error) => Err(RecoverError::from(error)),
    }
}

// Whether the input has a request with the same facts.
fn is_placed_so<C: Codec>(
    alloc: Global,
    protocol: &HttpBindingProtocol<C>,
    request: &Request,
    setting: Setting<'_, '_>,
    input: &StructValue<'_>,
) -> Result<bool, RecoverError>
    requires checked { IsTrue (checked_input (schema_of setting.schema)) }
    requires lawful { C.lawful protocol.now.codec }
    ensures { TellsSame C.text C.holds protocol.now setting.entry input.now request.now result }
{
    let placed = placed(alloc, protocol, setting, input)?;
    Ok(has_same_facts(alloc, &placed, request)?)
}
