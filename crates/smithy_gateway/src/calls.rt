// The input that a request posts whole.
ghost use Rattle.std.specs.Prelude.{◌≡◌, codes};
ghost use Rattle.smithy_recovery.specs.views.Stages.{Tells};
ghost use Rattle.smithy_gateway.specs.Words.{same_text, schema_of, max_nesting, members_of, structure, protocol_of, is_shallow_at};
ghost use Rattle.smithy_gateway.specs.Gateway.{posts_writes};
ghost use Rattle.smithy_gateway.specs.views.Sending.{IsSet, KeepsCall, FindsForm, FindsCall};

use crate::sending::{placed, posted};
use crate::setting::Setting;
use smithy_binding::{HttpBindingProtocol, HttpRpcProtocol};
use smithy_http::Request;
use smithy_recovery::{RecoverError, are_shallow, recover_request};
use smithy_schema::{SchemaRef, Schemas};
use smithy_serde::{
    Codec, OmitFlags, SerializableStruct, StructValue, WriteList, read_struct_value,
};
use std::alloc::Global;

// The nesting of a structure's values up to which a codec tells the structure's document apart.
const MAX_VALUE_NESTING: usize = 99;

// Whether a request is a post.
fn is_post(request: &Request) -> bool
    ensures { result ≡ same_text request.now.method (codes "POST") }
{
    request.method() == "POST"
}

// The writes that a codec's reader has of a body by the schema's members, where that is told. `NotPlaced` where it refuses.
fn read_writes<D: Codec>(
    alloc: Global,
    rpc: &HttpRpcProtocol<D>,
    table: &Schemas,
    schema: SchemaRef<'_>,
    request: &Request,
) -> Result<WriteList, RecoverError>
    requires { (schema_of schema).table ≡ table.now }
    ensures { KeepsCall D.holds rpc.now table.now schema.entry request.now result }
{
    let body = request.body().as_slice();
    let mut reader = rpc.codec().create_deserializer(alloc, body)?;
    Ok(read_struct_value(alloc, &mut reader, table, schema)?)
}

// Whether an input is nested at most so deep that a codec tells its document apart.
fn is_shallow(input: &StructValue<'_>) -> bool
    ensures { result ≡ is_shallow_at max_nesting (structure (members_of input.now)) }
{
    match input.stored_writes() {
        Some((_, writes)) => are_shallow(writes, MAX_VALUE_NESTING),
        None => unreachable!(),
    }
}

// Whether a request has the body of an input that is posted whole.
fn is_posted<D: Codec>(
    alloc: Global,
    rpc: &HttpRpcProtocol<D>,
    schema: SchemaRef<'_>,
    input: &StructValue<'_>,
    request: &Request,
) -> Result<bool, RecoverError>
    requires { D.lawful rpc.now.codec }
    ensures { Tells (posts_writes (protocol_of D.text rpc.now) (members_of input.now) request.now) result }
{
    if !is_shallow(input) {
        return Ok(false);
    }
    let sent = posted(alloc, rpc, schema, input, "", OmitFlags::KEEP_ALL)?;
    Ok(sent.body().as_slice() == request.body().as_slice())
}

// The input that is recovered of the request of what was read, where it is posted with the body of a request. `NotPlaced`
// where there is none.
fn posted_form<'t, C: Codec, D: Codec>(
    alloc: Global,
    rest: &HttpBindingProtocol<C>,
    rpc: &HttpRpcProtocol<D>,
    at: Setting<'t, '_>,
    read: &StructValue<'_>,
    request: &Request,
) -> Result<StructValue<'t>, RecoverError>
    requires set { IsSet at }
    requires lawful { C.lawful rest.now.codec }
    requires lawful_rpc { D.lawful rpc.now.codec }
    ensures { FindsForm C.text C.holds D.text D.holds rest.now rpc.now at.entry read.now request.now result }
{
    let sent = placed(alloc, rest, at, read)?;
    let input = recover_request(alloc, rest, &sent, at.table, at.place, at.endpoint, at.omit)?;
    if !is_posted(alloc, rpc, at.node, &input, request)? {
        return Err(RecoverError::NotPlaced);
    }
    Ok(input)
}

/// The input that a request posts: what is read of its body is placed, recovered of the placed request as a typed input in
/// normal form, and posted again, and has to be the body. `NotPlaced` where there is none. Takes memory.
pub fn call_input<'t, C: Codec, D: Codec>(
    alloc: Global,
    rest: &HttpBindingProtocol<C>,
    rpc: &HttpRpcProtocol<D>,
    at: Setting<'t, '_>,
    request: &Request,
) -> Result<StructValue<'t>, RecoverError>
    requires set { IsSet at }
    requires lawful { C.lawful rest.now.codec }
    requires lawful_rpc { D.lawful rpc.now.codec }
    ensures { FindsCall C.text C.holds D.text D.holds rest.now rpc.now at.entry request.now result }
{
    if !is_post(request) {
        return Err(RecoverError::NotPlaced);
    }
    let writes = read_writes(alloc, rpc, at.table, at.node, request)?;
    let read = StructValue::with_writes(at.table, at.place, writes);
    posted_form(alloc, rest, rpc, at, &read, request)
}
