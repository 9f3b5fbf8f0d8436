// The body of a message: a payload, or the document of the unbound members (Smithy, HTTP protocol bindings).
ghost use Rattle.std.specs.Prelude.{◌≡◌, None, IfOk, IfErr, IfSome};
ghost use Rattle.smithy_binding.specs.Words.{Table, structure, document_fault, IsTextOf, IsReady, value_in, IsDefined};
ghost use Rattle.smithy_serde.specs.Writing.{Tells};
ghost use Rattle.smithy_serde.specs.Refusing.{IsFaultRefusal};
ghost use Rattle.smithy_binding.specs.Bodies.{raw_bytes, document_by, bytes_by};
ghost use Rattle.smithy_binding.specs.Faults.{fault_of_document};
ghost use Rattle.smithy_binding.specs.Refusing.{IsTold};
ghost use Rattle.smithy_binding.specs.views.KeptWrites.{told, kept_payload, AreRaw, AreText, AreDefinedWrites, kept_in, IsKeptDefined};

use crate::body_form::BodyForm;
use crate::body_writes::{BodyWrite, BodyWrites};
use smithy_schema::{SchemaRef, Schemas};
use smithy_serde::{
    FinishSerializer, SerdeError, ShapeSerializer, ShapeValue, finish_struct, tell, value_text,
};
use smithy_types::{Blob, OutOfMemory};
use std::alloc::Global;

// Tells the writes in order, each by the node of its member.
fn tell_writes<S: ShapeSerializer>(
    serializer: &mut S,
    table: &Schemas,
    writes: &[BodyWrite<'_, '_>],
) -> Result<(), SerdeError>
    requires { AreDefinedWrites table.now writes.now }
    ensures { Tells (told table.now writes.now) (S.seen serializer.old) (S.seen serializer.new) result }
{
    for write in writes {
        tell(serializer, write.member, table, write.value)?;
    }
    Ok(())
}

// The text of the structure of these writes. `Custom` for the first rule of documents that it breaks. Takes memory.
fn text_of_writes<S: FinishSerializer + Drop>(
    mut serializer: S,
    schema: SchemaRef<'_>,
    table: &Schemas,
    writes: &[BodyWrite<'_, '_>],
) -> Result<Blob, SerdeError>
    requires defined { AreDefinedWrites table.now writes.now }
    requires ready { IsReady (S.seen serializer) }
    ensures ok { IfOk result (IsTextOf ((S.seen serializer).text) (structure (told table.now writes.now))) }
    ensures err { IfErr result (IsFaultRefusal (document_fault (structure (told table.now writes.now)))) }
{
    serializer.open_struct(schema)?;
    tell_writes(&mut serializer, table, writes)?;
    finish_struct(serializer)
}

// The bytes of a text or a blob.
#[tactic(auto, unfolding(smithy_serde::specs::StoredValues::value_in))]
fn raw_bytes(value: &ShapeValue) -> &[u8]
    ensures { (t : Table) → result.now ≡ raw_bytes (value_in t value.now) }
{
    match value {
        ShapeValue::String(text) => text.as_str().as_bytes(),
        ShapeValue::Blob(bytes) => bytes.as_slice(),
        _ => &[],
    }
}

// The bytes of a text or blob payload, none where it was not written.
fn raw_body(alloc: Global, payload: Option<BodyWrite<'_, '_>>) -> Result<Blob, OutOfMemory>
    ensures { IfOk result (AreRaw payload.entry) }
{
    match payload {
        Some(write) => Blob::new(alloc, raw_bytes(write.value)),
        None => Blob::new(alloc, &[]),
    }
}

// The text of a payload's document, no bytes where it was not written.
fn payload_body<S: FinishSerializer + Drop>(
    alloc: Global,
    serializer: S,
    table: &Schemas,
    payload: Option<BodyWrite<'_, '_>>,
) -> Result<Blob, SerdeError>
    requires defined { IfSome payload (λ w. IsDefined table.now w.value.now) }
    requires ready { IsReady (S.seen serializer) }
    ensures ok { IfOk result (λ _. fault_of_document (kept_payload table.now payload.entry) ≡ None) }
    ensures bytes { IfOk result (AreText (S.seen serializer).text table.now payload.entry) }
    ensures err { IfErr result (IsTold (fault_of_document (kept_payload table.now payload.entry))) }
{
    match payload {
        Some(write) => value_text(serializer, write.member, table, write.value),
        None => Ok(Blob::new(alloc, &[])?),
    }
}

/// The body of these writes, by its form: the bytes of a text or blob payload, the serializer's text of the value of
/// another payload or of the structure of the unbound writes, or no bytes; of a payload that was not written, none.
/// `Custom` for the first rule of documents that the document breaks. Takes memory (Smithy, HTTP protocol bindings, httpPayload).
pub fn message_body<S: FinishSerializer + Drop>(
    alloc: Global,
    serializer: S,
    schema: SchemaRef<'_>,
    form: BodyForm,
    table: &Schemas,
    writes: &BodyWrites<'_, '_>,
) -> Result<Blob, SerdeError>
    requires defined { IsKeptDefined table.now writes.now }
    requires ready { IsReady (S.seen serializer) }
    ensures ok { IfOk result
        (λ _. fault_of_document (document_by form (kept_in table.now writes.now)) ≡ None) }
    ensures bytes { IfOk result
        (λ b. b ≡ bytes_by form (S.seen serializer).text (kept_in table.now writes.now)) }
    ensures err { IfErr result
        (IsTold (fault_of_document (document_by form (kept_in table.now writes.now)))) }
{
    match form {
        BodyForm::Raw => Ok(raw_body(alloc, writes.payload)?),
        BodyForm::Payload => payload_body(alloc, serializer, table, writes.payload),
        BodyForm::Unbound => text_of_writes(serializer, schema, table, writes.unbound.as_slice()),
        BodyForm::Nothing => Ok(Blob::new(alloc, &[])?),
    }
}
