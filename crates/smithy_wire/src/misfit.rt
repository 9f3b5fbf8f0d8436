// Where a value of a body doesn't follow its node.
ghost use Rattle.std.specs.Prelude.{◌≡◌, ◌≢◌, IfOk, Option};
ghost use Rattle.smithy_schema.specs.Nodes.{Table};
ghost use Rattle.smithy_serde.specs.StoredValues.{label_at, value_in, write_in, writes_in};
ghost use Rattle.smithy_serde.specs.Values.{text_of_key};
ghost use Rattle.smithy_types.specs.declared.date_time.Format.TheVariants.{EpochSeconds};
ghost use Rattle.smithy_wire.specs.Words.{schema_of};
ghost use Rattle.smithy_wire.specs.Misfits.{body_misfit, body_misfit_told, entry_misfit, field_misfit, here, is_outside, is_union, item_misfit, misfit, misfit_told, outside, takes, told_name, whole_misfit_told, wrong_count, wrong_decimal, wrong_integer, wrong_kind, wrong_name, wrong_number, wrong_time, wrong_year};
ghost use Rattle.smithy_wire.specs.views.FormView.{form_view};
ghost use Rattle.smithy_wire.specs.views.MisfitView.{Finds, FindsBehind, FindsField, FindsNamed, FindsOuter, FindsText, TellsFound, TellsMisfit, TellsOf};
ghost use Rattle.smithy_wire.specs.views.WireReads.{step_view};
ghost use Rattle.smithy_wire.specs.declared.misfit.Misfit.{Misfit as Place};

use crate::exact_numbers::{is_integer, is_number};
use crate::forms::{Form, form_word, shape};
use crate::names::{field_named, name_of};
use crate::unread::{Step, behind, part_step, without_point};
use crate::writing::seconds_text;
use smithy_ids::ShapeType;
use smithy_schema::{Binding, SchemaIndex, SchemaRef, Schemas};
use smithy_serde::{Scalar, SerdeError, ShapeValue, WriteList};
use smithy_types::{DateTime, Format, OutOfMemory, Text};
use std::alloc::Global;

/// Why a value doesn't follow its node.
#[derive(Debug, Drop)]
pub(crate) enum Cause {
    /// No member has this name.
    Unknown,
    /// It is of one kind where another stands: the words of both.
    WrongKind(Text, Text),
    /// A union of so many members.
    Members(usize),
    /// A time of a year that has no text.
    Year,
    /// The text of a big number is no number of JSON.
    NoNumber(Text),
}

/// The place of such a value, with the cause.
#[derive(Debug, Drop)]
pub(crate) struct Misfit {
    pub(crate) cause: Cause,
    pub(crate) path: Text,
}

/// Why a value was not passed.
#[derive(Debug, Drop)]
pub(crate) enum Refused {
    Misfit(Misfit),
    OutOfMemory,
}

impl From<OutOfMemory> for Refused {
    ghost use Rattle.smithy_wire.specs.declared.misfit.Refused.TheVariants as refused;

    ghost from_gives = { λ _ e. e ≡ refused.OutOfMemory };

    fn from(_: OutOfMemory) -> Refused {
        Refused::OutOfMemory
    }
}

fn placed(alloc: Global, cause: Cause) -> Result<Misfit, OutOfMemory>
    ensures { IfOk result (λ (m : Place). m ≡ here cause) }
{
    Ok(Misfit {
        cause,
        path: Text::from_str(alloc, "")?,
    })
}

// It doesn't follow its node here.
fn refusal_here(alloc: Global, cause: Cause) -> Refused
    ensures { TellsOf (here cause) result }
{
    match placed(alloc, cause) {
        Ok(misfit) => Refused::Misfit(misfit),
        Err(_) => Refused::OutOfMemory,
    }
}

// One step further out.
fn outward(alloc: Global, step: Step<'_>, inner: Misfit) -> Result<Misfit, OutOfMemory>
    ensures { IfOk result (λ (m : Place). m ≡ outside (step_view step.entry) inner) }
{
    let Misfit { cause, path } = inner;
    let path = behind(alloc, step, &path)?;
    Ok(Misfit { cause, path })
}

// What was found behind a step.
fn within(alloc: Global, step: Step<'_>, tried: Result<(), Refused>) -> Result<(), Refused>
    ensures { FindsBehind (step_view step.entry) tried result }
{
    match tried {
        Ok(()) => Ok(()),
        Err(Refused::OutOfMemory) => Err(Refused::OutOfMemory),
        Err(Refused::Misfit(misfit)) => match outward(alloc, step, misfit) {
            Ok(outer) => Err(Refused::Misfit(outer)),
            Err(_) => Err(Refused::OutOfMemory),
        },
    }
}

// Whether a form takes a value: it is of its kind, and where no node asks each is.
fn takes(form: Form<'_>, value: &ShapeValue) -> bool
    ensures { (t : Table) → result ≡ takes (form_view form.entry) (value_in t value.now) }
{
    match form.kind() {
        Some(kind) => value.fits(kind),
        None => true,
    }
}

// That a value is of its form's kind.
fn test_kind(alloc: Global, form: Form<'_>, value: &ShapeValue) -> Result<(), Refused>
    ensures { (t : Table) → Finds (wrong_kind (form_view form.entry) (value_in t value.now)) result }
{
    if takes(form, value) {
        return Ok(());
    }
    let written = Text::from_str(alloc, value.written_word())?;
    let asked = Text::from_str(alloc, form_word(form))?;
    Err(refusal_here(alloc, Cause::WrongKind(written, asked)))
}

// That the year of a time has a text.
fn test_year(alloc: Global, format: Format, time: &DateTime) -> Result<(), Refused>
    requires { format ≢ EpochSeconds }
    ensures { Finds (wrong_year format time.now) result }
{
    match seconds_text(alloc, format, time.secs())? {
        Some(_) => Ok(()),
        None => Err(refusal_here(alloc, Cause::Year)),
    }
}

// That the text of a big number is such a number of JSON.
fn test_number(alloc: Global, is_one: bool, text: &str) -> Result<(), Refused>
    ensures { Finds (wrong_number is_one text.now) result }
{
    if is_one {
        return Ok(());
    }
    Err(refusal_here(alloc, Cause::NoNumber(Text::from_str(alloc, text)?)))
}

fn test_time(alloc: Global, form: Form<'_>, time: &DateTime) -> Result<(), Refused>
    ensures { Finds (wrong_time (form_view form.entry) time.now) result }
{
    match form {
        Form::DateTime => test_year(alloc, Format::DateTime, time),
        Form::HttpDate => test_year(alloc, Format::HttpDate, time),
        _ => Ok(()),
    }
}

fn test_big_integer(alloc: Global, form: Form<'_>, text: &str) -> Result<(), Refused>
    ensures { Finds (wrong_integer (form_view form.entry) text.now) result }
{
    match form {
        Form::BigInteger => test_number(alloc, is_integer(text), text),
        _ => Ok(()),
    }
}

fn test_big_decimal(alloc: Global, form: Form<'_>, text: &str) -> Result<(), Refused>
    ensures { Finds (wrong_decimal (form_view form.entry) text.now) result }
{
    match form {
        Form::BigDecimal => test_number(alloc, is_number(text), text),
        _ => Ok(()),
    }
}

// That a scalar of its form's kind has a text there.
#[tactic(auto, unfolding(smithy_serde::specs::StoredValues::value_in))]
fn test_text(alloc: Global, form: Form<'_>, value: &ShapeValue) -> Result<(), Refused>
    ensures { (t : Table) → FindsText (form_view form.entry) (value_in t value.now) result }
{
    match value {
        ShapeValue::Timestamp(time) => test_time(alloc, form, time),
        ShapeValue::BigInteger(number) => test_big_integer(alloc, form, number.as_str()),
        ShapeValue::BigDecimal(number) => test_big_decimal(alloc, form, number.as_str()),
        _ => Ok(()),
    }
}

fn is_union(form: Form<'_>) -> bool
    ensures { result ≡ is_union (form_view form.entry) }
{
    match form {
        Form::Fields(_, schema) => schema.shape_type() == ShapeType::Union,
        _ => false,
    }
}

// That a union has exactly one member.
fn test_count(alloc: Global, form: Form<'_>, fields: &WriteList) -> Result<(), Refused>
    ensures { (t : Table) → Finds (wrong_count (form_view form.entry) (writes_in t fields.now)) result }
{
    if !is_union(form) || fields.len() == 1 {
        return Ok(());
    }
    Err(refusal_here(alloc, Cause::Members(fields.len())))
}

// That a structure has a field of this name.
fn test_name(alloc: Global, form: Form<'_>, name: &str) -> Result<(), Refused>
    ensures { Finds (wrong_name (form_view form.entry) name.now) result }
{
    match form {
        Form::Fields(side, schema) => match field_named(side, schema, name) {
            Some(_) => Ok(()),
            None => Err(refusal_here(alloc, Cause::Unknown)),
        },
        _ => Ok(()),
    }
}

// The name of the member that a write is told by.
fn told_name<'t>(table: &'t Schemas, node: SchemaIndex) -> &'t str
    ensures { result.now ≡ told_name (label_at table.now node.0) }
{
    match table.get(node) {
        Some(schema) => name_of(schema),
        None => "",
    }
}

// The text of a key, and the empty one of what is no text.
#[tactic(auto, unfolding(smithy_serde::specs::StoredValues::value_in))]
fn key_text<'w>(key: &'w ShapeValue) -> &'w str
    ensures { (t : Table) → result.now ≡ text_of_key (value_in t key.now) }
{
    match key {
        ShapeValue::String(text) => text.as_str(),
        _ => "",
    }
}

// Whether a value follows its form at every depth, or its first place that doesn't.
#[cycle(misfit)]
fn test_value(
    alloc: Global,
    table: &Schemas,
    form: Form<'_>,
    value: &ShapeValue,
) -> Result<(), Refused>
    ensures { Finds (misfit (form_view form.entry) (value_in table.now value.now)) result }
{
    match value {
        ShapeValue::Null => Ok(()),
        ShapeValue::List(items) => {
            test_kind(alloc, form, value)?;
            test_items(alloc, table, form.element(), items)
        }
        ShapeValue::Map(entries) => {
            test_kind(alloc, form, value)?;
            test_entries(alloc, table, form, entries)
        }
        ShapeValue::Struct(fields) => {
            test_kind(alloc, form, value)?;
            test_count(alloc, form, fields)?;
            test_fields(alloc, table, form, fields)
        }
        _ => {
            test_kind(alloc, form, value)?;
            test_text(alloc, form, value)
        }
    }
}

#[cycle(misfit)]
fn test_items(
    alloc: Global,
    table: &Schemas,
    form: Form<'_>,
    items: &WriteList,
) -> Result<(), Refused>
    ensures { Finds (item_misfit (form_view form.entry) 0 (writes_in table.now items.now)) result }
{
    'items: for position in 0..items.len() {
        let Some(item) = items.value(position) else {
            unreachable!()
        };
        let tried = test_value(alloc, table, form, item);
        within(alloc, Step::Item(position), tried)?;
    }
    Ok(())
}

// Keys and values in turn.
#[cycle(misfit)]
fn test_entries(
    alloc: Global,
    table: &Schemas,
    form: Form<'_>,
    entries: &WriteList,
) -> Result<(), Refused>
    ensures { Finds (entry_misfit (form_view form.entry) (writes_in table.now entries.now)) result }
{
    let mut parts = entries.iter();
    'entries: while let Some((_, key)) = parts.next() {
        if let Some((_, value)) = parts.next() {
            let name = key_text(key);
            let tried = test_value(alloc, table, form.part(name), value);
            within(alloc, part_step(form, name), tried)?;
        }
    }
    Ok(())
}

// The value of a member that is told by a name.
#[cycle(misfit)]
fn test_named(
    alloc: Global,
    table: &Schemas,
    form: Form<'_>,
    name: &str,
    value: &ShapeValue,
) -> Result<(), Refused>
    ensures { FindsNamed (form_view form.entry) name.now (value_in table.now value.now) result }
{
    test_name(alloc, form, name)?;
    test_value(alloc, table, form.part(name), value)
}

// The same from its structure.
#[cycle(misfit)]
fn test_field(
    alloc: Global,
    table: &Schemas,
    form: Form<'_>,
    name: &str,
    value: &ShapeValue,
) -> Result<(), Refused>
    ensures { FindsField (form_view form.entry) name.now (value_in table.now value.now) result }
{
    let tried = test_named(alloc, table, form, name, value);
    within(alloc, part_step(form, name), tried)
}

#[cycle(misfit)]
fn test_fields(
    alloc: Global,
    table: &Schemas,
    form: Form<'_>,
    fields: &WriteList,
) -> Result<(), Refused>
    ensures { Finds (field_misfit (form_view form.entry) (writes_in table.now fields.now)) result }
{
    'fields: for (node, value) in fields.iter() {
        test_field(alloc, table, form, told_name(table, node), value)?;
    }
    Ok(())
}

// Whether the member of an input that has this name stands outside the body.
fn is_outside(schema: SchemaRef<'_>, name: &str) -> bool
    ensures { result ≡ is_outside (schema_of schema.entry) name.now }
{
    match shape(schema).member_schema(name) {
        Some(member) => { !matches!(member.request_binding(), Binding::Body | Binding::Payload) }
        None => false,
    }
}

// A write of an input, which is passed over where it stands outside the body.
fn test_outer(
    alloc: Global,
    table: &Schemas,
    schema: SchemaRef<'_>,
    node: SchemaIndex,
    value: &ShapeValue,
) -> Result<(), Refused>
    ensures { FindsOuter (schema_of schema.entry) (write_in table.now node value.now) result }
{
    let name = told_name(table, node);
    if is_outside(schema, name) {
        return Ok(());
    }
    test_field(alloc, table, Form::of(schema), name, value)
}

// The writes of an input that stand in its body.
fn test_body(
    alloc: Global,
    table: &Schemas,
    schema: SchemaRef<'_>,
    input: &WriteList,
) -> Result<(), Refused>
    ensures { Finds (body_misfit (schema_of schema.entry) (writes_in table.now input.now)) result }
{
    for (node, value) in input.iter() {
        test_outer(alloc, table, schema, node, value)?;
    }
    Ok(())
}

// The message of a cause at a path.
fn told(alloc: Global, misfit: &Misfit) -> Result<SerdeError, OutOfMemory>
    ensures { IfOk result (λ e. e ≡ misfit_told misfit.now) }
{
    let path = without_point(misfit.path.as_str());
    Ok(match &misfit.cause {
        Cause::Unknown => SerdeError::UnknownMember {
            member_name: Text::from_str(alloc, path)?,
        },
        Cause::WrongKind(written, asked) => {
            let (written, asked) = (written.as_str(), asked.as_str());
            let text = format!(in alloc; "cannot write {written} to {path} of type {asked}")?;
            SerdeError::UnsupportedOperation {
                message: Text::from_string(text),
            }
        }
        Cause::Members(count) => SerdeError::InvalidInput {
            message: Text::from_string(format!(in alloc; "union {path} has {count} members")?),
        },
        Cause::Year => {
            let text = format!(in alloc;
                "failed to format timestamp at {path}: year outside 1 to 9999"
            )?;
            SerdeError::Custom {
                message: Text::from_string(text),
            }
        }
        Cause::NoNumber(number) => {
            let number = number.as_str();
            let text = format!(in alloc; "{number} at {path} is no number of JSON")?;
            SerdeError::InvalidInput {
                message: Text::from_string(text),
            }
        }
    })
}

fn answer(alloc: Global, tried: Result<(), Refused>) -> Result<(), SerdeError>
    ensures { (found : Option Place) → Finds found tried → TellsFound found result }
{
    match tried {
        Ok(()) => Ok(()),
        Err(Refused::OutOfMemory) => Err(SerdeError::OutOfMemory),
        Err(Refused::Misfit(misfit)) => match told(alloc, &misfit) {
            Ok(error) => Err(error),
            Err(_) => Err(SerdeError::OutOfMemory),
        },
    }
}

/// Whether what stands in the body of an input's request follows its nodes at every depth: each member is known and each value
/// of its node's kind, a union has one member, a time that is a text is of a year 1 to 9999, and a big number is one of JSON
/// (RFC 8259). The writes are those of an input by this schema; members that stand in the target or the headers are passed over.
/// Refuses with the first place in the order of the writes, its path in the text. Takes memory for texts of times, and for a
/// refusal.
pub fn check_body(
    alloc: Global,
    table: &Schemas,
    node: SchemaRef<'_>,
    input: &WriteList,
) -> Result<(), SerdeError>
    ensures { TellsMisfit (body_misfit_told (schema_of node.entry) (writes_in table.now input.now)) result }
{
    answer(alloc, test_body(alloc, table, node, input))
}

/// The same of all members of an input that is posted whole, whatever bindings they have.
pub fn check_whole(
    alloc: Global,
    table: &Schemas,
    node: SchemaRef<'_>,
    input: &WriteList,
) -> Result<(), SerdeError>
    ensures { TellsMisfit (whole_misfit_told (schema_of node.entry) (writes_in table.now input.now)) result }
{
    answer(alloc, test_fields(alloc, table, Form::of(node), input))
}
