// What a place of a body is read and written as, by its node.
ghost use Rattle.std.specs.Prelude.{◌≡◌, option_map};
ghost use Rattle.smithy_wire.specs.Words.{schema_of, shape, time_format};
ghost use Rattle.smithy_wire.specs.Forms.{body_form, either_format, element_form, form_by, form_kind, form_of, form_or_free, form_word, is_coded, is_coded_payload, part_form, time_form};
ghost use Rattle.smithy_wire.specs.views.FormView.{form_view};
ghost use Rattle.smithy_wire.specs.views.MemberSteps.{payload_from, coded_payload_in};

use crate::names::field_named;
use crate::side::Side;
use smithy_ids::{ShapeType, TimestampFormat};
use smithy_schema::SchemaRef;
use smithy_serde::kind_word;

/// What a place of a body is read and written as.
#[derive(Clone, Copy, Drop)]
pub(crate) enum Form<'t> {
    Free,
    Fields(Option<Side>, SchemaRef<'t>),
    Items(Option<SchemaRef<'t>>),
    Entries(Option<SchemaRef<'t>>),
    DateTime,
    HttpDate,
    BigInteger,
    BigDecimal,
    Whole(ShapeType),
    Document,
    Other(ShapeType),
}

/// The target's node where there is one, else the node itself.
pub(crate) fn shape<'t>(schema: SchemaRef<'t>) -> SchemaRef<'t>
    ensures { schema_of result ≡ shape (schema_of schema.entry) }
{
    match schema.target() {
        Some(target) => target,
        None => schema,
    }
}

fn time_format(schema: SchemaRef<'_>) -> Option<TimestampFormat>
    ensures { result ≡ time_format (schema_of schema.entry) }
{
    match schema.timestamp_format() {
        Some(format) => Some(format.format()),
        None => None,
    }
}

// The node's own format, else its shape's.
fn either_format(schema: SchemaRef<'_>) -> Option<TimestampFormat>
    ensures { result ≡ either_format (schema_of schema.entry) }
{
    match time_format(schema) {
        Some(format) => Some(format),
        None => time_format(shape(schema)),
    }
}

fn time_form(format: Option<TimestampFormat>) -> Form<'static>
    ensures { form_view result ≡ time_form format }
{
    match format {
        Some(TimestampFormat::DateTime) => Form::DateTime,
        Some(TimestampFormat::HttpDate) => Form::HttpDate,
        Some(TimestampFormat::EpochSeconds) => Form::Whole(ShapeType::Timestamp),
        None => Form::Whole(ShapeType::Timestamp),
    }
}

// The form of a node of a kind, at the top of a side or elsewhere.
fn form_by<'t>(kind: ShapeType, side: Option<Side>, schema: SchemaRef<'t>) -> Form<'t>
    ensures { form_view result ≡ form_by kind side (schema_of schema.entry) }
{
    match kind {
        ShapeType::Structure => Form::Fields(side, shape(schema)),
        ShapeType::Union => Form::Fields(side, shape(schema)),
        ShapeType::List => Form::Items(shape(schema).element()),
        ShapeType::Map => Form::Entries(shape(schema).value()),
        ShapeType::Timestamp => time_form(either_format(schema)),
        ShapeType::BigInteger => Form::BigInteger,
        ShapeType::BigDecimal => Form::BigDecimal,
        ShapeType::Byte => Form::Whole(ShapeType::Byte),
        ShapeType::Short => Form::Whole(ShapeType::Short),
        ShapeType::Integer => Form::Whole(ShapeType::Integer),
        ShapeType::Long => Form::Whole(ShapeType::Long),
        ShapeType::Document => Form::Document,
        ShapeType::Boolean => Form::Other(ShapeType::Boolean),
        ShapeType::Float => Form::Other(ShapeType::Float),
        ShapeType::Double => Form::Other(ShapeType::Double),
        ShapeType::String => Form::Other(ShapeType::String),
        ShapeType::Blob => Form::Other(ShapeType::Blob),
        ShapeType::Member => Form::Other(ShapeType::Member),
    }
}

// The form of a node, where there is one.
fn form_or_free<'t>(here: Option<SchemaRef<'t>>) -> Form<'t>
    ensures { form_view result ≡ form_or_free (option_map schema_of here.entry) }
{
    match here {
        Some(schema) => Form::of(schema),
        None => Form::Free,
    }
}

impl<'t> Form<'t> {
    /// The form of a node below the top.
    pub(crate) fn of(schema: SchemaRef<'t>) -> Form<'t>
        ensures { form_view result ≡ form_of (schema_of schema.entry) }
    {
        form_by(shape(schema).shape_type(), None, schema)
    }

    /// The kind of values that it asks for, if it asks for one.
    pub(crate) fn kind(self) -> Option<ShapeType>
        ensures { result ≡ form_kind (form_view self.entry) }
    {
        match self {
            Form::Free => None,
            Form::Fields(_, schema) => Some(schema.shape_type()),
            Form::Items(_) => Some(ShapeType::List),
            Form::Entries(_) => Some(ShapeType::Map),
            Form::DateTime => Some(ShapeType::Timestamp),
            Form::HttpDate => Some(ShapeType::Timestamp),
            Form::BigInteger => Some(ShapeType::BigInteger),
            Form::BigDecimal => Some(ShapeType::BigDecimal),
            Form::Whole(kind) => Some(kind),
            Form::Document => Some(ShapeType::Document),
            Form::Other(kind) => Some(kind),
        }
    }

    /// The form of an array's items.
    pub(crate) fn element(self) -> Form<'t>
        ensures { form_view result ≡ element_form (form_view self.entry) }
    {
        match self {
            Form::Items(element) => form_or_free(element),
            Form::Document => Form::Document,
            Form::Free => Form::Free,
            Form::Fields(_, _) => Form::Free,
            Form::Entries(_) => Form::Free,
            Form::DateTime => Form::Free,
            Form::HttpDate => Form::Free,
            Form::BigInteger => Form::Free,
            Form::BigDecimal => Form::Free,
            Form::Whole(_) => Form::Free,
            Form::Other(_) => Form::Free,
        }
    }

    /// The form of what stands in an object under a name, which is a field's own.
    pub(crate) fn part(self, name: &str) -> Form<'t>
        ensures { form_view result ≡ part_form (form_view self.entry) name.now }
    {
        match self {
            Form::Fields(side, schema) => form_or_free(field_named(side, schema, name)),
            Form::Entries(value) => form_or_free(value),
            Form::Document => Form::Document,
            Form::Free => Form::Free,
            Form::Items(_) => Form::Free,
            Form::DateTime => Form::Free,
            Form::HttpDate => Form::Free,
            Form::BigInteger => Form::Free,
            Form::BigDecimal => Form::Free,
            Form::Whole(_) => Form::Free,
            Form::Other(_) => Form::Free,
        }
    }
}

/// The word of a form's kind in messages.
pub(crate) fn form_word(form: Form<'_>) -> &'static str
    ensures { result.now ≡ form_word (form_view form.entry) }
{
    match form.kind() {
        Some(kind) => kind_word(kind),
        None => "value",
    }
}

// A payload that a codec writes.
fn is_coded_payload(member: SchemaRef<'_>) -> bool
    ensures { result ≡ is_coded_payload (schema_of member.entry) }
{
    member.http_payload().is_some()
        && !matches!(
            shape(member).shape_type(),
            ShapeType::Blob | ShapeType::String
        )
}

// The member at a position, where it is such a payload.
fn payload_at<'t>(schema: SchemaRef<'t>, position: usize) -> Option<SchemaRef<'t>>
    ensures { option_map schema_of result ≡ coded_payload_in (schema_of schema.entry) position }
{
    let member = schema.member_schema_by_index(position)?;
    if is_coded_payload(member) {
        Some(member)
    } else {
        None
    }
}

// The first payload that a codec writes.
fn payload_of<'t>(schema: SchemaRef<'t>) -> Option<SchemaRef<'t>>
    ensures { option_map schema_of result ≡ payload_from (schema_of schema.entry) 0 }
{
    for position in 0..schema.members().len() {
        if let Some(member) = payload_at(schema, position) {
            return Some(member);
        }
    }
    None
}

/// The form of a message's body: that of its payload, where it has one that a codec writes, else that of its fields.
pub(crate) fn body_form<'t>(side: Side, schema: SchemaRef<'t>) -> Form<'t>
    ensures { form_view result ≡ body_form side (schema_of schema.entry) }
{
    let whole = shape(schema);
    match payload_of(whole) {
        Some(payload) => Form::of(payload),
        None => form_by(whole.shape_type(), Some(side), schema),
    }
}
