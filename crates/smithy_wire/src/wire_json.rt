// JSON as AWS's protocols write it by a node of a table.
ghost use Rattle.smithy_wire.specs.Standing.{Stand, Stand-prop};
ghost use Rattle.smithy_wire.specs.views.FormView.{form_view};
ghost use Rattle.smithy_wire.specs.views.KnownForms.{IsKnown, IsKnown-prop};

use crate::forms::{Form, body_form};
use crate::json_names::JsonNames;
use crate::json_values::json_in;
use crate::reading::document_of;
use crate::side::Side;
use crate::unread::told;
use crate::wire_style::WireStyle;
use crate::writing::wire_blob;
use json::Scratch;
use smithy_json::JsonError;
use smithy_schema::SchemaRef;
use smithy_serde::SerdeError;
use smithy_types::{Blob, Document, Members, OutOfMemory, Text};
use std::alloc::Global;

/// JSON as AWS's protocols write and read it by a node of a table: JSON names, times as texts, big numbers as numbers.
#[derive(Clone, Copy, Drop)]
pub struct WireJson<'t> {
    pub(crate) form: Form<'t>,
    pub(crate) style: WireStyle,
    pub(crate) names: Option<&'t JsonNames<'t>>,
    ghost stand: { Stand style.json_names (form_view form) } by { Stand-prop style.json_names (form_view form) },
    ghost known: { IsKnown names (form_view form) } by { IsKnown-prop names (form_view form) },
}

impl<'t> WireJson<'t> {
    ghost use Rattle.std.specs.Prelude.{◌≡◌, IfOk, IsTrue};
    ghost use Rattle.smithy_types.specs.DocumentView.{view};
    ghost use Rattle.smithy_wire.specs.Forms.{body_form, whole_form};
    ghost use Rattle.smithy_wire.specs.Styles.{refusing};
    ghost use Rattle.smithy_wire.specs.WireNames.{stands, whole_stands};
    ghost use Rattle.smithy_wire.specs.WireText.{wire_text, wire_held};
    ghost use Rattle.smithy_wire.specs.Words.{schema_of};
    ghost use Rattle.smithy_wire.specs.views.WireOf.{form_in, names_in, style_in, GivesHeld, IsHeld, IsHeldIn};
    ghost use Rattle.smithy_wire.specs.views.KnownForms.{AreOf};

    /// The JSON of a message's body by the schema of an input or an output, in a style. Fields are found by the names that are
    /// given, which are of the schema's table, or else one member after another. Condition: with JSON names, names stand in the
    /// message, which `names_stand` tests. Takes no memory.
    #[tactic(auto, using(crate::proofs::StandLemmas::body_stands_as, crate::proofs::KnownLemmas::body_known_as))]
    pub fn of_body(
        side: Side,
        schema: SchemaRef<'t>,
        style: WireStyle,
        names: Option<&'t JsonNames<'t>>,
    ) -> WireJson<'t>
        requires stand { IsTrue style.json_names → IsTrue (stands side (schema_of schema)) }
        requires table { AreOf (schema_of schema).table names }
        ensures form { form_in result ≡ body_form side (schema_of schema.entry) }
        ensures style { style_in result ≡ style }
    {
        WireJson {
            form: body_form(side, schema),
            style,
            names,
        }
    }

    /// The JSON of a request's body by the schema of an input, with JSON names where they are to be applied, which refuses
    /// fractions of seconds. Condition: then names stand, which `names_stand` tests. Takes no memory.
    pub fn of_input(schema: SchemaRef<'t>, json_names: bool) -> WireJson<'t>
        requires { IsTrue json_names → IsTrue (stands Side.Request (schema_of schema)) }
        ensures form { form_in result ≡ body_form Side.Request (schema_of schema.entry) }
        ensures names { names_in result ≡ json_names }
        ensures style { style_in result ≡ refusing json_names }
    {
        WireJson::of_body(Side::Request, schema, WireStyle::refusing(json_names), None)
    }

    /// The same of a response's body, by the schema of an output or an error.
    pub fn of_output(schema: SchemaRef<'t>, json_names: bool) -> WireJson<'t>
        requires { IsTrue json_names → IsTrue (stands Side.Response (schema_of schema)) }
        ensures form { form_in result ≡ body_form Side.Response (schema_of schema.entry) }
        ensures names { names_in result ≡ json_names }
        ensures style { style_in result ≡ refusing json_names }
    {
        WireJson::of_body(
            Side::Response,
            schema,
            WireStyle::refusing(json_names),
            None,
        )
    }

    /// The JSON of a body that holds the whole value of a node, whatever bindings it has, in a style. How fields are found is
    /// as of `of_body`. Condition: with JSON names, names stand in the whole value, which `whole_names_stand` tests. Takes no
    /// memory.
    #[tactic(auto, using(crate::proofs::StandLemmas::whole_stands_as, crate::proofs::KnownLemmas::whole_known_as))]
    pub fn of_node(
        schema: SchemaRef<'t>,
        style: WireStyle,
        names: Option<&'t JsonNames<'t>>,
    ) -> WireJson<'t>
        requires stand { IsTrue style.json_names → IsTrue (whole_stands (schema_of schema)) }
        requires table { AreOf (schema_of schema).table names }
        ensures form { form_in result ≡ whole_form (schema_of schema.entry) }
        ensures style { style_in result ≡ style }
    {
        WireJson {
            form: Form::of(schema),
            style,
            names,
        }
    }

    /// The same with JSON names where they are to be applied, which refuses fractions of seconds.
    pub fn of_whole(schema: SchemaRef<'t>, json_names: bool) -> WireJson<'t>
        requires { IsTrue json_names → IsTrue (whole_stands (schema_of schema)) }
        ensures form { form_in result ≡ whole_form (schema_of schema.entry) }
        ensures names { names_in result ≡ json_names }
        ensures style { style_in result ≡ refusing json_names }
    {
        WireJson::of_node(schema, WireStyle::refusing(json_names), None)
    }

    /// The compact JSON text of a document. Takes memory for the text.
    pub fn text(&self, alloc: Global, document: &Document) -> Result<Blob, OutOfMemory>
        ensures { IfOk result (λ b. b ≡ wire_text (names_in self.now) (form_in self.now) (view document.now)) }
    {
        wire_blob(alloc, *self, document)
    }

    /// The document that a body is; no bytes are the empty object. Takes memory.
    ///
    /// Refuses with `InvalidInput` where the bytes are no JSON in UTF-8 (RFC 8259) or nest deeper than 127, and where a number
    /// or a time can't be read as its node asks, with the text, the kind and the path.
    pub fn document(&self, alloc: Global, body: &[u8]) -> Result<Document, SerdeError>
        ensures { GivesHeld (wire_held (style_in self.now) (form_in self.now) body.now) result }
    {
        match self.read(alloc, body)? {
            Ok(document) => Ok(document),
            Err(message) => Err(SerdeError::InvalidInput { message }),
        }
    }

    /// The same, with the text of the refusal.
    pub(crate) fn read(
        &self,
        alloc: Global,
        body: &[u8],
    ) -> Result<Result<Document, Text>, OutOfMemory>
        ensures { IfOk result (IsHeld self.now body.now) }
    {
        if body.is_empty() {
            return Ok(Ok(Document::Object(Members::new(alloc))));
        }
        let mut scratch = Scratch::new(alloc);
        self.read_some(alloc, body, &mut scratch)
    }

    // The same of a body that isn't empty. It is no part of its caller, so that the scratch is not moved.
    #[inline(never)]
    fn read_some(
        &self,
        alloc: Global,
        body: &[u8],
        scratch: &mut Scratch,
    ) -> Result<Result<Document, Text>, OutOfMemory>
        ensures { IfOk result (IsHeldIn self.now body.now) }
    {
        match json_in(alloc, body, scratch) {
            Ok(value) => told(alloc, document_of(alloc, *self, &value)),
            Err(JsonError::OutOfMemory) => Err(OutOfMemory),
            Err(JsonError::Unreadable) => Ok(Err(Text::from_str(alloc, "body is not JSON")?)),
        }
    }
}
