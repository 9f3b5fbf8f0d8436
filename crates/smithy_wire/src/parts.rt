// The JSON of what stands in an array or an object, by the names in it.
ghost use Rattle.std.specs.Borrow.{Bor};
ghost use Rattle.std.specs.Prelude.{◌≡◌, true, option_map};
ghost use Rattle.smithy_wire.specs.Forms.{element_form, fields, form_of, name_in, part_form};
ghost use Rattle.smithy_wire.specs.WireNames.{field_in_json, named_in_json, names_stand, swapped};
ghost use Rattle.smithy_wire.specs.Words.{name_of, option_map_or, schema_of};
ghost use Rattle.smithy_wire.specs.views.FieldNames.{MayTell, Tells};
ghost use Rattle.smithy_wire.specs.views.PartView.{IsPart, IsWritten};
ghost use Rattle.smithy_wire.specs.views.WireOf.{form_in, names_in, style_in};
ghost use Rattle.smithy_wire.specs.declared.node_names.NodeNames.{NodeNames as Told};

use crate::forms::Form;
use crate::names::{field_named, json_field, json_name, name_of};
use crate::node_names::NodeNames;
use crate::side::Side;
use crate::wire_json::WireJson;
use smithy_schema::SchemaRef;

/// What stands in an object: its name, and the JSON of its place.
#[derive(Clone, Copy, Drop)]
pub(crate) struct Part<'t> {
    pub(crate) name: &'t str,
    pub(crate) place: WireJson<'t>,
}

impl<'t> WireJson<'t> {
    /// The JSON of the items of an array.
    pub(crate) fn element(self) -> WireJson<'t>
        ensures form { form_in result ≡ element_form (form_in self.entry) }
        ensures style { style_in result ≡ style_in self.entry }
    {
        WireJson {
            form: self.form.element(),
            style: self.style,
            names: self.names,
        }
    }

    // That of what stands in an object under a name, which is a field's own.
    #[tactic(auto, using(crate::proofs::StandLemmas::part_stands_as, crate::proofs::KnownLemmas::part_known_as))]
    fn named(self, name: &'t str) -> Part<'t>
        ensures { IsPart self.entry name.now result }
    {
        let place = WireJson {
            form: self.form.part(name),
            style: self.style,
            names: self.names,
        };
        Part { name, place }
    }

    // That of a field, which has this name of its own, under a name.
    #[tactic(auto, using(crate::proofs::StandLemmas::part_stands_as, crate::proofs::KnownLemmas::part_known_as))]
    fn field(self, own: &str, member: SchemaRef<'t>, name: &'t str) -> Part<'t>
        requires { form_of (schema_of member) ≡ part_form (form_in self) own.now }
        ensures name { result.name.now ≡ name.now }
        ensures form { form_in result.place ≡ part_form (form_in self.entry) own.now }
        ensures style { style_in result.place ≡ style_in self.entry }
    {
        let place = WireJson {
            form: Form::of(member),
            style: self.style,
            names: self.names,
        };
        Part { name, place }
    }

    // What is told of the names of a structure.
    #[tactic(auto, using(crate::proofs::PartLemmas::told_here))]
    fn node_names(self, side: Option<Side>, schema: SchemaRef<'t>) -> Option<&'t NodeNames>
        requires { form_in self ≡ fields side (schema_of schema) }
        ensures { MayTell (schema_of schema.entry) (option_map (λ (t : Bor Told). t.now) result) }
    {
        let names = self.names?;
        let place = schema.index()?;
        names.column.peek(place)
    }

    // What is read under a name in JSON that no field has.
    fn read_other(self, side: Option<Side>, schema: SchemaRef<'t>, name: &'t str) -> Part<'t>
        ensures { IsPart self.entry (named_in_json side (schema_of schema.entry) name.now) result }
    {
        match field_named(side, schema, name) {
            Some(member) => self.named(json_name(member)),
            None => self.named(name),
        }
    }

    // What is read under the name in JSON of a field, by what is told of the names of its structure.
    #[tactic(auto, using(crate::proofs::PartLemmas::renamed_form, crate::proofs::PartLemmas::renamed_part, crate::proofs::PartLemmas::other_part))]
    fn read_renamed(
        self,
        told: Option<&'t NodeNames>,
        side: Option<Side>,
        schema: SchemaRef<'t>,
        name: &'t str,
    ) -> Part<'t>
        requires form { form_in self ≡ fields side (schema_of schema) }
        requires stand { names_stand side (schema_of schema) ≡ true }
        requires told { MayTell (schema_of schema) (option_map (λ (t : Bor Told). t.now) told) }
        ensures { IsPart self.entry (swapped side (schema_of schema.entry) name.now) result }
    {
        match json_field(told, side, schema, name) {
            Some(member) => {
                let own = name_of(member);
                self.field(own, member, own)
            }
            None => self.read_other(side, schema, name),
        }
    }

    // What is read in the object of a structure under a name in JSON, by what is told of its names.
    fn read_told(
        self,
        names: &'t NodeNames,
        side: Option<Side>,
        schema: SchemaRef<'t>,
        name: &'t str,
    ) -> Part<'t>
        requires form { form_in self ≡ fields side (schema_of schema) }
        requires stand { names_stand side (schema_of schema) ≡ true }
        requires told { Tells (schema_of schema) names.now }
        ensures { IsPart self.entry (swapped side (schema_of schema.entry) name.now) result }
    {
        match names {
            NodeNames::Own => self.named(name),
            _ => self.read_renamed(Some(names), side, schema, name),
        }
    }

    // What is read in the object of a structure under a name in JSON.
    #[tactic(auto, using(crate::proofs::PartLemmas::names_here))]
    fn read_field(self, side: Option<Side>, schema: SchemaRef<'t>, name: &'t str) -> Part<'t>
        requires form { form_in self ≡ fields side (schema_of schema) }
        requires names { names_in self ≡ true }
        ensures { IsPart self.entry (swapped side (schema_of schema.entry) name.now) result }
    {
        match self.node_names(side, schema) {
            Some(names) => self.read_told(names, side, schema, name),
            None => self.read_renamed(None, side, schema, name),
        }
    }

    /// What is read in an object under a name in JSON: its own name, and the JSON of its place.
    pub(crate) fn read_part(self, name: &'t str) -> Part<'t>
        ensures { IsPart self.entry (name_in (names_in self.entry) (form_in self.entry) name.now) result }
    {
        if !self.style.json_names {
            return self.named(name);
        }
        match self.form {
            Form::Fields(side, schema) => self.read_field(side, schema, name),
            Form::Free => self.named(name),
            Form::Items(_) => self.named(name),
            Form::Entries(_) => self.named(name),
            Form::DateTime => self.named(name),
            Form::HttpDate => self.named(name),
            Form::BigInteger => self.named(name),
            Form::BigDecimal => self.named(name),
            Form::Whole(_) => self.named(name),
            Form::Document => self.named(name),
            Form::Other(_) => self.named(name),
        }
    }

    // The name in JSON of what is written under a name that no field has.
    #[tactic(auto, using(crate::proofs::PartLemmas::names_here))]
    fn other_name(self, side: Option<Side>, schema: SchemaRef<'t>, name: &'t str) -> &'t str
        requires form { form_in self ≡ fields side (schema_of schema) }
        requires names { names_in self ≡ true }
        ensures { result.now ≡ option_map_or name_of
            (field_in_json side (schema_of schema.entry) name.now) name.now }
    {
        match json_field(self.node_names(side, schema), side, schema, name) {
            Some(member) => name_of(member),
            None => name,
        }
    }

    // What is written in the object of a structure under a name.
    #[tactic(auto, using(crate::proofs::PartLemmas::written_form, crate::proofs::PartLemmas::written_renamed, crate::proofs::PartLemmas::written_other))]
    fn written_field(self, side: Option<Side>, schema: SchemaRef<'t>, name: &'t str) -> Part<'t>
        requires form { form_in self ≡ fields side (schema_of schema) }
        requires names { names_in self ≡ true }
        ensures { IsWritten self.entry name.now (swapped side (schema_of schema.entry) name.now) result }
    {
        match field_named(side, schema, name) {
            Some(member) => self.field(name, member, json_name(member)),
            None => Part {
                name: self.other_name(side, schema, name),
                place: self.named(name).place,
            },
        }
    }

    /// What is written in an object under a name: its name in JSON, and the JSON of its place.
    pub(crate) fn written_part(self, name: &'t str) -> Part<'t>
        ensures { IsWritten
            self.entry name.now (name_in (names_in self.entry) (form_in self.entry) name.now) result }
    {
        if !self.style.json_names {
            return self.named(name);
        }
        match self.form {
            Form::Fields(side, schema) => self.written_field(side, schema, name),
            Form::Free => self.named(name),
            Form::Items(_) => self.named(name),
            Form::Entries(_) => self.named(name),
            Form::DateTime => self.named(name),
            Form::HttpDate => self.named(name),
            Form::BigInteger => self.named(name),
            Form::BigDecimal => self.named(name),
            Form::Whole(_) => self.named(name),
            Form::Document => self.named(name),
            Form::Other(_) => self.named(name),
        }
    }
}
