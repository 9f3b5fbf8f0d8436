// The text of what is told, as it is told.
ghost use Rattle.std.specs.Prelude.{◌≡◌, ◌<◌, ◌+◌, ◌∷◌, [], length, false, Err, IfOk, IfErr, OnOk, OnErr};
ghost use Rattle.smithy_document.specs.Words.{view, label, scalar_of, scalar_document as document_of, key_text, key_is_no_text};
ghost use Rattle.smithy_document.specs.Building.{Building};
ghost use Rattle.smithy_document.specs.views.JsonStanding.{Part, IsPartOf, wants_key, settled, group_kind, opening, empty_of, level_of, IsNamed, LeadsOrNot, LeadsGroup, PutsScalar, IsAnswered, IsKeyed, KeyOutcome, WritesScalar, Begins, IsOrdered, EndsObject, EndsText, Leaving, Ends, IsNewWriting};

use crate::building::{no_member_name, not_a_text, second_value, unmatched_key};
use crate::frame::full_name_of;
use crate::json_fields::JsonFields;
use crate::json_scalars::{base64_text, push_comma, push_name, push_scalar};
use smithy_schema::SchemaRef;
use smithy_serde::{Group, Scalar, SerdeError};
use smithy_types::{Document, OutOfMemory};
use std::alloc::Global;

/// What a group is a group of.
#[derive(Clone, Copy, Drop)]
pub(crate) enum Kind {
    Top,
    Items,
    Fields,
    Entries,
}

/// What comes next in a group: a value, or none, since there is a second one at the top, or a member without a name.
#[derive(Clone, Copy, Drop)]
pub(crate) enum Lead {
    Value,
    Second,
    Unnamed,
}

/// What the text of a group has come to.
#[derive(Clone, Copy, Drop)]
pub(crate) struct Level {
    pub(crate) kind: Kind,
    /// Something stands in it.
    pub(crate) later: bool,
    /// Of a map: a key stands whose value is to come.
    pub(crate) keyed: bool,
    /// Its names ascend strictly.
    pub(crate) ascends: bool,
    /// Where its text begins.
    pub(crate) start: usize,
    /// How many fields the objects around it have.
    pub(crate) first: usize,
}

/// A group that is open: what the group around it has come to, and why its end will be refused there.
#[derive(Drop)]
pub(crate) struct Around {
    pub(crate) level: Level,
    pub(crate) refused: Option<SerdeError>,
}

/// The text of what was told so far, with what the open groups need for their ends.
#[derive(Drop)]
pub(crate) struct JsonWriting {
    alloc: Global,
    pub(crate) text: Vec<u8>,
    pub(crate) fields: JsonFields,
    pub(crate) level: Level,
    pub(crate) around: Vec<Around>,
}

impl Level {
    fn of(kind: Kind, start: usize, first: usize) -> Level
        ensures { result ≡ level_of kind start first }
    {
        Level {
            kind,
            later: false,
            keyed: false,
            ascends: true,
            start,
            first,
        }
    }
}

fn kind_inside(group: Group) -> Kind
    ensures { result ≡ group_kind group }
{
    match group {
        Group::List => Kind::Items,
        Group::Map => Kind::Entries,
        Group::Structure => Kind::Fields,
    }
}

fn opening(group: Group) -> u8
    ensures { result ≡ opening group }
{
    match group {
        Group::List => b'[',
        Group::Map | Group::Structure => b'{',
    }
}

fn group_word(group: Group) -> &'static str
    ensures { key_text (empty_of group) ≡ Err (key_is_no_text result.now) }
{
    match group {
        Group::List => "list",
        Group::Map | Group::Structure => "map",
    }
}

impl JsonWriting {
    /// Nothing was told. Takes no memory.
    pub(crate) fn new(alloc: Global) -> JsonWriting
        ensures { IsNewWriting result }
    {
        JsonWriting {
            alloc,
            text: Vec::new(alloc),
            fields: JsonFields::new(alloc),
            level: Level::of(Kind::Top, 0, 0),
            around: Vec::new(alloc),
        }
    }

    /// The text of the one value that was told, and none where nothing was.
    pub(crate) fn into_text(self) -> Vec<u8>
        ensures { result ≡ self.text }
    {
        self.text
    }

    // The name of a field, behind a comma where one stands before it.
    #[inline(never)]
    fn name(&mut self, name: &str) -> Result<(), OutOfMemory>
        ensures named { OnOk result (IsNamed name.now self.old self.new) }
        ensures around { self.new.around ≡ self.old.around }
    {
        let later = self.level.later;
        self.level.ascends = self.level.ascends && (!later || self.fields.is_behind(name));
        push_comma(&mut self.text, later)?;
        self.fields.push(self.alloc, name, self.text.len())?;
        push_name(self.alloc, &mut self.text, name)
    }

    // The key of an entry.
    fn key(&mut self, name: &str) -> Result<(), OutOfMemory>
        ensures keyed { OnOk result (IsKeyed name.now self.old self.new) }
        ensures around { self.new.around ≡ self.old.around }
    {
        self.name(name)?;
        self.level.keyed = true;
        Ok(())
    }

    fn document_key(&mut self, document: &Document) -> Result<(), SerdeError>
        ensures keyed { KeyOutcome (view document.now) self.old self.new result }
        ensures around { self.new.around ≡ self.old.around }
    {
        match document {
            Document::String(text) => Ok(self.key(text.as_str())?),
            Document::Null => Err(not_a_text(self.alloc, "null")),
            Document::Bool(_) => Err(not_a_text(self.alloc, "boolean")),
            Document::Number(_) => Err(not_a_text(self.alloc, "number")),
            Document::Array(_) => Err(not_a_text(self.alloc, "list")),
            Document::Object(_) => Err(not_a_text(self.alloc, "map")),
        }
    }

    // A scalar where a key is due.
    #[inline(never)]
    fn scalar_key(&mut self, scalar: Scalar<'_>) -> Result<(), SerdeError>
        ensures keyed { KeyOutcome (document_of (scalar_of scalar.entry)) self.old self.new result }
        ensures around { self.new.around ≡ self.old.around }
    {
        match scalar {
            Scalar::Boolean(_) => Err(not_a_text(self.alloc, "boolean")),
            Scalar::Byte(_) => Err(not_a_text(self.alloc, "number")),
            Scalar::Short(_) => Err(not_a_text(self.alloc, "number")),
            Scalar::Integer(_) => Err(not_a_text(self.alloc, "number")),
            Scalar::Long(_) => Err(not_a_text(self.alloc, "number")),
            Scalar::BigInteger(value) => Ok(self.key(value.as_str())?),
            Scalar::BigDecimal(value) => Ok(self.key(value.as_str())?),
            Scalar::String(value) => Ok(self.key(value)?),
            Scalar::Blob(value) => {
                let text = base64_text(self.alloc, value.as_slice())?;
                Ok(self.key(text.as_str())?)
            }
            Scalar::Timestamp(_) => Err(not_a_text(self.alloc, "number")),
            Scalar::Document(value) => self.document_key(value),
            Scalar::Null => Err(not_a_text(self.alloc, "null")),
        }
    }

    // What stands before a value where no key is due: a comma, a name.
    #[inline(always)]
    fn lead(&mut self, schema: SchemaRef<'_>) -> Result<Lead, OutOfMemory>
        ensures leads { IfOk result (LeadsOrNot (label schema.entry) self.old self.new) }
        ensures kind { OnOk result (self.new.level.kind ≡ self.old.level.kind) }
        ensures around { self.new.around ≡ self.old.around }
    {
        match self.level.kind {
            Kind::Top => {
                if self.level.later {
                    Ok(Lead::Second)
                } else {
                    Ok(Lead::Value)
                }
            }
            Kind::Items => {
                push_comma(&mut self.text, self.level.later)?;
                Ok(Lead::Value)
            }
            Kind::Fields => match schema.member_name() {
                Some(name) => {
                    self.name(name)?;
                    Ok(Lead::Value)
                }
                None => Ok(Lead::Unnamed),
            },
            Kind::Entries => Ok(Lead::Value),
        }
    }

    // Whether a key is due.
    fn wants_key(&self) -> bool
        ensures { (b : Building) (inner : Part) → IsPartOf self.now.level b inner → result ≡ wants_key b }
    {
        match self.level.kind {
            Kind::Entries => !self.level.keyed,
            _ => false,
        }
    }

    // A value stands in the group.
    fn settle(&mut self)
        ensures { self.new ≡ record self.old { level = settled self.old.level } }
    {
        self.level.later = true;
        self.level.keyed = false;
    }

    // A scalar is written where no key is due; where it has no place nothing is written.
    #[inline(always)]
    fn put(&mut self, schema: SchemaRef<'_>, scalar: Scalar<'_>) -> Result<Lead, OutOfMemory>
        ensures put { IfOk result
            (PutsScalar (label schema.entry) (scalar_of scalar.entry) self.old self.new) }
        ensures around { self.new.around ≡ self.old.around }
    {
        match self.lead(schema)? {
            Lead::Value => {
                push_scalar(self.alloc, &mut self.text, scalar)?;
                self.settle();
                Ok(Lead::Value)
            }
            Lead::Second => Ok(Lead::Second),
            Lead::Unnamed => Ok(Lead::Unnamed),
        }
    }

    // What is answered where a value has a place, or none.
    #[inline(never)]
    fn answer(&self, schema: SchemaRef<'_>, lead: Lead) -> Result<(), SerdeError>
        ensures { IsAnswered (label schema.entry) lead result }
    {
        match lead {
            Lead::Value => Ok(()),
            Lead::Second => Err(second_value(self.alloc)),
            Lead::Unnamed => Err(no_member_name(self.alloc, full_name_of(schema))),
        }
    }

    /// A scalar is written.
    #[inline(always)]
    pub(crate) fn write(
        &mut self,
        schema: SchemaRef<'_>,
        scalar: Scalar<'_>,
    ) -> Result<(), SerdeError>
        ensures written { WritesScalar (label schema.entry) (scalar_of scalar.entry) self.old self.new result }
        ensures around { self.new.around ≡ self.old.around }
    {
        if self.wants_key() {
            return self.scalar_key(scalar);
        }
        match self.put(schema, scalar) {
            Ok(Lead::Value) => Ok(()),
            Ok(lead) => self.answer(schema, lead),
            Err(_) => Err(SerdeError::OutOfMemory),
        }
    }

    // What stands before a group; where it has no place, the refusal of its end.
    fn lead_group(
        &mut self,
        schema: SchemaRef<'_>,
        group: Group,
    ) -> Result<Option<SerdeError>, OutOfMemory>
        ensures leads { IfOk result (LeadsGroup (label schema.entry) group self.old self.new) }
        ensures kind { OnOk result (self.new.level.kind ≡ self.old.level.kind) }
        ensures around { self.new.around ≡ self.old.around }
    {
        if self.wants_key() {
            return Ok(Some(not_a_text(self.alloc, group_word(group))));
        }
        match self.lead(schema)? {
            Lead::Value => Ok(None),
            Lead::Second => Ok(Some(second_value(self.alloc))),
            Lead::Unnamed => Ok(Some(no_member_name(self.alloc, full_name_of(schema)))),
        }
    }

    /// A group begins. It is refused for memory alone: where a group has no place, its end is refused.
    pub(crate) fn begin(&mut self, schema: SchemaRef<'_>, group: Group) -> Result<(), SerdeError>
        ensures memory { IfErr result (λ e. e ≡ SerdeError.OutOfMemory) }
        ensures begins { OnOk result (Begins (label schema.entry) group self.old self.new) }
        ensures err { OnErr result (self.new.around.items ≡ self.old.around.items) }
    {
        self.around.try_reserve(1)?;
        let refused = self.lead_group(schema, group)?;
        let start = self.text.len();
        self.text.push(opening(group))?;
        self.around.push_reserved(Around {
            level: self.level,
            refused,
        });
        self.level = Level::of(kind_inside(group), start, self.fields.len());
        Ok(())
    }

    // The fields of the innermost object get in order, where their names don't ascend.
    fn order(&mut self) -> Result<(), OutOfMemory>
        ensures ordered { OnOk result (IsOrdered self.old self.new) }
        ensures fields { self.new.fields ≡ self.old.fields }
        ensures level { self.new.level ≡ self.old.level }
        ensures around { self.new.around ≡ self.old.around }
    {
        if self.level.ascends {
            return Ok(());
        }
        let room = self.text.len().saturating_sub(self.level.start);
        let ordered = self
            .fields
            .in_order(self.alloc, self.level.first, room, &self.text)?;
        self.text.truncate(self.level.start);
        self.text.extend_from_slice(&ordered)?;
        Ok(())
    }

    // An object ends.
    fn end_object(&mut self) -> Result<(), OutOfMemory>
        ensures ends { OnOk result (EndsObject self.old self.new) }
        ensures around { self.new.around ≡ self.old.around }
    {
        self.order()?;
        self.fields.truncate(self.level.first);
        self.text.push(b'}')?;
        Ok(())
    }

    // The text of the innermost group ends.
    fn end_text(&mut self) -> Result<(), SerdeError>
        ensures ends { EndsText self.old self.new result }
        ensures around { self.new.around ≡ self.old.around }
    {
        match self.level.kind {
            Kind::Top => Ok(()),
            Kind::Items => {
                self.text.push(b']')?;
                Ok(())
            }
            Kind::Fields => Ok(self.end_object()?),
            Kind::Entries => {
                if self.level.keyed {
                    return Err(unmatched_key(self.alloc));
                }
                Ok(self.end_object()?)
            }
        }
    }

    // The innermost group is left, whose text has ended. It is refused where its document has no place around.
    fn leave(&mut self) -> Result<(), SerdeError>
        requires { 0 < length self.old.around.items }
        ensures { Leaving self.old self.new result }
    {
        let Some(around) = self.around.pop() else {
            unreachable!()
        };
        let Around { level, refused } = around;
        match refused {
            Some(error) => {
                self.around.push_reserved(Around {
                    level,
                    refused: None,
                });
                Err(error)
            }
            None => {
                self.level = level;
                self.settle();
                Ok(())
            }
        }
    }

    /// The innermost group ends. Condition: one is open. It refuses with `Custom` where a map ends with a key, or the group
    /// around has no place for the document.
    pub(crate) fn end(&mut self) -> Result<(), SerdeError>
        requires { 0 < length self.old.around.items }
        ensures { Ends self.old self.new result }
    {
        self.end_text()?;
        self.leave()
    }
}
