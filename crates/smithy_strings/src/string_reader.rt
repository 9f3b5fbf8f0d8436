// The string codec's reader.
ghost use Rattle.std.specs.Prelude.{◌≡◌, Some, Ok, false, IfOk, IfErr, OnErr, MatchOption, option_copied, length};
ghost use Rattle.smithy_serde.specs.Held as held;
ghost use Rattle.smithy_serde.specs.Unchanged.{DoesNothing};
ghost use Rattle.smithy_serde.specs.ReadCalls.{Begins};
ghost use Rattle.smithy_serde.specs.declared.error.SerdeError.TheVariants.{OutOfMemory as NoMemory};
ghost use Rattle.smithy_strings.specs.ReadingRefusals.{not_utf8 as not_utf8_refusal};
ghost use Rattle.smithy_strings.specs.StringReading.{string_at_hand, ReadsString, OpensString, Leaves, CanOpen, RefusesOpening, listed_texts, text_left, texts_in, texts_left, used_up, used_by, passed_over, kept};

use crate::input_text::InputText;
use crate::reading_refusals::{no_container, no_list, not_utf8};
use crate::text_left::read_left;
use smithy_schema::SchemaRef;
use smithy_serde::{Group, ReadScalar, ScalarKind, SerdeError, ShapeDeserializer};
use smithy_types::{Text, Words};
use std::alloc::Global;

// What is open, which is always a list: the place of the text that comes next, and that of the text at hand until it is
// used up.
#[derive(Clone, Copy)]
pub(crate) struct OpenList {
    form: Group,
    next: usize,
    at_hand: Option<usize>,
}

/// A reader of a text: as one value, or as a header list (RFC 7230, section 7) of values. A value is `true` or `false`,
/// an optional sign and digits in the range of the width, a big number, any text, bytes in base64 (RFC 4648, section 4),
/// or a point in time as an HTTP date (RFC 7231, section 7.1.1.1) and else as a date-time (RFC 3339).
///
/// A read uses a value up, whatever it answers, and so does opening the list; the list can be opened again, and is then
/// read from its start. In a list an element is at hand for one read. A read is refused with `InvalidInput` where no
/// value is left or the text is none of the kind, and so is opening a list where the text spells none. Structures, maps,
/// documents and lists in a list are refused with `UnsupportedOperation`.
#[derive(Drop)]
pub struct HttpStringDeserializer {
    // None where the input is not UTF-8: then each read and each opening is refused.
    input: Option<InputText>,
    is_read: bool,
    list: Option<OpenList>,
}

impl HttpStringDeserializer {
    /// A reader of a copy of the text. It is refused only for memory.
    pub fn new(alloc: Global, input: &str) -> Result<HttpStringDeserializer, SerdeError>
        ensures begins { IfOk result (λ d. Begins (Some (held.input input.now false)) (string_at_hand d)) }
        ensures memory { IfErr result (λ e. e ≡ NoMemory) }
    {
        Ok(Self::over(Some(InputText::new(alloc, input)?)))
    }

    // A reader of bytes that are not UTF-8.
    pub(crate) fn of_no_text() -> HttpStringDeserializer
        ensures { Begins (Some (held.refused not_utf8_refusal)) (string_at_hand result) }
    {
        Self::over(None)
    }

    fn over(input: Option<InputText>) -> HttpStringDeserializer
        ensures { result ≡ record { input = input; is_read = false; list = None } }
    {
        HttpStringDeserializer {
            input,
            is_read: false,
            list: None,
        }
    }

    // The texts of the list that the input spells, if it spells one.
    fn texts(&self) -> Option<&Words>
        ensures { option_copied result ≡ listed_texts self.now }
    {
        match self.input.as_ref()?.listed() {
            Ok(texts) => Some(texts),
            Err(_) => None,
        }
    }

    // How many texts the list has.
    fn len(&self) -> usize
        ensures { result ≡ length (texts_in self.now.input) }
    {
        match self.texts() {
            Some(texts) => texts.len(),
            None => 0,
        }
    }

    // The text that a read takes.
    fn left(&self) -> Option<&str>
        ensures { option_copied result ≡ text_left self.now }
    {
        match self.list {
            Some(list) => self.texts()?.get(list.at_hand?),
            None if self.is_read => None,
            None => Some(self.input.as_ref()?.as_str()),
        }
    }

    // Uses up what is at hand.
    fn use_up(&mut self)
        ensures { Leaves used_up self.old self.new }
    {
        match &mut self.list {
            Some(list) => list.at_hand = None,
            None => self.is_read = true,
        }
    }

    // The same by a read as the kind: a document is no text, and its read takes none.
    fn use_text(&mut self, kind: ScalarKind)
        ensures { Leaves (used_by kind) self.old self.new }
    {
        match kind {
            ScalarKind::Document => {}
            _ => self.use_up(),
        }
    }

    // Why nothing can be opened so, if nothing can.
    fn opening_refusal(&self, alloc: Global, group: Group) -> Option<SerdeError>
        ensures { MatchOption result (CanOpen group self.now) (RefusesOpening group self.now) }
    {
        let Some(input) = &self.input else {
            return Some(not_utf8(alloc));
        };
        if self.list.is_some() {
            return Some(no_container(alloc, group));
        }
        match group {
            Group::List => match input.listed() {
                Ok(_) => None,
                Err(fault) => Some(no_list(alloc, fault)),
            },
            Group::Map => Some(no_container(alloc, group)),
            Group::Structure => Some(no_container(alloc, group)),
        }
    }
}

impl ShapeDeserializer for HttpStringDeserializer {
    ghost at_hand = { string_at_hand };

    // The number of texts that are left in the list, the one at hand counted until it is used up; outside a list that of
    // the texts that the input spells, none where it spells no list.
    ghost has_size = { λ reader size. size ≡ texts_left reader };

    ghost reads_null = { DoesNothing };

    // In a list an element is used up; outside it nothing happens. It refuses nothing.
    ghost passes_over = { λ old new answer. Leaves passed_over old new × (answer ≡ Ok tt) };

    /// A text that is read is used up, whatever is answered.
    fn read(
        &mut self,
        alloc: Global,
        schema: SchemaRef<'_>,
        kind: ScalarKind,
    ) -> Result<ReadScalar, SerdeError>
        ensures reads { ReadsString kind schema.entry self.old self.new result }
        ensures left { Leaves (used_by kind) self.old self.new }
    {
        if self.input.is_none() {
            return Err(not_utf8(alloc));
        }
        let read = read_left(alloc, kind, self.left());
        self.use_text(kind);
        read
    }

    /// A refused opening uses nothing up.
    fn open(
        &mut self,
        alloc: Global,
        _schema: SchemaRef<'_>,
        group: Group,
    ) -> Result<(), SerdeError>
        ensures opens { OpensString group _schema.entry self.old self.new result }
        ensures left { OnErr result (Leaves kept self.old self.new) }
    {
        if let Some(refusal) = self.opening_refusal(alloc, group) {
            return Err(refusal);
        }
        self.is_read = true;
        self.list = Some(OpenList {
            form: Group::List,
            next: 0,
            at_hand: None,
        });
        Ok(())
    }

    // No structure is ever open.
    fn next_member<'s>(
        &mut self,
        _alloc: Global,
        _schema: SchemaRef<'s>,
    ) -> Result<Option<SchemaRef<'s>>, SerdeError> {
        Err(SerdeError::OutOfMemory)
    }

    fn next_element(&mut self, _alloc: Global) -> Result<bool, SerdeError> {
        let Some(list) = self.list else {
            unreachable!()
        };
        let place = list.next;
        if place < self.len() {
            self.list = Some(OpenList {
                form: list.form,
                next: place + 1,
                at_hand: Some(place),
            });
            return Ok(true);
        }
        self.list = None;
        Ok(false)
    }

    // No map is ever open.
    fn next_entry(&mut self, _alloc: Global) -> Result<Option<Text>, SerdeError> {
        Err(SerdeError::OutOfMemory)
    }

    fn settle(&mut self, _alloc: Global, refusal: SerdeError) -> Result<(), SerdeError> {
        Err(refusal)
    }

    fn is_null(&self) -> bool {
        match &self.input {
            Some(input) => self.list.is_none() && input.as_str().is_empty(),
            None => false,
        }
    }

    fn read_null(&mut self) -> Result<(), SerdeError> {
        Ok(())
    }

    fn skip_value(&mut self, _alloc: Global) -> Result<(), SerdeError> {
        if let Some(list) = &mut self.list {
            list.at_hand = None;
        }
        Ok(())
    }

    fn container_size(&self) -> Option<usize> {
        match self.list {
            None => Some(self.texts()?.len()),
            Some(list) => Some(self.len().saturating_sub(list.at_hand.unwrap_or(list.next))),
        }
    }
}
