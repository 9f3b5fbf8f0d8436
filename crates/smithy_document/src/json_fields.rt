// The fields of the open objects, as they stand in a text.
ghost use Rattle.std.specs.Prelude.{◌≡◌, ◌+◌, ◌++◌, ◌∷◌, [], ◌<◌, length, take, drop, IfOk, OnOk};
ghost use Rattle.std.specs.Bool.{OnTrue};
ghost use Rattle.smithy_document.specs.views.JsonFields.{field_at, end_before, spans_in, HasSpans, IsSpanCopied, last_name, IsLastBelow, IsCopied, IsInOrder};

use crate::json_scalars::push_comma;
use smithy_types::{OutOfMemory, Text};
use std::alloc::Global;
use std::collections::BTreeMap;

/// A field of an open object: its name, and where its text begins, which is the name, a colon and the value.
#[derive(Drop)]
pub(crate) struct Field {
    pub(crate) name: Text,
    pub(crate) start: usize,
}

/// The fields of the open objects, those of the outer ones first.
#[derive(Drop)]
pub(crate) struct JsonFields {
    pub(crate) list: Vec<Field>,
}

// From one place of a text to another stands a field.
type Span = (usize, usize);

// Appends what stands in a text from one place to another.
fn push_span(out: &mut Vec<u8>, text: &[u8], span: Span) -> Result<(), OutOfMemory>
    ensures { IsSpanCopied text.now span out.old.items out.new.items result }
{
    match text.get(span.0..span.1) {
        Some(part) => Ok(out.extend_from_slice(part)?),
        None => Ok(()),
    }
}

// The text of an object without its end, of the fields that stand there in turn, with room for so many bytes at first.
fn copied(
    alloc: Global,
    room: usize,
    text: &[u8],
    spans: BTreeMap<&str, Span>,
) -> Result<Vec<u8>, OutOfMemory>
    ensures { IsCopied text.now (spans_in spans.entry.entries) result }
{
    let mut copy = Vec::with_capacity(alloc, room)?;
    copy.push(b'{')?;
    let mut later = false;
    'spans: for entry in spans {
        push_comma(&mut copy, later)?;
        push_span(&mut copy, text, entry.1)?;
        later = true;
    }
    Ok(copy)
}

impl JsonFields {
    /// No fields. Takes no memory.
    pub(crate) fn new(alloc: Global) -> JsonFields
        ensures { result.list.items ≡ [] }
    {
        JsonFields {
            list: Vec::new(alloc),
        }
    }

    /// How many fields there are.
    pub(crate) fn len(&self) -> usize
        ensures { result ≡ length self.now.list.items }
    {
        self.list.len()
    }

    // The last name, and the empty one where there is none.
    fn last(&self) -> &str
        ensures { result.now ≡ last_name self.now.list.items }
    {
        match self.list.get(self.list.len().saturating_sub(1)) {
            Some(field) => field.name.as_str(),
            None => "",
        }
    }

    /// Whether the name stands behind the last field's, in byte order.
    pub(crate) fn is_behind(&self, name: &str) -> bool
        ensures { OnTrue result (IsLastBelow name.now self.now.list.items) }
    {
        self.last() < name
    }

    /// One field more, whose text begins there.
    pub(crate) fn push(
        &mut self,
        alloc: Global,
        name: &str,
        start: usize,
    ) -> Result<(), OutOfMemory>
        ensures { OnOk result (self.new.list.items ≡ self.old.list.items ++ field_at name.now start ∷ []) }
    {
        let name = Text::from_str(alloc, name)?;
        self.list.push(Field { name, start })?;
        Ok(())
    }

    /// Drops the fields from this one on.
    pub(crate) fn truncate(&mut self, first: usize)
        ensures { self.new.list.items ≡ take first self.old.list.items }
    {
        self.list.truncate(first);
    }

    // Where the text of a field ends, in a text of this length.
    fn end(&self, position: usize, whole: usize) -> usize
        requires { position < length self.now.list.items }
        ensures { result ≡ end_before whole (drop (position + 1) self.now.list.items) }
    {
        match self.list.get(position + 1) {
            Some(next) => next.start.saturating_sub(1),
            None => whole,
        }
    }

    // Where the text of each field from the first on stands, in byte order of the names; of a name that stands twice the
    // last.
    fn spans(
        &self,
        alloc: Global,
        first: usize,
        whole: usize,
    ) -> Result<BTreeMap<&str, Span>, OutOfMemory>
        ensures { IfOk result (HasSpans whole (drop first self.now.list.items)) }
    {
        let mut spans = BTreeMap::new(alloc);
        'fields: for position in first..self.list.len() {
            let field = &self.list[position];
            let span = (field.start, self.end(position, whole));
            let _before = spans.insert(field.name.as_str(), span)?;
        }
        Ok(spans)
    }

    /// The text of an object without its end, whose fields, from the first on, stand in this text: they are in byte order of
    /// their names, with commas between them; of a name that stands twice there is the last one. It has room for so many bytes at first.
    pub(crate) fn in_order(
        &self,
        alloc: Global,
        first: usize,
        room: usize,
        text: &[u8],
    ) -> Result<Vec<u8>, OutOfMemory>
        ensures { IsInOrder text.now (drop first self.now.list.items) result }
    {
        copied(alloc, room, text, self.spans(alloc, first, text.len())?)
    }
}
