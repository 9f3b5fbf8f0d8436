// Where the names of header members come from (Smithy, HTTP protocol bindings, httpHeader).
ghost use Rattle.std.specs.Prelude.{◌≡◌, Some, IfOk, OnOk};
ghost use Rattle.smithy_binding.specs.Words.{cow_str_bytes, schema_of};
ghost use Rattle.smithy_binding.specs.HeaderNames.{header_name};
ghost use Rattle.smithy_binding.specs.views.NamesAtHand.{HasOwnName};
ghost use Rattle.smithy_binding.specs.views.PutHeaders.{PutsHeader};

use crate::member_header::put_header;
use smithy_http::Headers;
use smithy_schema::{Provider, SchemaExtension, SchemaRef};
use smithy_serde::SerdeError;
use smithy_types::{OutOfMemory, Text};
use std::alloc::Global;
use std::borrow::CowStr;

/// The name of the node's header in lower case (Smithy, HTTP protocol bindings, httpHeader), None exactly without one. Takes
/// memory.
pub fn header_name_of(alloc: Global, node: SchemaRef<'_>) -> Result<Option<Text>, OutOfMemory>
    ensures { IfOk result (λ name. name ≡ header_name (schema_of node.entry)) }
{
    match node.http_header() {
        Some(header) => {
            let name = header.value().to_ascii_lowercase(alloc)?;
            Ok(Some(Text::from_string(name)))
        }
        None => Ok(None),
    }
}

/// Fills a column with the names of headers in lower case, as `header_name_of` gives them.
#[derive(Clone, Copy, Drop)]
pub struct LowerHeaderNames {
    alloc: Global,
}

impl LowerHeaderNames {
    ghost use Rattle.smithy_binding.specs.HeaderNames.{GivesHeaderNames};

    /// It gives of each node its header's name in lower case, None without one, in memory of this allocator. Takes none itself.
    pub fn new(alloc: Global) -> LowerHeaderNames
        ensures { GivesHeaderNames ⟦<LowerHeaderNames as Provider<Option<Text>>>⟧.gives result }
    {
        LowerHeaderNames { alloc }
    }
}

impl Provider<Option<Text>> for LowerHeaderNames {
    ghost use Rattle.std.specs.Prelude.{◌≡◌, ⊤};
    ghost use Rattle.smithy_binding.specs.HeaderNames.{header_name};

    ghost takes = { λ _ schema. ⊤ };

    ghost gives = { λ _ schema name. name ≡ header_name schema };

    fn provide(&self, node: SchemaRef<'_>) -> Result<Option<Text>, OutOfMemory> {
        header_name_of(self.alloc, node)
    }
}

// Where the names of header members in lower case come from.
pub trait HeaderNames {
    ghost use Rattle.std.specs.Prelude.{◌≡◌, ℕ, Some, IfOk, OnOk};
    ghost use Rattle.smithy_binding.specs.Words.{str_to_ascii_lowercase, schema_of, Table};
    ghost use Rattle.smithy_binding.specs.views.NamesAtHand.{HasOwnName};

    // it has those of the nodes of this table
    ghost serves: { Self → Table → Type 0 };

    // it has what it had before
    ghost keeps: { Self → Self → Type 0 };

    // it has the name of the node at this place
    ghost has: { Self → ℕ → Type 0 };

    // The member's name, which its trait has in any case.
    fn lower_name(
        &mut self,
        alloc: Global,
        member: SchemaRef<'_>,
        name: &str,
    ) -> Result<Text, OutOfMemory>
        requires serves { serves self.old (schema_of member).table }
        requires name { (schema_of member).node.traits.http_header ≡ Some name.now }
        ensures lower { IfOk result (λ lower. lower ≡ str_to_ascii_lowercase name.now) }
        ensures kept { keeps self.old self.new }
        ensures named { OnOk result (HasOwnName (has self.new) member.entry) };

    ghost keeps_same: { (s : Self) → keeps s s };

    ghost keeps_on: { (a b c : Self) → keeps a b → keeps b c → keeps a c };

    ghost has_on: { (a b : Self) (place : ℕ) → keeps a b → has a place → has b place };

    ghost serves_on: { (a b : Self) (table : Table) → keeps a b → serves a table → serves b table };
}

// Each name is made where it is put.
#[derive(Clone, Copy, Drop)]
pub struct Lowered;

impl HeaderNames for Lowered {
    ghost use Rattle.std.specs.Prelude.{⊤};

    ghost serves = { λ _ _. ⊤ };

    ghost keeps = { λ _ _. ⊤ };

    ghost has = { λ _ _. ⊤ };

    #[inline(always)]
    fn lower_name(
        &mut self,
        alloc: Global,
        _member: SchemaRef<'_>,
        name: &str,
    ) -> Result<Text, OutOfMemory> {
        Ok(Text::from_string(name.to_ascii_lowercase(alloc)?))
    }

    ghost keeps_same = { λ _. tt };

    ghost keeps_on = { λ _ _ _ _ _. tt };

    ghost has_on = { λ _ _ _ _ _. tt };

    ghost serves_on = { λ _ _ _ _ _. tt };
}

impl<'t, F: Provider<Option<Text>> + Drop> HeaderNames for SchemaExtension<'t, Option<Text>, F> {
    ghost use Rattle.std.specs.Prelude.{◌≡◌};
    ghost use Rattle.std.proofs.Common.{refl, sym, ◌∙◌, subst};
    ghost use Rattle.smithy_schema.specs.Columns.{Column, KeepsCells};
    ghost use Rattle.smithy_binding.specs.HeaderNames.{GivesHeaderNames, IsFilled};

    ghost serves = { λ column table. (column.table ≡ table) × GivesHeaderNames F.gives column.provider };

    ghost keeps = { λ old new. KeepsCells old new };

    ghost has = { λ column place. IsFilled column place };

    fn lower_name(
        &mut self,
        alloc: Global,
        member: SchemaRef<'_>,
        name: &str,
    ) -> Result<Text, OutOfMemory> {
        let Some(index) = member.index() else {
            return Ok(Text::from_string(name.to_ascii_lowercase(alloc)?));
        };
        self.fill(index)?;
        match self.peek(index) {
            Some(Some(lower)) => Ok(Text::from_str(alloc, lower.as_str())?),
            _ => unreachable!(),
        }
    }

    ghost keeps_same = { λ c. record { table = refl; provider = refl; cells = λ place cell e. e } };

    ghost keeps_on = { λ a b c k l. record {
      table = l.table ∙ k.table;
      provider = l.provider ∙ k.provider;
      cells = λ place cell e. l.cells place cell (k.cells place cell e);
    } };

    ghost has_on = { λ a b place k h. (h.0, k.cells place h.0 h.1) };

    ghost serves_on = { λ a b table k s.
        (k.table ∙ s.0, subst (GivesHeaderNames F.gives) (sym k.provider) s.1) };
}

// Puts a header of the member, by its name from where names come from. Refused as `put_header` is.
#[inline(always)]
pub fn put_named<N: HeaderNames>(
    alloc: Global,
    names: &mut N,
    member: SchemaRef<'_>,
    headers: &mut Headers,
    name: &str,
    text: CowStr<'_, Global>,
) -> Result<(), SerdeError>
    requires serves { N.serves names.old (schema_of member).table }
    requires name { (schema_of member).node.traits.http_header ≡ Some name.now }
    ensures put { PutsHeader
        member.entry name.now (cow_str_bytes text.entry) headers.old headers.new result }
    ensures kept { N.keeps names.old names.new }
    ensures named { OnOk result (HasOwnName (N.has names.new) member.entry) }
{
    let lower = names.lower_name(alloc, member, name)?;
    put_header(alloc, member, headers, lower, text)
}
