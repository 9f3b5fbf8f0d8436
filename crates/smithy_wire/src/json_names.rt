// The names in JSON of the nodes of a table.
ghost use Rattle.smithy_wire.specs.views.FieldNames.{Knows, Knows-prop};

use crate::columns::fill_all;
use crate::node_names::{NodeNames, node_names};
use smithy_schema::{Provider, SchemaExtension, SchemaRef, Schemas};
use smithy_types::OutOfMemory;
use std::alloc::Global;

// Fills a column with them.
#[derive(Clone, Copy, Drop)]
pub(crate) struct NamesOfNodes {
    alloc: Global,
}

impl Provider<NodeNames> for NamesOfNodes {
    ghost use Rattle.std.specs.Prelude.{⊤};
    ghost use Rattle.smithy_wire.specs.views.FieldNames.{Tells};

    ghost takes = { λ _ schema. ⊤ };

    ghost gives = { λ _ schema names. Tells schema names };

    fn provide(&self, node: SchemaRef<'_>) -> Result<NodeNames, OutOfMemory> {
        node_names(self.alloc, node)
    }
}

type Column<'t> = SchemaExtension<'t, NodeNames, NamesOfNodes>;

/// The names in JSON of the members of each node of a table, made once, by which the fields of bodies are found
/// (Smithy, jsonName trait).
#[derive(Drop)]
pub struct JsonNames<'t> {
    pub(crate) column: Column<'t>,
    ghost known: { Knows column column.table } by { Knows-prop column column.table },
}

impl<'t> JsonNames<'t> {
    ghost use Rattle.std.specs.Prelude.{◌≡◌, IfOk};
    ghost use Rattle.smithy_wire.specs.views.KnownForms.{table_in};

    /// Those of this table. Takes memory for a copy of the names in JSON of each node of more than eight members, some of
    /// which have another name in JSON than their own; in time linear in the names up to the logarithm of their number.
    #[tactic(auto, using(crate::proofs::KnownLemmas::known_from))]
    pub fn of(alloc: Global, table: &'t Schemas) -> Result<JsonNames<'t>, OutOfMemory>
        ensures { IfOk result (λ names. table_in names ≡ table.now) }
    {
        let mut column = SchemaExtension::new(alloc, table, NamesOfNodes { alloc })?;
        fill_all(&mut column, table.len())?;
        let _ = column.table();
        Ok(JsonNames { column })
    }
}
