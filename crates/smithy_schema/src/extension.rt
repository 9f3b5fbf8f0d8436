// A column beside a table, with data that is computed of each node once.
ghost use Rattle.std.specs.Prelude.{◌≡◌, map, None, IfOk};

use crate::parts::SchemaIndex;
use crate::schema_ref::SchemaRef;
use crate::schemas::Schemas;
use smithy_types::OutOfMemory;
use std::alloc::Global;
use std::marker::Model;

/// What fills the cells of a column: of a node what its cell holds. It says by `gives` what that may be, and by `takes` of which
/// nodes it may be asked.
pub trait Provider<T> {
    ghost use Rattle.std.specs.Prelude.{IfOk};
    ghost use Rattle.smithy_schema.specs.Nodes.{Schema};
    ghost use Rattle.smithy_schema.specs.views.References.{schema_of};

    // it may be called with the node
    ghost takes: { Self → Schema → Type 0 };

    // it may give this of the node
    ghost gives: { Self → Schema → T → Type 0 };

    /// What the cell of this node is filled with.
    fn provide(&self, node: SchemaRef<'_>) -> Result<T, OutOfMemory>
        requires { takes self.now (schema_of node) }
        ensures { IfOk result (λ cell. gives self.now (schema_of node.entry) cell) };
}

/// Data beside a table: a cell for each place, which the provider fills where it is asked for first. Seen as the table,
/// the provider and the cells. Each filled cell is an answer of the provider for its node.
#[derive(Drop)]
pub struct SchemaExtension<'t, T, F: Provider<T>> {
    table: &'t Schemas,
    provider: F,
    cells: Vec<Option<T>>,
}

impl<'t, T, F: Provider<T>> Model for SchemaExtension<'t, T, F> {
    ghost use Rattle.smithy_types.specs.DocumentCode.{coded_document};
    ghost use Rattle.std.specs.Coded.{codes};
    ghost use Rattle.smithy_schema.specs.Columns.{Column, IsColumn};

    ghost Value = { Column F T };

    ghost coded = { Prim.hlevel (codes, coded_document) };

    ghost view = { λ e. record { table = e.table.now; provider = e.provider; cells = e.cells.items } };

    ghost invariant = { λ e. IsColumn F.takes F.gives
        (record { table = e.table.now; provider = e.provider; cells = e.cells.items }) };
}

impl<'t, T: Drop, F: Provider<T> + Drop> SchemaExtension<'t, T, F> {
    ghost use Rattle.std.specs.Prelude.{◌≡◌, true, Some, None, IfOk, OnOk, OnErr, option_map};
    ghost use Rattle.smithy_schema.specs.Nodes.{at_place};
    ghost use Rattle.smithy_schema.specs.views.References.{schema_of};
    ghost use Rattle.std.specs.Borrow.{sem};
    ghost use Rattle.std.specs.Option.{is_some};
    ghost use Rattle.smithy_schema.specs.ColumnLoans.{EndsGot};
    ghost use Rattle.smithy_schema.specs.Columns.{cell_at, empty_column, AreGiven, TakesEach, KeepsCells, IsFilledAt};

    /// A column beside this table, with no cell filled. Condition: the provider may be called with every node of the
    /// table. Takes memory, linear in the number of places.
    pub fn new(alloc: Global, table: &'t Schemas, provider: F) -> Result<Self, OutOfMemory>
        requires { TakesEach F.takes provider table.now }
        ensures { IfOk result (λ column. column ≡ empty_column table.now provider) }
    {
        let cells = empty_cells(alloc, table.nodes.as_slice())?;
        Ok(SchemaExtension {
            table,
            provider,
            cells,
        })
    }

    /// The table that it is beside. Takes no memory.
    pub fn table(&self) -> &'t Schemas
        ensures table { result.now ≡ self.now.table }
        ensures given { AreGiven F.gives self.now }
    {
        self.table
    }

    /// What the cell of this place is filled with, None where it is empty. Takes no memory.
    pub fn peek(&self, index: SchemaIndex) -> Option<&T>
        ensures cell { option_map (λ c. c.now) result ≡ cell_at self.now index.0 }
        ensures given { AreGiven F.gives self.now }
    {
        self.cells.get(index.0)?.as_ref()
    }

    /// Fills the cell of this place by the provider, where the index is defined and the cell is empty. No memory but the
    /// provider's is taken. Where that refuses, the column is as it was.
    pub fn fill(&mut self, index: SchemaIndex) -> Result<(), OutOfMemory>
        ensures filled { OnOk result (IsFilledAt index.0 self.old self.new) }
        ensures kept { KeepsCells self.old self.new }
        ensures given { AreGiven F.gives self.new }
        ensures err { OnErr result (self.new ≡ self.old) }
    {
        if self.peek(index).is_some() {
            return Ok(());
        }
        let table = self.table;
        match table.get(index) {
            Some(node) => self.fill_empty(index, node),
            None => Ok(()),
        }
    }

    /// The cell of this place, filled by the provider where it was empty; None exactly where the index isn't defined. What
    /// it takes, refuses and leaves is as of `fill`.
    pub fn get(&mut self, index: SchemaIndex) -> Result<Option<&T>, OutOfMemory>
        ensures defined { IfOk result (λ c. is_some c ≡ is_some (at_place self.old.table index.0)) }
        ensures* ends { sem 𝓛 (EndsGot T.row F.row F.Provider self.entry index.0 result) }
    {
        self.fill(index)?;
        Ok(self.peek(index))
    }

    // Fills the empty cell of a node's place.
    fn fill_empty(&mut self, index: SchemaIndex, node: SchemaRef<'_>) -> Result<(), OutOfMemory>
        requires node { at_place self.old.table index.0 ≡ Some (schema_of node) }
        requires empty { cell_at self.old index.0 ≡ None }
        ensures filled { OnOk result (IsFilledAt index.0 self.old self.new) }
        ensures kept { KeepsCells self.old self.new }
        ensures given { AreGiven F.gives self.new }
        ensures err { OnErr result (self.new ≡ self.old) }
    {
        let cell = self.provider.provide(node)?;
        self.cells[index.0] = Some(cell);
        Ok(())
    }
}

// An empty cell for each of these.
fn empty_cells<X, T: Drop>(alloc: Global, beside: &[X]) -> Result<Vec<Option<T>>, OutOfMemory>
    ensures { IfOk result (λ cells. cells.items ≡ map (λ _. None) beside.now) }
{
    let mut cells = Vec::with_capacity(alloc, beside.len())?;
    for _place in beside {
        cells.push(None)?;
    }
    Ok(cells)
}
