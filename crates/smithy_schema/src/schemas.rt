// A table of nodes.
ghost use Rattle.std.specs.Prelude.{◌≡◌, Some};

use crate::defining::{cited_fault, stored_at};
use crate::error::SchemaError;
use crate::parts::SchemaIndex;
use crate::schema::Schema;
use crate::schema_ref::SchemaRef;
use crate::stored::{StoredNode, copied_node};
use smithy_types::OutOfMemory;
use std::alloc::Global;
use std::marker::Model;

/// A table of nodes, each at a place that was declared first. A place that has no node yet is a hole.
/// The names of nodes and the texts of their bindings are UTF-8, each node with an index has a name, and at each position of
/// a node's members stands a member with that index.
#[derive(Drop)]
pub struct Schemas {
    pub(crate) alloc: Global,
    pub(crate) nodes: Vec<Option<StoredNode>>,
}

impl Model for Schemas {
    ghost use Rattle.smithy_types.specs.DocumentCode.{coded_document};
    ghost use Rattle.std.specs.Coded.{codes};
    ghost use Rattle.std.specs.Prelude.{List, Option};
    ghost use Rattle.smithy_schema.specs.Nodes.{Node};

    ghost Value = { List (Option Node) };

    ghost coded = { Prim.hlevel (codes, coded_document) };

    ghost use Rattle.smithy_schema.specs.views.Stored.{table_stored};
    ghost use Rattle.smithy_schema.specs.views.Kept.{IsKept};

    ghost view = { λ a. table_stored a.nodes.items };

    ghost invariant = { λ a. IsKept a.nodes.items };
}

impl Schemas {
    ghost use Rattle.std.specs.Prelude.{◌≡◌, ◌++◌, ◌∷◌, [], length, slice_set, Some, None, Ok, Err, IfOk, OnOk, OnErr, IsOkUnless, IfSome, IsTrue, option_map};
    ghost use Rattle.smithy_schema.specs.Nodes.{at_place};
    ghost use Rattle.smithy_schema.specs.Defining.{IsSound, RefusesBy, citing_fault, define_fault, declared_more};
    ghost use Rattle.smithy_schema.specs.views.References.{schema_of, index_of};
    ghost use Rattle.smithy_schema.specs.WellMade.{is_well_made};

    /// A table without places.
    pub fn new(alloc: Global) -> Schemas
        ensures { result ≡ [] }
    {
        Schemas {
            alloc,
            nodes: Vec::new(alloc),
        }
    }

    /// How many places were declared.
    pub fn len(&self) -> usize
        ensures { result ≡ length self.now }
    {
        self.nodes.len()
    }

    /// The node at a place, None exactly where it isn't defined. It takes no memory.
    pub fn get(&self, index: SchemaIndex) -> Option<SchemaRef<'_>>
        ensures node { option_map schema_of result ≡ at_place self.now index.0 }
        ensures place { IfSome result (λ s. index_of s ≡ Some index.0) }
        ensures sound { IsSound self.now }
        ensures well_made { IfSome result (λ s. IsTrue (is_well_made (schema_of s))) }
    {
        let _ = &self.nodes;
        SchemaRef::at(self, index)
    }

    /// Declares a fresh place, which has no node yet. After a refusal the table is unchanged.
    pub fn declare(&mut self) -> Result<SchemaIndex, SchemaError>
        ensures place { IfOk result (λ i. i.0 ≡ length self.old) }
        ensures ok { OnOk result (self.new ≡ declared_more self.old) }
        ensures refusal { IsOkUnless result SchemaError.OutOfMemory }
        ensures err { OnErr result (self.new ≡ self.old) }
    {
        let place = self.nodes.len();
        self.nodes.push(None)?;
        Ok(SchemaIndex(place))
    }

    /// Gives a declared place its node, a copy of the description's texts with its map of traits. In this order it refuses:
    /// `Unknown` where the place was never declared, `Defined` where it has a node, `Unknown` where a cited place was never
    /// declared, and for each member in order `NotMember` where it has no member index, `Order` where its index isn't its
    /// position; then want of memory. After a refusal the table is unchanged.
    pub fn define(&mut self, index: SchemaIndex, schema: Schema<'_>) -> Result<(), SchemaError>
        ensures fault { RefusesBy (define_fault self.old index.0 schema.entry) result }
        ensures ok { OnOk result (self.new ≡ slice_set self.old index.0 (Some schema.entry)) }
        ensures err { OnErr result (self.new ≡ self.old) }
    {
        match self.define_fault(index, &schema) {
            Some(fault) => Err(fault),
            None => {
                self.fill(index, schema)?;
                Ok(())
            }
        }
    }

    /// Adds a node at a fresh place: `declare` and `define` in one, with the refusals of both. It copies the texts, in time
    /// linear in the description up to the logarithm of the map from the members' names to their positions. After a refusal
    /// the table is unchanged.
    pub fn insert(&mut self, schema: Schema<'_>) -> Result<SchemaIndex, SchemaError>
        ensures fault { RefusesBy (define_fault (declared_more self.old) (length self.old) schema.entry) result }
        ensures place { IfOk result (λ i. i.0 ≡ length self.old) }
        ensures ok { OnOk result (self.new ≡ self.old ++ Some schema.entry ∷ []) }
        ensures err { OnErr result (self.new ≡ self.old) }
    {
        let place = self.nodes.len();
        match self.insert_fault(&schema) {
            Some(fault) => Err(fault),
            None => {
                self.push(schema)?;
                Ok(SchemaIndex(place))
            }
        }
    }

    // The first fault of defining a place by this description.
    fn define_fault(&self, index: SchemaIndex, schema: &Schema<'_>) -> Option<SchemaError>
        ensures { result ≡ define_fault self.now index.0 schema.now }
    {
        let nodes = self.nodes.as_slice();
        if index.0 >= nodes.len() {
            return Some(SchemaError::Unknown);
        }
        match stored_at(nodes, index.0) {
            Some(_) => Some(SchemaError::Defined),
            None => cited_fault(nodes, nodes.len(), schema),
        }
    }

    // The first fault of a fresh place that this description defines.
    fn insert_fault(&self, schema: &Schema<'_>) -> Option<SchemaError>
        ensures { result ≡ define_fault (declared_more self.now) (length self.now) schema.now }
    {
        let nodes = self.nodes.as_slice();
        cited_fault(nodes, nodes.len() + 1, schema)
    }

    // Adds a node that has no fault.
    fn push(&mut self, schema: Schema<'_>) -> Result<(), OutOfMemory>
        requires { define_fault (declared_more self.old) (length self.old) schema ≡ None }
        ensures ok { OnOk result (self.new ≡ self.old ++ Some schema.entry ∷ []) }
        ensures err { OnErr result (self.new ≡ self.old) }
    {
        let node = copied_node(self.alloc, self.nodes.as_slice(), schema)?;
        self.nodes.push(Some(node))?;
        Ok(())
    }

    // Fills a hole by a node that has no fault.
    fn fill(&mut self, index: SchemaIndex, schema: Schema<'_>) -> Result<(), OutOfMemory>
        requires { define_fault self.old index.0 schema ≡ None }
        ensures ok { OnOk result (self.new ≡ slice_set self.old index.0 (Some schema.entry)) }
        ensures err { OnErr result (self.new ≡ self.old) }
    {
        let node = copied_node(self.alloc, self.nodes.as_slice(), schema)?;
        put(&mut self.nodes[index.0], node);
        Ok(())
    }
}

fn put(hole: &mut Option<StoredNode>, node: StoredNode)
    ensures { hole.new ≡ Some node }
{
    *hole = Some(node);
}
