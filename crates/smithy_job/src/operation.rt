// Operations that a job names.
ghost use Rattle.std.specs.Prelude.{IsTrue};
ghost use Rattle.smithy_job.specs.Routing.{has_http};
ghost use Rattle.smithy_job.specs.views.Tables.{schema_seen};

use crate::recovering::Recovering;
use smithy_http::Request;
use smithy_ids::HttpTrait;
use smithy_schema::{SchemaIndex, SchemaRef, Schemas};
use smithy_serde::OmitFlags;

/// An operation with `@http` by its full name, and the index of its input's schema in a table (Smithy, HTTP protocol
/// bindings, http trait).
#[derive(Drop)]
pub struct Operation<'t> {
    pub name: &'t str,
    pub table: Schemas,
    pub index: SchemaIndex,
    ghost with_http: { IsTrue (has_http (schema_seen table index.0)) },
}

impl<'t> Operation<'t> {
    ghost use Rattle.std.specs.Prelude.{◌≡◌, Some};
    ghost use Rattle.smithy_schema.specs.Nodes.{at_place};
    ghost use Rattle.smithy_schema.specs.References.{schema_of};
    ghost use Rattle.smithy_job.specs.Routing.{recovering_by};
    ghost use Rattle.smithy_job.specs.views.RecoveringView.{IsRecovering};
    ghost use Rattle.smithy_job.specs.views.RoutingView.{operation_seen};

    /// The schema of its input.
    #[tactic(auto, using(crate::proofs::RoutingLemmas::there))]
    pub fn schema(&self) -> SchemaRef<'_>
        ensures seen { schema_of result ≡ (operation_seen self.now).schema }
        ensures place { at_place self.now.table self.now.index.0 ≡ Some (schema_of result) }
    {
        let Some(schema) = self.table.get(self.index) else {
            unreachable!()
        };
        schema
    }

    /// Its method and its template.
    pub fn http(&self) -> HttpTrait<'_>
        ensures { (operation_seen self.now).schema.node.traits.http ≡ Some result }
    {
        let Some(http) = self.schema().http() else {
            unreachable!()
        };
        http
    }

    /// The job in which the input of a request is recovered by it. Takes no memory.
    #[tactic(auto, using(crate::proofs::RoutingLemmas::stands))]
    pub fn into_recovering(self, request: Request, omit: OmitFlags) -> Recovering<'t>
        ensures { IsRecovering result (recovering_by (operation_seen self.entry) request omit) }
    {
        let Operation { table, index, .. } = self;
        Recovering {
            request,
            table,
            index,
            endpoint: "",
            omit,
        }
    }
}
