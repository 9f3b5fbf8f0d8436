// By what a request is placed and recovered.

use smithy_schema::{SchemaIndex, SchemaRef, Schemas};
use smithy_serde::OmitFlags;

/// A node of a table with its place, an endpoint, and the default headers to leave out.
#[derive(Clone, Copy, Drop)]
pub struct Setting<'t, 'e> {
    pub table: &'t Schemas,
    pub place: SchemaIndex,
    pub node: SchemaRef<'t>,
    pub endpoint: &'e str,
    pub omit: OmitFlags,
}
