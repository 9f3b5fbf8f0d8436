// The direction of a message, and a schema as the messages of a direction have it.

use smithy_schema::SchemaRef;

/// Whose members they are: those of an input stand in a request, those of an output in a response.
#[derive(Clone, Copy, Drop)]
pub enum Direction {
    Request,
    Response,
}

/// A schema, or one of its members, as the messages of a direction have it.
#[derive(Clone, Copy, Drop)]
pub struct DirectedSchema<'t> {
    pub schema: SchemaRef<'t>,
    pub way: Direction,
}
