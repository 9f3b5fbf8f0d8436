// What a model says of shapes and operations, borrowed from its JSON value.
use smithy_ids::{HttpTrait, ShapeType};
use smithy_json::JsonValue;
use smithy_schema::Traits;

/// The traits of a shape or a member: those that have a field of their own, and the object in which all of them stand, where
/// some have none.
#[derive(Drop)]
pub struct ShapeTraits<'v, 't> {
    pub plain: Traits<'t>,
    pub given: Option<&'v JsonValue<'t>>,
}

/// A member by its name, with the full name of its target.
#[derive(Drop)]
pub struct Member<'v, 't> {
    pub name: &'t str,
    pub target: &'t str,
    pub traits: ShapeTraits<'v, 't>,
}

/// A shape by its full name, with its members in byte order of their names.
#[derive(Drop)]
pub struct Shape<'v, 't> {
    pub name: &'t str,
    pub kind: ShapeType,
    pub traits: ShapeTraits<'v, 't>,
    pub members: Vec<Member<'v, 't>>,
}

/// An operation: its `@http`, and the full names of the shapes of its input, its output and its errors.
#[derive(Drop)]
pub struct Operation<'t> {
    pub http: Option<HttpTrait<'t>>,
    pub input: &'t str,
    pub output: &'t str,
    pub errors: Vec<&'t str>,
}

/// A part of an operation that has a schema.
#[derive(Clone, Copy, Debug, PartialEq, Eq, Drop)]
pub enum Asked<'a> {
    /// Its input, with its `@http`.
    Input,
    /// Its output.
    Output,
    /// The one of its errors that has this full name.
    Error(&'a str),
}
