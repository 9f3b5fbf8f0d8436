// What is known of a schema's payload.

/// Whether a schema has a payload that is a structure.
#[derive(Clone, Copy, Debug, Default, PartialEq, Eq, Hash)]
pub enum PayloadHint {
    #[default]
    Unknown,
    NoStructPayload,
    StructPayload,
}
