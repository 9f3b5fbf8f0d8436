// How bodies differ from JSON over documents.
ghost use Rattle.std.specs.Prelude.{◌≡◌};
ghost use Rattle.smithy_wire.specs.Styles.{refusing};

/// How AWS's protocols write and read JSON by a node.
#[derive(Clone, Copy, Debug, PartialEq, Eq)]
pub struct WireStyle {
    /// Fields have their names in JSON, as in restJson1 (Smithy, jsonName trait).
    pub json_names: bool,
    /// Fractions of seconds that are read are dropped, toward minus infinity; else a time with one is refused.
    pub floors_times: bool,
}

impl WireStyle {
    /// With JSON names or without, where a time with a fraction of a second is refused.
    pub(crate) fn refusing(json_names: bool) -> WireStyle
        ensures { result ≡ refusing json_names }
    {
        WireStyle {
            json_names,
            floors_times: false,
        }
    }
}
