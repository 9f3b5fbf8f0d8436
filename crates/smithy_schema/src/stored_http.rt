// The trait `http` as a table keeps it: with texts of its own, and the template cut into its pieces.
ghost use Rattle.std.specs.Prelude.{◌≡◌};
ghost use Rattle.smithy_schema.specs.Templates.{pieces};
ghost use Rattle.smithy_schema.specs.views.Pieces.{in_turn};

use crate::pieces::Pieces;
use smithy_types::Text;

#[derive(Drop)]
pub(crate) struct StoredHttp {
    pub(crate) method: Text,
    pub(crate) uri: Text,
    pub(crate) code: u16,
    pub(crate) parts: Pieces,
    ghost cut: { parts ≡ in_turn (pieces uri) },
}
