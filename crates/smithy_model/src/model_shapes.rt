// The shapes of a model, by their names.
ghost use Rattle.std.specs.Prelude.{IsTrue};
ghost use Rattle.std.proofs.Props.{props};
ghost use Rattle.smithy_types.specs.Maps.{IsOrdered};
ghost use Rattle.smithy_json.specs.views.JsonView.{entries};

use smithy_json::{JsonValue, are_ascending, value_named};

/// The members of a model's `shapes`, among which a shape is looked up by its name.
#[derive(Clone, Copy)]
pub struct ModelShapes<'v, 't> {
    pub members: &'v [(&'t str, JsonValue<'t>)],
    are_ascending: bool,
    ghost ordered: { IsTrue are_ascending → IsOrdered (entries members.now) } by { Prim.hlevel props },
}

impl<'v, 't> ModelShapes<'v, 't> {
    ghost use Rattle.std.specs.Prelude.{◌≡◌, option_map, None, IfSome, IsNone};
    ghost use Rattle.serde_json.specs.Find.{get, as_object};
    ghost use Rattle.smithy_json.specs.views.JsonView.{view};
    ghost use Rattle.smithy_model.specs.views.ModelView.{shapes_view};

    /// The shapes in an object. None where it is no object. It goes over their names once, and takes no memory.
    pub fn of(object: &'v JsonValue<'t>) -> Option<ModelShapes<'v, 't>>
        ensures some { IfSome result (λ s. shapes_view s ≡ view object.now) }
        ensures none { IsNone result → as_object (view object.now) ≡ None }
    {
        let members = object.as_object()?;
        Some(ModelShapes {
            members,
            are_ascending: are_ascending(members),
        })
    }

    /// What stands at a name. It halves the members again and again where their names ascend.
    pub fn get(&self, name: &str) -> Option<&'v JsonValue<'t>>
        ensures { option_map (λ v. view v.now) result ≡ get name.now (shapes_view self.now) }
    {
        if !self.are_ascending {
            return value_named(self.members, name);
        }
        match self.members.binary_search_by(|member| member.0.cmp(name)) {
            Ok(position) => Some(&self.members[position].1),
            Err(_) => None,
        }
    }
}
