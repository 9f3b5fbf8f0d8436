// Identifiers that own their name.
ghost use Rattle.std.specs.Prelude.{◌≡◌, IfOk};
ghost use Rattle.smithy_ids.specs.ShapeIds.{joined_name};
ghost use Rattle.smithy_schema.specs.views.DescribedTraits.{text_of};

use smithy_ids::ShapeId;
use smithy_types::{OutOfMemory, Text};
use std::alloc::Global;
use std::marker::Model;

/// An identifier of a shape or of a member that owns its full name, seen as that name's bytes.
#[derive(Debug, Drop)]
pub struct ShapeIdBuf {
    name: Text,
}

impl Model for ShapeIdBuf {
    ghost use Rattle.std.specs.Prelude.{◌≡◌, List, ℕ, true};
    ghost use Rattle.smithy_ids.specs.ShapeIds.{has_hash};

    ghost Value = { List ℕ };

    ghost view = { λ a. a.name };

    ghost invariant = { λ a. has_hash a.name ≡ true };
}

impl ShapeIdBuf {
    ghost use Rattle.std.specs.Prelude.{◌≡◌, false, Some, None, IfOk};
    ghost use Rattle.smithy_ids.specs.ShapeIds.{has_hash, has_dollar, joined_name, parts_in, HasParts};
    ghost use Rattle.smithy_ids.specs.ShapeIdParts.{parts_of};

    /// The identifier `namespace#shape_name` of a shape.
    pub fn of(alloc: Global, namespace: &str, shape_name: &str) -> Result<ShapeIdBuf, OutOfMemory>
        requires no_hash { has_hash namespace.now ≡ false }
        requires no_dollar { has_dollar shape_name.now ≡ false }
        ensures name { IfOk result (λ id. id ≡ joined_name namespace.now shape_name.now None) }
        ensures parts { IfOk result (HasParts namespace.now shape_name.now None) }
    {
        let name = joined(alloc, namespace, shape_name, None)?;
        Ok(ShapeIdBuf { name })
    }

    /// The identifier `namespace#shape_name$member_name` of a member.
    pub fn of_member(
        alloc: Global,
        namespace: &str,
        shape_name: &str,
        member_name: &str,
    ) -> Result<ShapeIdBuf, OutOfMemory>
        requires no_hash { has_hash namespace.now ≡ false }
        requires no_dollar { has_dollar shape_name.now ≡ false }
        ensures name { IfOk result
            (λ id. id ≡ joined_name namespace.now shape_name.now (Some member_name.now)) }
        ensures parts { IfOk result (HasParts namespace.now shape_name.now (Some member_name.now)) }
    {
        let name = joined(alloc, namespace, shape_name, Some(member_name))?;
        Ok(ShapeIdBuf { name })
    }

    // A copy of an identifier.
    pub(crate) fn copied(alloc: Global, id: ShapeId<'_>) -> Result<ShapeIdBuf, OutOfMemory>
        ensures { IfOk result (λ b. b ≡ (parts_of id.entry).full_name) }
    {
        let name = Text::from_str(alloc, id.as_str())?;
        Ok(ShapeIdBuf { name })
    }

    // The full name.
    pub(crate) fn as_str(&self) -> &str
        ensures { result.now ≡ self.now }
    {
        self.name.as_str()
    }

    /// The identifier, borrowed: the parts of the full name. It takes no memory.
    pub fn as_id(&self) -> ShapeId<'_>
        ensures { parts_in self.now ≡ Some (parts_of result) }
    {
        match ShapeId::parse(self.name.as_str()) {
            Some(id) => id,
            None => unreachable!(),
        }
    }
}

// The full name of these parts.
fn joined(
    alloc: Global,
    namespace: &str,
    shape_name: &str,
    member_name: Option<&str>,
) -> Result<Text, OutOfMemory>
    ensures { IfOk result (λ n. n ≡ joined_name namespace.now shape_name.now (text_of member_name.entry)) }
{
    let mut name = Text::from_str(alloc, namespace)?;
    name.push_str("#")?;
    name.push_str(shape_name)?;
    match member_name {
        Some(member_name) => {
            name.push_str("$")?;
            name.push_str(member_name)?;
            Ok(name)
        }
        None => Ok(name),
    }
}
