// Identifiers of shapes.
ghost use Rattle.std.specs.Prelude.{◌≡◌, ◌<◌, false, ◌++◌, option_map, Some};
ghost use Rattle.std.specs.List.{before_first};
ghost use Rattle.smithy_ids.specs.ShapeIds.{has_hash, has_dollar, joined_name, is_dollar, member_in, member_text, CutsAt};

use std::fmt;

/// An identifier of a shape or of a member, `namespace#shape` or `namespace#shape$member` (Smithy, shape ID).
/// It borrows its texts. Comparisons and hashes look at the full name alone.
#[derive(Clone, Copy, Debug)]
#[derive_where(PartialEq, Eq, PartialOrd, Ord, Hash)]
pub struct ShapeId<'a> {
    pub(crate) full_name: &'a str,
    #[derive_where(skip(EqHashOrd))]
    pub(crate) namespace: &'a str,
    #[derive_where(skip(EqHashOrd))]
    pub(crate) shape_name: &'a str,
    #[derive_where(skip(EqHashOrd))]
    pub(crate) member_name: Option<&'a str>,
    ghost spelled: { full_name.now ≡ joined_name namespace.now shape_name.now (option_map (λ t. t.now) member_name) },
    ghost no_hash: { has_hash namespace.now ≡ false },
    ghost no_dollar: { has_dollar shape_name.now ≡ false },
}

impl<'a> ShapeId<'a> {
    ghost use Rattle.std.specs.Prelude.{◌≡◌, false, ◌∷◌, ◌++◌, option_map, Some, None};
    ghost use Rattle.smithy_ids.specs.ShapeIds.{has_hash, has_dollar, parts_in, parts_with};
    ghost use Rattle.smithy_ids.specs.views.ShapeIdParts.{parts_of};

    /// The identifier of a shape, of its full name and its parts. It takes no memory.
    pub const fn from_parts(fqn: &'a str, namespace: &'a str, shape_name: &'a str) -> ShapeId<'a>
        requires spelled { fqn.now ≡ namespace.now ++ 35 ∷ shape_name.now }
        requires no_hash { has_hash namespace.now ≡ false }
        requires no_dollar { has_dollar shape_name.now ≡ false }
        ensures { parts_of result ≡ parts_with fqn.now namespace.now shape_name.now None }
    {
        ShapeId {
            full_name: fqn,
            namespace,
            shape_name,
            member_name: None,
        }
    }

    /// The identifier of a member, of its full name and its parts. It takes no memory.
    pub const fn from_parts_with_member(
        fqn: &'a str,
        namespace: &'a str,
        shape_name: &'a str,
        member_name: &'a str,
    ) -> ShapeId<'a>
        requires spelled { fqn.now ≡ namespace.now ++ 35 ∷ (shape_name.now ++ 36 ∷ member_name.now) }
        requires no_hash { has_hash namespace.now ≡ false }
        requires no_dollar { has_dollar shape_name.now ≡ false }
        ensures { parts_of result ≡ parts_with fqn.now namespace.now shape_name.now (Some member_name.now) }
    {
        ShapeId {
            full_name: fqn,
            namespace,
            shape_name,
            member_name: Some(member_name),
        }
    }

    /// The identifier with this full name: cut at the first `#`, and behind it at the first `$`.
    /// None exactly where there is no `#`. It takes no memory.
    pub fn parse(fqn: &'a str) -> Option<ShapeId<'a>>
        ensures { option_map parts_of result ≡ parts_in fqn.now }
    {
        let (namespace, name) = cut_at(fqn, '#')?;
        let (shape_name, member_name) = cut_at_dollar(name);
        Some(ShapeId {
            full_name: fqn,
            namespace,
            shape_name,
            member_name,
        })
    }

    /// The full name. Its parts are those of the identifier.
    pub fn as_str(&self) -> &'a str
        ensures name { result.now ≡ (parts_of self.now).full_name }
        ensures parts { parts_in result.now ≡ Some (parts_of self.now) }
    {
        self.full_name
    }

    /// The namespace.
    pub fn namespace(&self) -> &'a str
        ensures { result.now ≡ (parts_of self.now).namespace }
    {
        self.namespace
    }

    /// The shape's name.
    pub fn shape_name(&self) -> &'a str
        ensures { result.now ≡ (parts_of self.now).shape_name }
    {
        self.shape_name
    }

    /// The member's name, where it is a member's identifier.
    pub fn member_name(&self) -> Option<&'a str>
        ensures { option_map (λ t. t.now) result ≡ (parts_of self.now).member_name }
    {
        self.member_name
    }
}

// The parts of a text round the first of this ASCII character.
fn cut_at(text: &str, at: char) -> Option<(&str, &str)>
    requires { at < 128 }
    ensures { CutsAt at text.now result }
{
    text.split_once(at)
}

// The shape's name, and the member's behind the first `$`.
fn cut_at_dollar(name: &str) -> (&str, Option<&str>)
    ensures shape { result.0.now ≡ before_first is_dollar name.now }
    ensures member { option_map (λ t. t.now) result.1 ≡ member_in name.now }
    ensures no_dollar { has_dollar result.0.now ≡ false }
    ensures spelled { name.now ≡ result.0.now ++ member_text (option_map (λ t. t.now) result.1) }
{
    match cut_at(name, '$') {
        Some((shape_name, member_name)) => (shape_name, Some(member_name)),
        None => (name, None),
    }
}

/// The full name.
impl fmt::Display for ShapeId<'_> {
    ghost output = { λ id. Some id.full_name.now };

    fn fmt<W: fmt::Write>(&self, f: &mut fmt::Formatter<W>) -> fmt::Result {
        self.full_name.fmt(f)
    }
}
