// The names of a node's members, each with its first position, and the order of these.
ghost use Rattle.std.specs.Prelude.{◌≡◌, true, slice_set, None, Some, IfOk, IfSome, OnOk, option_map};
ghost use Rattle.std.specs.Cmp.Lexicographic.{slice_cmp};
ghost use Rattle.std.specs.Ordering.{nat_cmp};
ghost use Rattle.smithy_schema.specs.Nodes.{node_at};
ghost use Rattle.smithy_schema.specs.views.DescribedTraits.{text_of};
ghost use Rattle.smithy_schema.specs.views.Places.{places_of};
ghost use Rattle.smithy_schema.specs.views.Stored.{table_stored};
ghost use Rattle.smithy_schema.specs.views.MemberNames.{ascend, name_held, names_in, rises, AreOfNames, FindsNames, HasOneMore, HasPositions, IsLead};
ghost use Rattle.smithy_schema.specs.views.NamePositions.{key_at, position_in};

use crate::defining::stored_at;
use crate::parts::SchemaIndex;
use crate::stored::{StoredMember, StoredNode};
use smithy_types::OutOfMemory;
use std::alloc::Global;
use std::cmp::Ordering;
use std::collections::BTreeMap;

// The first position of each name.
pub(crate) type Positions = BTreeMap<String, usize>;

// A map of the names, and the order of their positions.
#[derive(Drop)]
pub(crate) struct MappedNames {
    pub(crate) positions: Positions,
    pub(crate) followers: Vec<usize>,
}

// How the members of a node are found by their names.
#[derive(Drop)]
pub(crate) enum MemberNames {
    // The names ascend in byte order, so that they are searched where they stand.
    Ascending,
    Mapped(Box<MappedNames>),
}

impl MemberNames {
    // The first position of a name among the members at these places, whose names these are.
    pub(crate) fn position_of(
        &self,
        nodes: &[Option<StoredNode>],
        members: &[SchemaIndex],
        name: &str,
    ) -> Option<usize>
        requires { FindsNames (table_stored nodes.now) (places_of members.now) self.now }
        ensures { result ≡ position_in (table_stored nodes.now) name.now (places_of members.now) }
    {
        match self {
            MemberNames::Ascending => searched(nodes, members, name),
            MemberNames::Mapped(names) => names.positions.get(name).copied(),
        }
    }

    // A position whose name may follow, in byte order, that of the one before, of so many; else of the first name's.
    pub(crate) fn position_behind(&self, before: Option<usize>, count: usize) -> Option<usize>
        ensures { IfSome result (IsLead self.now) }
    {
        match self {
            MemberNames::Ascending => match before {
                Some(position) => position.checked_add(1),
                None => Some(0),
            },
            MemberNames::Mapped(names) => names.followers.get(before.unwrap_or(count)).copied(),
        }
    }
}

// The name of the member at a place.
fn name_at(nodes: &[Option<StoredNode>], place: usize) -> Option<&str>
    ensures { option_map (λ t. t.now) result ≡ name_held (node_at (table_stored nodes.now) place) }
{
    match &stored_at(nodes, place)?.head().membership {
        StoredMember::Shape => None,
        StoredMember::Named(name) => Some(name.as_str()),
        StoredMember::Indexed(name, _) => Some(name.as_str()),
    }
}

// Whether a name stands behind the one before it, if there is one.
fn rises(before: Option<&str>, name: Option<&str>) -> bool
    ensures { result ≡ rises (text_of before.entry) (text_of name.entry) }
{
    match name {
        Some(name) => match before {
            Some(before) => before.cmp(name).is_lt(),
            None => true,
        },
        None => false,
    }
}

// Whether each member at these places has a name, each behind that of the one before.
fn names_ascend(nodes: &[Option<StoredNode>], members: &[SchemaIndex]) -> bool
    ensures { result ≡ ascend None (names_in (table_stored nodes.now) (places_of members.now)) }
{
    let mut before = None;
    for member in members {
        let name = name_at(nodes, member.0);
        if !rises(before, name) {
            return false;
        }
        before = name;
    }
    true
}

// How the name of the member at a place stands to another one.
fn order_at(nodes: &[Option<StoredNode>], place: usize, name: &str) -> Ordering
    ensures { result ≡ slice_cmp nat_cmp (key_at (table_stored nodes.now) place) name.now }
{
    match name_at(nodes, place) {
        Some(own) => own.cmp(name),
        None => "".cmp(name),
    }
}

// The position of a name among members whose names ascend. It halves them again and again.
fn searched(nodes: &[Option<StoredNode>], members: &[SchemaIndex], name: &str) -> Option<usize>
    requires { ascend None (names_in (table_stored nodes.now) (places_of members.now)) ≡ true }
    ensures { result ≡ position_in (table_stored nodes.now) name.now (places_of members.now) }
{
    match members.binary_search_by(|member| order_at(nodes, member.0, name)) {
        Ok(position) => Some(position),
        Err(_) => None,
    }
}

// Adds a name with its position, unless an earlier member has it.
fn add_name(
    alloc: Global,
    positions: &mut Positions,
    name: &str,
    position: usize,
) -> Result<(), OutOfMemory>
    ensures { OnOk result (HasOneMore positions.old (Some name.now) position positions.new) }
{
    let name = String::from_str(alloc, name)?;
    positions.entry(name)?.or_insert(position);
    Ok(())
}

// Adds the position of a member, which may have no name.
fn add_member(
    alloc: Global,
    positions: &mut Positions,
    name: Option<&str>,
    position: usize,
) -> Result<(), OutOfMemory>
    ensures { OnOk result
        (HasOneMore positions.old (option_map (λ t. t.now) name.entry) position positions.new) }
{
    match name {
        Some(name) => add_name(alloc, positions, name, position),
        None => Ok(()),
    }
}

// The first position of each name among the members at these places.
fn first_positions(
    alloc: Global,
    nodes: &[Option<StoredNode>],
    members: &[SchemaIndex],
) -> Result<Positions, OutOfMemory>
    ensures { IfOk result (HasPositions (table_stored nodes.now) (places_of members.now)) }
{
    let mut positions = BTreeMap::new(alloc);
    for (position, member) in members.iter().enumerate() {
        add_member(alloc, &mut positions, name_at(nodes, member.0), position)?;
    }
    Ok(positions)
}

// Puts what follows a position, if it is one.
fn put_follower(followers: &mut Vec<usize>, before: usize, position: usize)
    ensures { followers.new.items ≡ slice_set followers.old.items before position }
{
    if before < followers.len() {
        followers[before] = position;
    }
}

// For each member's position that of the name behind its own in byte order, and the first name's behind them all. A
// position that no name stands for, and the last name's, have the first name's too. Nothing where there is no name.
fn followers(
    alloc: Global,
    positions: &Positions,
    members: &[SchemaIndex],
) -> Result<Vec<usize>, OutOfMemory>
    ensures { IfOk result (λ f. AreOfNames positions.now f.items) }
{
    let Some(first) = positions.values().next() else {
        return Ok(Vec::new(alloc));
    };
    let mut followers = vec![in alloc; *first; members.len() + 1]?;
    let mut last = members.len();
    for position in positions.values() {
        put_follower(&mut followers, last, *position);
        last = *position;
    }
    Ok(followers)
}

/// How the members at these places are found by their names. It takes no memory where the names ascend.
pub(crate) fn member_names(
    alloc: Global,
    nodes: &[Option<StoredNode>],
    members: &[SchemaIndex],
) -> Result<MemberNames, OutOfMemory>
    ensures { IfOk result (FindsNames (table_stored nodes.now) (places_of members.now)) }
{
    if names_ascend(nodes, members) {
        return Ok(MemberNames::Ascending);
    }
    let positions = first_positions(alloc, nodes, members)?;
    let followers = followers(alloc, &positions, members)?;
    let names = MappedNames {
        positions,
        followers,
    };
    Ok(MemberNames::Mapped(Box::new(alloc, names)?))
}
