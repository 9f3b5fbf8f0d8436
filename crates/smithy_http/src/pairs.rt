// Pairs of a name and a value, in order, and the place of each name among them.
ghost use Rattle.std.specs.Prelude.{◌≡◌, ◌∷◌, ◌++◌, [], map, position, string_bytes, false, true, ◌<◌, ◌↔◌, IfOk, IfErr, OnOk, OnErr, IsErrOf, MatchOption, vec_capacity, vec_len};
ghost use Rattle.std.specs.Bool.{OnTrue};
ghost use Rattle.std.specs.Cow.{cow_str_bytes};
ghost use Rattle.std.specs.Str.{str_to_ascii_lowercase};
ghost use Rattle.smithy_types.specs.Grammars as grammar;
ghost use Rattle.smithy_types.specs.Texts.{same_text};
ghost use Rattle.smithy_http.specs.Headers.{field, put, without};
ghost use Rattle.smithy_http.specs.views.Pairs.{pair_of, name_of, shown, values_among, is_named, named_otherwise, place_of as place_of_name, AreApart, IsBehind, Rise, RiseTo, IsIndex, ArePlaces, TakesFirst, GetsPlace, Claims};
ghost use Rattle.smithy_http.specs.Refusals.{HasUnfitValue, IsPairRefusal};

use crate::error::HttpError;
use smithy_types::{Blob, OutOfMemory, Text, is_header_value, is_token};
use std::alloc::Global;
use std::borrow::CowStr;
use std::collections::BTreeMap;

// A field, its name in lower case.
#[derive(Drop)]
pub(crate) struct Pair {
    pub(crate) name: String,
    pub(crate) value: Blob,
}

// The place of each name.
type PlaceMap = BTreeMap<String, usize>;

// What is kept of the places of names.
#[derive(Drop)]
pub(crate) enum Places {
    // Nothing: names are searched for.
    Searched,
    // How many names from the first one on rise in byte order, so that a search halves them. None of all stands twice.
    Rising(usize),
    // The place of each name. None stands twice.
    Mapped(PlaceMap),
}

// Through so many pairs a name is searched: that costs less than to copy each name into a map.
const FEW_PAIRS: usize = 16;

// Room for so many pairs is made with the first.
const FIRST_ROOM: usize = 8;

// Whether a field may have this name and this value.
fn test_pair(name: &str, value: &[u8]) -> Result<(), HttpError>
    ensures name { IsErrOf result HttpError.Name ↔ (grammar.is_token name.now ≡ false) }
    ensures value { IsErrOf result HttpError.Value ↔ HasUnfitValue name.now value.now }
    ensures refusals { IfErr result IsPairRefusal }
{
    if !is_token(name) {
        return Err(HttpError::Name);
    }
    if !is_header_value(value) {
        return Err(HttpError::Value);
    }
    Ok(())
}

// A name in lower case, so that no search is needed for it.
pub(crate) fn lower_name(alloc: Global, name: &str) -> Result<String, OutOfMemory>
    ensures lower { IfOk result (λ lower. string_bytes lower ≡ str_to_ascii_lowercase name.now) }
    ensures twice { IfOk result (λ l. str_to_ascii_lowercase (string_bytes l) ≡ str_to_ascii_lowercase name.now) }
{
    Ok(name.to_ascii_lowercase(alloc)?)
}

// The pair of a name in lower case and a value, once both are tested.
pub(crate) fn tested_pair(alloc: Global, name: &str, value: &[u8]) -> Result<Pair, HttpError>
    ensures ok { IfOk result (λ p. pair_of p ≡ field name.now value.now) }
    ensures name { IsErrOf result HttpError.Name ↔ (grammar.is_token name.now ≡ false) }
    ensures value { IsErrOf result HttpError.Value ↔ HasUnfitValue name.now value.now }
    ensures refusals { IfErr result IsPairRefusal }
{
    test_pair(name, value)?;
    Ok(Pair {
        name: lower_name(alloc, name)?,
        value: Blob::new(alloc, value)?,
    })
}

// The pair of a name and a text, of which no copy is made where it is owned.
#[inline(always)]
fn text_pair(alloc: Global, name: String, value: CowStr<'_, Global>) -> Result<Pair, OutOfMemory>
    ensures { IfOk result (λ p. pair_of p ≡ (string_bytes name, cow_str_bytes value.entry)) }
{
    Ok(Pair {
        name,
        value: Blob::from_vec(value.into_owned(alloc)?.into_bytes()),
    })
}

// The same with a text as the value, of which no copy is made where it is owned.
pub(crate) fn tested_text_pair(
    alloc: Global,
    name: &str,
    value: CowStr<'_, Global>,
) -> Result<Pair, HttpError>
    ensures ok { IfOk result (λ p. pair_of p ≡ field name.now (cow_str_bytes value.entry)) }
    ensures name { IsErrOf result HttpError.Name ↔ (grammar.is_token name.now ≡ false) }
    ensures value { IsErrOf result HttpError.Value ↔ HasUnfitValue name.now (cow_str_bytes value.entry) }
    ensures refusals { IfErr result IsPairRefusal }
{
    test_pair(name, value.as_str().as_bytes())?;
    Ok(text_pair(alloc, lower_name(alloc, name)?, value)?)
}

// The same with a name that is in lower case, of which no copy is made either.
pub(crate) fn tested_lower_pair(
    alloc: Global,
    name: Text,
    value: CowStr<'_, Global>,
) -> Result<Pair, HttpError>
    requires { str_to_ascii_lowercase name ≡ name }
    ensures ok { IfOk result (λ p. pair_of p ≡ field name (cow_str_bytes value.entry)) }
    ensures name { IsErrOf result HttpError.Name ↔ (grammar.is_token name ≡ false) }
    ensures value { IsErrOf result HttpError.Value ↔ HasUnfitValue name (cow_str_bytes value.entry) }
    ensures refusals { IfErr result IsPairRefusal }
{
    test_pair(name.as_str(), value.as_str().as_bytes())?;
    Ok(text_pair(alloc, name.into_string(), value)?)
}

// The first place of a name, by a search.
fn first_place(pairs: &[Pair], name: &str) -> Option<usize>
    ensures { result ≡ position (is_named name.now) pairs.now }
{
    pairs.iter().position(|pair| pair.name.as_str() == name)
}

// The place of a name among pairs whose names rise.
fn halved_place(pairs: &[Pair], name: &str) -> Option<usize>
    requires { Rise (map name_of pairs.now) }
    ensures { result ≡ position (is_named name.now) pairs.now }
{
    match pairs.binary_search_by(|pair| pair.name.as_str().cmp(name)) {
        Ok(place) => Some(place),
        Err(_) => None,
    }
}

// The first place of a name where so many names rise: those are halved, and the others searched.
fn rising_place(pairs: &[Pair], count: usize, name: &str) -> Option<usize>
    requires { RiseTo count (map name_of pairs.now) }
    ensures { result ≡ position (is_named name.now) pairs.now }
{
    match halved_place(&pairs[..count], name) {
        Some(place) => Some(place),
        None => Some(count + first_place(&pairs[count..], name)?),
    }
}

// The first place of a name.
fn place_of(pairs: &[Pair], places: &Places, name: &str) -> Option<usize>
    requires { ArePlaces places.now (map name_of pairs.now) }
    ensures { result ≡ position (is_named name.now) pairs.now }
{
    match places {
        Places::Searched => first_place(pairs, name),
        Places::Rising(count) => rising_place(pairs, *count, name),
        Places::Mapped(places) => places.get(name).copied(),
    }
}

// Whether no letter of a name is a capital one.
fn is_in_lower_case(name: &str) -> bool
    ensures { OnTrue result (str_to_ascii_lowercase name.now ≡ name.now) }
{
    for b in name.as_bytes() {
        if b.is_ascii_uppercase() {
            return false;
        }
    }
    true
}

// Whether a name in lower case is this name, which may be in any case.
fn is_lower_of(lower: &str, name: &str) -> bool
    ensures { result ≡ same_text lower.now (str_to_ascii_lowercase name.now) }
{
    let (lower, name) = (lower.as_bytes(), name.as_bytes());
    if lower.len() != name.len() {
        return false;
    }
    for (place, b) in name.iter().enumerate() {
        if lower[place] != b.to_ascii_lowercase() {
            return false;
        }
    }
    true
}

// The first place of a name in any case, by a search.
fn first_place_of(pairs: &[Pair], name: &str) -> Option<usize>
    ensures { result ≡ position (is_named (str_to_ascii_lowercase name.now)) pairs.now }
{
    pairs
        .iter()
        .position(|pair| is_lower_of(pair.name.as_str(), name))
}

// The first place of a name in any case. What is kept of places serves where no letter is a capital one.
fn find(pairs: &[Pair], places: &Places, name: &str) -> Option<usize>
    requires { ArePlaces places.now (map name_of pairs.now) }
    ensures { result ≡ position (is_named (str_to_ascii_lowercase name.now)) pairs.now }
{
    if is_in_lower_case(name) {
        return place_of(pairs, places, name);
    }
    first_place_of(pairs, name)
}

// The part with the pairs of a name: the one pair, where each name stands once, or all from the first on.
pub(crate) fn named_part<'p>(pairs: &'p [Pair], places: &Places, name: &str) -> &'p [Pair]
    requires { ArePlaces places.now (map name_of pairs.now) }
    ensures { values_among name.now result.now ≡ values_among name.now pairs.now }
{
    let Some(place) = find(pairs, places, name) else {
        return &[];
    };
    match places {
        Places::Searched => &pairs[place..],
        Places::Rising(_) => &pairs[place..=place],
        Places::Mapped(_) => &pairs[place..=place],
    }
}

// The first value of a name in any case, and the pairs behind it.
pub(crate) fn next_value<'p>(pairs: &'p [Pair], name: &str) -> Option<(&'p [u8], &'p [Pair])>
    ensures { TakesFirst name.now pairs.now result }
{
    let place = find(pairs, &Places::Searched, name)?;
    Some((pairs[place].value.as_slice(), &pairs[place + 1..]))
}

// Drops the pairs of a name in any case.
fn drop_all_named(pairs: &mut Vec<Pair>, name: &str)
    ensures { pairs.new.items ≡ named_otherwise (str_to_ascii_lowercase name.now) pairs.old.items }
{
    pairs.retain(|pair| !is_lower_of(pair.name.as_str(), name));
}

// Drops the pairs of a name in any case, where it stands. That ends the keeping of places.
#[tactic(auto, using(crate::proofs::PutLemmas::removing))]
pub(crate) fn remove_named(pairs: &mut Vec<Pair>, places: &mut Places, name: &str)
    requires { ArePlaces places.old (map name_of pairs.old.items) }
    ensures pairs { shown pairs.new.items ≡ without (str_to_ascii_lowercase name.now) (shown pairs.old.items) }
    ensures index { ArePlaces places.new (map name_of pairs.new.items) }
{
    match find(pairs, places, name) {
        None => {}
        Some(_) => {
            drop_all_named(pairs, name);
            *places = Places::Searched;
        }
    }
}

// A copy of a pair.
pub(crate) fn copy_pair(alloc: Global, pair: &Pair) -> Result<Pair, OutOfMemory>
    ensures { IfOk result (λ p. pair_of p ≡ pair_of pair.now) }
{
    Ok(Pair {
        name: String::from_str(alloc, pair.name.as_str())?,
        value: Blob::new(alloc, pair.value.as_slice())?,
    })
}

// Drops the pairs of a name.
fn drop_named(pairs: &mut Vec<Pair>, name: &str)
    ensures others { pairs.new.items ≡ named_otherwise name.now pairs.old.items }
    ensures capacity { vec_capacity pairs.new ≡ vec_capacity pairs.old }
{
    pairs.retain(|pair| pair.name.as_str() != name);
}

// Puts the pair at the first place of its name, and its other values go.
fn replace(pairs: &mut Vec<Pair>, place: usize, pair: Pair)
    requires { position (is_named (name_of pair)) pairs.old.items ≡ Some place }
    ensures { shown pairs.new.items ≡ put (shown pairs.old.items) (pair_of pair) }
{
    drop_named(pairs, pair.name.as_str());
    pairs.insert(place, pair).unwrap();
}

// Sets the value of a name that stands once.
#[tactic(auto, using(crate::proofs::PlaceLemmas::placing))]
fn set_value(pairs: &mut Vec<Pair>, place: usize, pair: Pair)
    requires apart { AreApart (map name_of pairs.old.items) }
    requires found { position (is_named (name_of pair)) pairs.old.items ≡ Some place }
    ensures value { shown pairs.new.items ≡ put (shown pairs.old.items) (pair_of pair) }
    ensures names { map name_of pairs.new.items ≡ map name_of pairs.old.items }
{
    let Pair { name: _, value } = pair;
    pairs[place].value = value;
}

// Puts the pair at the first place of its name.
fn put_at(pairs: &mut Vec<Pair>, places: &Places, place: usize, pair: Pair)
    requires index { ArePlaces places.now (map name_of pairs.old.items) }
    requires found { position (is_named (name_of pair)) pairs.old.items ≡ Some place }
    ensures value { shown pairs.new.items ≡ put (shown pairs.old.items) (pair_of pair) }
    ensures index { ArePlaces places.now (map name_of pairs.new.items) }
{
    match places {
        Places::Searched => replace(pairs, place, pair),
        Places::Rising(_) | Places::Mapped(_) => set_value(pairs, place, pair),
    }
}

// Adds the place of a new name, which goes last.
fn insert_place(places: &mut PlaceMap, pairs: &[Pair], name: String) -> Result<(), OutOfMemory>
    requires new { place_of_name (string_bytes name) (map name_of pairs.now) ≡ None }
    requires index { IsIndex places.old (map name_of pairs.now) }
    ensures ok { OnOk result (IsIndex places.new (map name_of pairs.now ++ string_bytes name ∷ [])) }
    ensures err { OnErr result (IsIndex places.new (map name_of pairs.now)) }
{
    places.insert(name, pairs.len())?;
    Ok(())
}

// The place of each name, where none stands twice.
fn mapped(alloc: Global, pairs: &[Pair]) -> Result<Places, OutOfMemory>
    ensures { IfOk result (λ places. ArePlaces places (map name_of pairs.now)) }
{
    let mut places = BTreeMap::new(alloc);
    for (place, pair) in pairs.iter().enumerate() {
        let name = pair.name.as_str();
        if places.get(name).is_some() {
            return Ok(Places::Searched);
        }
        insert_place(&mut places, &pairs[..place], String::from_str(alloc, name)?)?;
    }
    Ok(Places::Mapped(places))
}

// Whether a name stands behind the last of names that rise, and so behind each, in byte order.
fn is_behind(pairs: &[Pair], name: &str) -> bool
    requires { Rise (map name_of pairs.now) }
    ensures { OnTrue result (IsBehind name.now (map name_of pairs.now)) }
{
    match pairs.last() {
        Some(last) => last.name.as_str().cmp(name).is_lt(),
        None => true,
    }
}

// Whether all names rise.
fn all_rise(pairs: &[Pair]) -> bool
    ensures { OnTrue result (Rise (map name_of pairs.now)) }
{
    for (place, pair) in pairs.iter().enumerate() {
        if !is_behind(&pairs[..place], pair.name.as_str()) {
            return false;
        }
    }
    true
}

// What is kept of the places of many pairs: no map where all names rise, as those of a map behind a prefix do.
fn kept(alloc: Global, pairs: &[Pair]) -> Result<Places, OutOfMemory>
    ensures { IfOk result (λ places. ArePlaces places (map name_of pairs.now)) }
{
    if all_rise(pairs) {
        return Ok(Places::Rising(pairs.len()));
    }
    mapped(alloc, pairs)
}

// Whether what is kept of places changes before one more pair comes: once there are few pairs no longer. That is so at one
// number of pairs alone, so that where a name stands twice, it isn't tried at each further pair. Few names behind those that
// rise are searched, more make a map.
fn is_turn(places: &Places, pairs: &[Pair]) -> bool
    requires { ArePlaces places.now (map name_of pairs.now) }
{
    match places {
        Places::Searched => pairs.len() == FEW_PAIRS,
        Places::Rising(count) => pairs.len() - *count == FEW_PAIRS,
        Places::Mapped(_) => false,
    }
}

// Keeps places as is best of so many pairs.
#[inline(never)]
fn keep_places(alloc: Global, places: &mut Places, pairs: &[Pair]) -> Result<(), OutOfMemory>
    requires { ArePlaces places.old (map name_of pairs.now) }
    ensures { ArePlaces places.new (map name_of pairs.now) }
{
    *places = match places {
        Places::Searched => kept(alloc, pairs)?,
        Places::Rising(_) => mapped(alloc, pairs)?,
        Places::Mapped(_) => return Ok(()),
    };
    Ok(())
}

// Makes room for one more pair.
#[inline(always)]
fn make_room(pairs: &mut Vec<Pair>, places: &mut Places) -> Result<(), OutOfMemory>
    requires { ArePlaces places.old (map name_of pairs.old.items) }
    ensures items { pairs.new.items ≡ pairs.old.items }
    ensures room { OnOk result (vec_len pairs.new < vec_capacity pairs.new) }
    ensures index { ArePlaces places.new (map name_of pairs.new.items) }
{
    pairs.reserve(if pairs.is_empty() { FIRST_ROOM } else { 1 })?;
    if !is_turn(places, pairs) {
        return Ok(());
    }
    keep_places(*pairs.allocator(), places, pairs)
}

// The place of a name. A new name gets the one behind the pairs.
fn claim_mapped(
    alloc: Global,
    places: &mut PlaceMap,
    pairs: &[Pair],
    name: &str,
) -> Result<Option<usize>, OutOfMemory>
    requires { IsIndex places.old (map name_of pairs.now) }
    ensures { Claims name.now pairs.now (IsIndex places.new) result }
{
    let name = String::from_str(alloc, name)?;
    let place = *places.entry(name)?.or_insert(pairs.len());
    if place < pairs.len() {
        Ok(Some(place))
    } else {
        Ok(None)
    }
}

// The same where names rise: a new one is one more of those if they are all, and it stands behind them.
fn claim_rising(count: &mut usize, pairs: &[Pair], name: &str) -> Option<usize>
    requires { RiseTo count.old (map name_of pairs.now) }
    ensures { GetsPlace name.now pairs.now (RiseTo count.new) result }
{
    if *count == pairs.len() && is_behind(pairs, name) {
        *count = pairs.len() + 1;
        return None;
    }
    rising_place(pairs, *count, name)
}

// The same whatever is kept of places.
#[inline(always)]
fn claim(
    alloc: Global,
    places: &mut Places,
    pairs: &[Pair],
    name: &str,
) -> Result<Option<usize>, OutOfMemory>
    requires { ArePlaces places.old (map name_of pairs.now) }
    ensures { Claims name.now pairs.now (ArePlaces places.new) result }
{
    match places {
        Places::Searched => Ok(first_place(pairs, name)),
        Places::Rising(count) => Ok(claim_rising(count, pairs, name)),
        Places::Mapped(places) => claim_mapped(alloc, places, pairs, name),
    }
}

// Puts the pair at the first place of its name, or at the end.
#[tactic(auto, using(crate::proofs::PutLemmas::putting))]
pub(crate) fn put_pair(
    pairs: &mut Vec<Pair>,
    places: &mut Places,
    pair: Pair,
) -> Result<(), OutOfMemory>
    requires { ArePlaces places.old (map name_of pairs.old.items) }
    ensures ok { OnOk result
        (shown pairs.new.items ≡ put (shown pairs.old.items) (pair_of pair)) }
    ensures err { OnErr result (shown pairs.new.items ≡ shown pairs.old.items) }
    ensures index { ArePlaces places.new (map name_of pairs.new.items) }
{
    make_room(pairs, places)?;
    match claim(*pairs.allocator(), places, pairs, pair.name.as_str())? {
        None => pairs.push_reserved(pair),
        Some(place) => put_at(pairs, places, place, pair),
    }
    Ok(())
}

// Adds the pair at the end. A name that stands already ends the keeping of places.
pub(crate) fn add_pair(
    pairs: &mut Vec<Pair>,
    places: &mut Places,
    pair: Pair,
) -> Result<(), OutOfMemory>
    requires { ArePlaces places.old (map name_of pairs.old.items) }
    ensures ok { OnOk result (pairs.new.items ≡ pairs.old.items ++ pair ∷ []) }
    ensures err { OnErr result (pairs.new.items ≡ pairs.old.items) }
    ensures index { ArePlaces places.new (map name_of pairs.new.items) }
{
    make_room(pairs, places)?;
    match claim(*pairs.allocator(), places, pairs, pair.name.as_str())? {
        None => {}
        Some(_) => *places = Places::Searched,
    }
    pairs.push_reserved(pair);
    Ok(())
}
