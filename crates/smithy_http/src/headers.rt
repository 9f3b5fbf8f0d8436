// Header fields.
ghost use Rattle.std.specs.Prelude.{◌≡◌, ◌∷◌, ◌++◌, [], map, false, ◌↔◌, IfOk, IfErr, OnOk, OnErr, IsErrOf};
ghost use Rattle.std.specs.Cow.{cow_str_bytes};
ghost use Rattle.std.specs.Option.{option_copied};
ghost use Rattle.std.specs.Str.{str_to_ascii_lowercase};
ghost use Rattle.smithy_types.specs.Grammars as grammar;
ghost use Rattle.smithy_http.specs.Facts.{values_of_name};
ghost use Rattle.smithy_http.specs.HeaderValues.{first_text, texts_in};
ghost use Rattle.smithy_http.specs.Headers.{field, put, without};
ghost use Rattle.smithy_http.specs.views.Pairs.{pair_of};
ghost use Rattle.smithy_http.specs.Refusals.{HasUnfitValue, IsPairRefusal};

use crate::error::HttpError;
use crate::pairs::{
    Pair, Places, add_pair, copy_pair, named_part, next_value, put_pair, remove_named,
    tested_lower_pair, tested_pair, tested_text_pair,
};
use crate::values::{GetAll, GetAllBytes, text_in};
use smithy_types::{OutOfMemory, Text};
use std::alloc::Global;
use std::borrow::CowStr;
use std::marker::Model;

/// Header fields, seen as the list of their pairs of a lower-case name and value bytes, in order.
#[derive(Drop)]
pub struct Headers {
    pairs: Vec<Pair>,
    // Kept from the seventeenth pair on, as long as no name stands twice.
    places: Places,
}

impl Model for Headers {
    ghost use Rattle.std.specs.Prelude.{List, ℕ, map};
    ghost use Rattle.smithy_http.specs.views.Pairs.{pair_of, name_of, ArePlaces};

    ghost Value = { List (List ℕ × List ℕ) };

    ghost view = { λ h. map pair_of h.pairs.items };

    ghost invariant = { λ h. ArePlaces h.places (map name_of h.pairs.items) };
}

impl Headers {
    /// No fields. Takes no memory.
    pub fn new(alloc: Global) -> Headers
        ensures { result ≡ [] }
    {
        Headers {
            pairs: Vec::new(alloc),
            places: Places::Searched,
        }
    }

    /// Puts the value at the first place of the name, and its other values go; a new name goes last.
    /// Names are compared without ASCII case.
    ///
    /// `Name` where the name is not a token (RFC 7230, section 3.2.6), then `Value` where the value has a
    /// byte that no field value has. After a refusal the fields are unchanged. Takes memory.
    pub fn try_insert(&mut self, name: &str, value: &str) -> Result<(), HttpError>
        ensures ok { OnOk result (self.new ≡ put self.old (field name.now value.now)) }
        ensures name { IsErrOf result HttpError.Name ↔ (grammar.is_token name.now ≡ false) }
        ensures value { IsErrOf result HttpError.Value ↔ HasUnfitValue name.now value.now }
        ensures refusals { IfErr result IsPairRefusal }
        ensures err { OnErr result (self.new ≡ self.old) }
    {
        let pair = tested_pair(self.allocator(), name, value.as_bytes())?;
        put_pair(&mut self.pairs, &mut self.places, pair)?;
        Ok(())
    }

    /// `try_insert` with a text as the value, of which no copy is made where it is owned.
    ///
    /// Refused as `try_insert` is, with `Name`, then with `Value`. After a refusal the fields are unchanged. Takes memory.
    pub fn insert_text(&mut self, name: &str, value: CowStr<'_, Global>) -> Result<(), HttpError>
        ensures ok { OnOk result (self.new ≡ put self.old (field name.now (cow_str_bytes value.entry))) }
        ensures name { IsErrOf result HttpError.Name ↔ (grammar.is_token name.now ≡ false) }
        ensures value { IsErrOf result HttpError.Value ↔ HasUnfitValue name.now (cow_str_bytes value.entry) }
        ensures refusals { IfErr result IsPairRefusal }
        ensures err { OnErr result (self.new ≡ self.old) }
    {
        let pair = tested_text_pair(self.allocator(), name, value)?;
        put_pair(&mut self.pairs, &mut self.places, pair)?;
        Ok(())
    }

    /// `insert_text` with a name that is in lower case, of which no copy is made either. Condition: no letter of it is a
    /// capital one.
    ///
    /// Refused as `try_insert` is, with `Name`, then with `Value`. After a refusal the fields are unchanged. Takes memory.
    pub fn insert_lower(&mut self, name: Text, value: CowStr<'_, Global>) -> Result<(), HttpError>
        requires { str_to_ascii_lowercase name ≡ name }
        ensures ok { OnOk result (self.new ≡ put self.old (field name (cow_str_bytes value.entry))) }
        ensures name { IsErrOf result HttpError.Name ↔ (grammar.is_token name ≡ false) }
        ensures value { IsErrOf result HttpError.Value ↔ HasUnfitValue name (cow_str_bytes value.entry) }
        ensures refusals { IfErr result IsPairRefusal }
        ensures err { OnErr result (self.new ≡ self.old) }
    {
        let pair = tested_lower_pair(self.allocator(), name, value)?;
        put_pair(&mut self.pairs, &mut self.places, pair)?;
        Ok(())
    }

    /// Adds the pair at the end.
    ///
    /// `Name` where the name is not a token (RFC 7230, section 3.2.6), then `Value` where the value has a
    /// byte that no field value has. After a refusal the fields are unchanged. Takes memory.
    pub fn append(&mut self, name: &str, value: &[u8]) -> Result<(), HttpError>
        ensures ok { OnOk result (self.new ≡ self.old ++ field name.now value.now ∷ []) }
        ensures name { IsErrOf result HttpError.Name ↔ (grammar.is_token name.now ≡ false) }
        ensures value { IsErrOf result HttpError.Value ↔ HasUnfitValue name.now value.now }
        ensures refusals { IfErr result IsPairRefusal }
        ensures err { OnErr result (self.new ≡ self.old) }
    {
        let pair = tested_pair(self.allocator(), name, value)?;
        add_pair(&mut self.pairs, &mut self.places, pair)?;
        Ok(())
    }

    /// Drops the pairs of the name. Names are compared without ASCII case. Takes no memory.
    pub fn remove(&mut self, name: &str)
        ensures { self.new ≡ without (str_to_ascii_lowercase name.now) self.old }
    {
        remove_named(&mut self.pairs, &mut self.places, name);
    }

    /// The first value of the name, where it is UTF-8. Names are compared without ASCII case; among more than 16 pairs a
    /// name in lower case is looked up, by a map or by halving names that ascend, as long as no name stands twice and none
    /// was removed. Takes no memory.
    pub fn get(&self, name: &str) -> Option<&str>
        ensures { option_copied result ≡ first_text (values_of_name name.now self.now) }
    {
        let (value, _) = next_value(named_part(&self.pairs, &self.places, name), name)?;
        text_in(value)
    }

    /// The values of the name that are UTF-8, in order (RFC 7230, section 3.2.2). The name is found as by `get`.
    /// Takes no memory.
    pub fn get_all<'h>(&'h self, name: &'h str) -> GetAll<'h>
        ensures { result ≡ texts_in (values_of_name name.now self.now) }
    {
        GetAll::of(self.get_all_bytes(name))
    }

    /// The values of the name, in order (RFC 7230, section 3.2.2). The name is found as by `get`. Takes no memory.
    pub fn get_all_bytes<'h>(&'h self, name: &'h str) -> GetAllBytes<'h>
        ensures { result ≡ values_of_name name.now self.now }
    {
        GetAllBytes::among(named_part(&self.pairs, &self.places, name), name)
    }

    /// The same fields once more. Takes memory.
    pub fn copy(&self, alloc: Global) -> Result<Headers, OutOfMemory>
        ensures { IfOk result (λ copy. copy ≡ self.now) }
    {
        headers_of(alloc, &self.pairs)
    }

    // Adds a pair at the end.
    fn push(&mut self, pair: Pair) -> Result<(), OutOfMemory>
        ensures { OnOk result (self.new ≡ self.old ++ pair_of pair ∷ []) }
    {
        add_pair(&mut self.pairs, &mut self.places, pair)
    }

    // What the fields are kept in.
    pub(crate) fn allocator(&self) -> Global {
        *self.pairs.allocator()
    }

    /// The pairs in order.
    pub fn iter_bytes(&self) -> HeaderPairs<'_>
        ensures { result ≡ self.now }
    {
        HeaderPairs {
            pairs: self.pairs.as_slice(),
        }
    }
}

// Header fields with copies of these pairs.
fn headers_of(alloc: Global, pairs: &[Pair]) -> Result<Headers, OutOfMemory>
    ensures { IfOk result (λ headers. headers ≡ map pair_of pairs.now) }
{
    let mut headers = Headers::new(alloc);
    for pair in pairs {
        headers.push(copy_pair(alloc, pair)?)?;
    }
    Ok(headers)
}

/// The pairs of header fields that are left, in order.
#[derive(Drop)]
pub struct HeaderPairs<'h> {
    pairs: &'h [Pair],
}

impl<'h> Model for HeaderPairs<'h> {
    ghost use Rattle.std.specs.Prelude.{List, ℕ, map};
    ghost use Rattle.smithy_http.specs.views.Pairs.{pair_of};

    ghost Value = { List (List ℕ × List ℕ) };

    ghost view = { λ h. map pair_of h.pairs.now };
}

impl<'h> Iterator for HeaderPairs<'h> {
    ghost use Rattle.std.specs.Iterator.{YieldsFirstBy, item_count};

    type Item = (&'h str, &'h [u8]);

    ghost next_gives = { YieldsFirstBy (λ p. (p.0.now, p.1.now)) (λ rest. rest) };

    ghost remaining = { item_count (λ rest. rest) };

    fn next(&mut self) -> Option<(&'h str, &'h [u8])> {
        let (pair, rest) = self.pairs.split_first()?;
        self.pairs = rest;
        Some((pair.name.as_str(), pair.value.as_slice()))
    }
}
