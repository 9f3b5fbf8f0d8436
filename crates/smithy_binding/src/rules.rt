// The rules of a checked schema, as they are told.
ghost use Rattle.std.specs.Prelude.{◌≡◌, Some};
ghost use Rattle.smithy_binding.specs.Words.{schema_of};
ghost use Rattle.smithy_binding.specs.Broken.{by_schema, by_member};
ghost use Rattle.smithy_binding.specs.RuleTexts.{text_of_rule, text_of_broken};
ghost use Rattle.smithy_binding.specs.views.Breaking.{broken_of};

use smithy_schema::SchemaRef;
use std::fmt;

/// A rule of a checked input or output schema (Smithy, HTTP protocol bindings).
#[derive(Clone, Copy, Debug, PartialEq, Eq, Drop)]
pub enum Rule {
    /// The schema is a structure.
    Structure,
    /// The place of each member has a node.
    DefinedMembers,
    /// No two members have one name.
    DistinctMembers,
    /// Each node that a member cites is defined.
    DefinedNodes,
    /// A member of an input has at most one binding.
    OneBinding,
    /// A member of an output has at most one binding.
    OneResponseBinding,
    /// A member is no Float and no Double.
    WritableKind,
    /// A label is a scalar.
    LabelKind,
    /// A query is a scalar or a list of scalars.
    QueryKind,
    /// A header is a scalar, a Blob or a list of these.
    HeaderKind,
    /// The elements of a list in a header or the query have no media type, and the list's time format.
    PlainElements,
    /// A prefix map is one from Strings to Strings.
    PrefixMapKind,
    /// A query map is one from Strings to Strings or to lists of Strings.
    QueryMapKind,
    /// A response code is an Integer.
    ResponseCodeKind,
    /// At most one member is the payload.
    OnePayload,
    /// The payload is of a payload's kind.
    PayloadKind,
    /// No member stands in the body beside a payload.
    LonePayload,
    /// At most one member is a prefix map.
    OnePrefixMap,
    /// At most one member is a query map.
    OneQueryMap,
    /// At most one member is the response code.
    OneResponseCode,
    /// The flag of no body members says what holds.
    TrueFlag,
    /// The payload hint says what holds.
    TrueHint,
    /// The name of a header is a token.
    HeaderToken,
    /// No two names of headers are alike in lower case.
    DistinctHeaders,
    /// A prefix is empty or a token.
    PrefixToken,
    /// A prefix begins the name of no header member.
    PrefixApart,
    /// No two names of queries are alike.
    DistinctQueries,
    /// The method is a token.
    MethodToken,
    /// Each brace of the template is closed.
    ClosedBraces,
    /// With `a` in its holes the template is a legal target.
    LegalTemplate,
    /// Each hole is a whole segment of the path.
    WholeSegments,
    /// Of an absolute template the authority and the `/` behind it stand before the first hole.
    WholeAuthority,
    /// The holes are the labels, each once.
    LabelHoles,
    /// Only the last hole is greedy.
    GreedyLast,
    /// The template begins with `/`.
    LeadingSlash,
}

impl Rule {
    // What is wrong where the rule is broken, in words.
    fn text(self) -> &'static str
        ensures { result.now ≡ text_of_rule self }
    {
        match self {
            Rule::Structure => "the schema is no structure",
            Rule::DefinedMembers => "a member of the schema is not defined",
            Rule::DistinctMembers => "two members have the same name",
            Rule::DefinedNodes => "it cites a node that is not defined",
            Rule::OneBinding => {
                "it has more than one of the traits httpHeader, httpQuery, httpLabel, httpPrefixHeaders, httpQueryParams and httpPayload"
            }
            Rule::OneResponseBinding => {
                "it has more than one of the traits httpHeader, httpPrefixHeaders, httpResponseCode and httpPayload"
            }
            Rule::WritableKind => "it is a Float or a Double, which are not written",
            Rule::LabelKind =>
                "it has httpLabel, and is no Boolean, whole or big number, String or Timestamp",
            Rule::QueryKind => {
                "it has httpQuery, and is no Boolean, whole or big number, String or Timestamp, nor a list of these"
            }
            Rule::HeaderKind => {
                "it has httpHeader, and is no Boolean, whole or big number, String, Timestamp or Blob, nor a list of these"
            }
            Rule::PlainElements => {
                "it is a list in a header or the query whose element has a mediaType, or not the timestampFormat of the list"
            }
            Rule::PrefixMapKind => {
                "it has httpPrefixHeaders, and is no map from Strings to Strings without mediaType"
            }
            Rule::QueryMapKind => {
                "it has httpQueryParams, and is no map from Strings to Strings or to lists of Strings without mediaType"
            }
            Rule::ResponseCodeKind => "it has httpResponseCode, and is no Integer",
            Rule::OnePayload => "more than one member has httpPayload",
            Rule::PayloadKind => {
                "the member with httpPayload is no Blob, String, structure, union, list, map or Document"
            }
            Rule::LonePayload => {
                "beside the member with httpPayload stands one that no trait puts outside the body"
            }
            Rule::OnePrefixMap => "more than one member has httpPrefixHeaders",
            Rule::OneQueryMap => "more than one member has httpQueryParams",
            Rule::OneResponseCode => "more than one member has httpResponseCode",
            Rule::TrueFlag => "a member stands in the body, and the flag says that none does",
            Rule::TrueHint => "the payload hint does not say whether the payload is a structure",
            Rule::HeaderToken => "the name in its httpHeader is no token",
            Rule::DistinctHeaders => "the names of two httpHeader are alike in lower case",
            Rule::PrefixToken => "the prefix in its httpPrefixHeaders is neither empty nor a token",
            Rule::PrefixApart => {
                "the prefix in its httpPrefixHeaders begins the name of an httpHeader"
            }
            Rule::DistinctQueries => "the names of two httpQuery are alike",
            Rule::MethodToken => "the method of the trait http is no token",
            Rule::ClosedBraces => "a { in the uri of the trait http has no }",
            Rule::LegalTemplate => {
                "the uri of the trait http, with `a` in each hole, is no legal target of a request, as /a/a?b=c"
            }
            Rule::WholeSegments =>
                "a hole in the uri of the trait http is no whole segment of the path",
            Rule::WholeAuthority => {
                "the uri of the trait http has a scheme, and no / behind the authority before its first hole"
            }
            Rule::LabelHoles => {
                "the holes in the uri of the trait http are not the members with httpLabel, each once"
            }
            Rule::GreedyLast => "a hole in the uri of the trait http is greedy and not the last",
            Rule::LeadingSlash => "the uri of the trait http does not begin with /",
        }
    }
}

impl fmt::Display for Rule {
    ghost output = { λ r. Some (text_of_rule r) };

    fn fmt<W: fmt::Write>(&self, f: &mut fmt::Formatter<W>) -> fmt::Result {
        f.write_str(self.text())
    }
}

/// A broken rule, and the name of the member that breaks it: none where it is a rule of the schema, or the member has no
/// name.
#[derive(Clone, Copy, Debug, PartialEq, Eq, Drop)]
pub struct BrokenRule<'t> {
    pub member: Option<&'t str>,
    pub rule: Rule,
}

impl fmt::Display for BrokenRule<'_> {
    ghost output = { λ b. Some (text_of_broken (broken_of b)) };

    fn fmt<W: fmt::Write>(&self, f: &mut fmt::Formatter<W>) -> fmt::Result {
        match self.member {
            Some(member) => write!(f, "member {}: {}", member, self.rule.text()),
            None => f.write_str(self.rule.text()),
        }
    }
}

/// The rule, broken by the schema as a whole.
pub fn by_schema<'t>(rule: Rule) -> BrokenRule<'t>
    ensures { Some (broken_of result) ≡ by_schema (Some rule) }
{
    BrokenRule { member: None, rule }
}

/// The rule, broken by the member.
pub fn by_member<'t>(member: SchemaRef<'t>, rule: Rule) -> BrokenRule<'t>
    ensures { Some (broken_of result) ≡ by_member (schema_of member.entry) (Some rule) }
{
    BrokenRule {
        member: member.member_name(),
        rule,
    }
}
