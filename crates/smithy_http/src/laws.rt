//! Laws of the definitions, each the contract of a function that does nothing.

ghost use Rattle.smithy_http.specs.HeaderValues.{TokensAreSpelled};
ghost use Rattle.smithy_http.specs.ListTexts.{ReadsWhatIsSpelled};
ghost use Rattle.smithy_http.specs.Spelling.{SpellOneList};

/// Bytes spell at most one list of texts (RFC 7230, section 7).
pub fn bytes_spell_one_list()
    ensures { SpellOneList }
{}

/// The texts that are read from bytes are those that they spell, and bytes that spell no list are
/// refused (RFC 7230, section 7).
pub fn what_is_read_is_spelled()
    ensures { ReadsWhatIsSpelled }
{}

/// The texts of a header are those that its values spell, in order, and a header with a value that is
/// not UTF-8 or spells no list is refused (RFC 7230, sections 3.2.2 and 7).
pub fn tokens_are_spelled()
    ensures { TokensAreSpelled }
{}
