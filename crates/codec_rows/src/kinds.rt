// Kinds of shapes by their words.
use smithy_ids::ShapeType;
use smithy_serde::kind_word;

/// All kinds, the simple ones first.
pub const KINDS: [ShapeType; 18] = [
    ShapeType::Boolean,
    ShapeType::Byte,
    ShapeType::Short,
    ShapeType::Integer,
    ShapeType::Long,
    ShapeType::Float,
    ShapeType::Double,
    ShapeType::BigInteger,
    ShapeType::BigDecimal,
    ShapeType::String,
    ShapeType::Blob,
    ShapeType::Timestamp,
    ShapeType::Document,
    ShapeType::List,
    ShapeType::Map,
    ShapeType::Structure,
    ShapeType::Union,
    ShapeType::Member,
];

/// The kind of this word.
pub fn kind_of(word: &str) -> Option<ShapeType> {
    for kind in KINDS {
        if kind_word(kind) == word {
            return Some(kind);
        }
    }
    None
}

/// The word of a kind, `none` where there is none.
pub fn word_or_none(kind: Option<ShapeType>) -> &'static str {
    match kind {
        Some(kind) => kind_word(kind),
        None => "none",
    }
}
