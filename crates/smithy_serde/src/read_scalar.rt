// What is read at once.
use smithy_types::{BigDecimal, BigInteger, Blob, DateTime, Document, Text};

/// The kinds of what is read at once.
#[derive(Clone, Copy, Debug)]
pub enum ScalarKind {
    Boolean,
    Byte,
    Short,
    Integer,
    Long,
    BigInteger,
    BigDecimal,
    String,
    Blob,
    Timestamp,
    Document,
}

/// What was read at once.
#[derive(Drop)]
pub enum ReadScalar {
    Boolean(bool),
    Byte(i8),
    Short(i16),
    Integer(i32),
    Long(i64),
    BigInteger(BigInteger),
    BigDecimal(BigDecimal),
    String(Text),
    Blob(Blob),
    Timestamp(DateTime),
    Document(Document),
}
