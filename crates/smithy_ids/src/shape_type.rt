// The kinds of shapes.

/// The kind of a shape (Smithy, shape types).
#[derive(Clone, Copy, Debug, PartialEq, Eq, Hash)]
pub enum ShapeType {
    Boolean,
    Byte,
    Short,
    Integer,
    Long,
    Float,
    Double,
    BigInteger,
    BigDecimal,
    String,
    Blob,
    Timestamp,
    Document,
    List,
    Map,
    Structure,
    Union,
    Member,
}

impl ShapeType {
    ghost use Rattle.std.specs.Prelude.{◌≡◌};
    ghost use Rattle.smithy_ids.specs.Kinds.{is_simple, is_aggregate, is_member, is_structure, is_structure_or_union, is_scalar, is_unwritable};

    /// One of the simple types, which hold no other shape (Smithy, simple types).
    pub fn is_simple(&self) -> bool
        ensures { result ≡ is_simple self.now }
    {
        !self.is_aggregate() && !self.is_member()
    }

    /// A list, a map, a structure or a union (Smithy, aggregate types).
    pub fn is_aggregate(&self) -> bool
        ensures { result ≡ is_aggregate self.now }
    {
        matches!(
            self,
            ShapeType::List | ShapeType::Map | ShapeType::Structure | ShapeType::Union
        )
    }

    /// A member of another shape.
    pub fn is_member(&self) -> bool
        ensures { result ≡ is_member self.now }
    {
        matches!(self, ShapeType::Member)
    }

    /// A structure.
    pub fn is_structure(&self) -> bool
        ensures { result ≡ is_structure self.now }
    {
        matches!(self, ShapeType::Structure)
    }

    /// A structure or a union.
    pub fn is_structure_or_union(&self) -> bool
        ensures { result ≡ is_structure_or_union self.now }
    {
        matches!(self, ShapeType::Structure | ShapeType::Union)
    }

    /// A kind of labels and queries: each simple one but a float, a double, a blob and a document (Smithy, HTTP protocol
    /// bindings).
    pub fn is_scalar(&self) -> bool
        ensures { result ≡ is_scalar self.now }
    {
        matches!(
            self,
            ShapeType::Boolean
                | ShapeType::Byte
                | ShapeType::Short
                | ShapeType::Integer
                | ShapeType::Long
                | ShapeType::BigInteger
                | ShapeType::BigDecimal
                | ShapeType::String
                | ShapeType::Timestamp
        )
    }

    /// A kind of which no value is written: a float, a double, and a member, which is no kind of values.
    pub fn is_unwritable(&self) -> bool
        ensures { result ≡ is_unwritable self.now }
    {
        matches!(
            self,
            ShapeType::Float | ShapeType::Double | ShapeType::Member
        )
    }
}
