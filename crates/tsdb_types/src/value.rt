ghost use Rattle.std.specs.Prelude.{◌≡◌};
ghost use Rattle.tsdb_types.specs.Values.{kind_of};

/// What the values of a field are.
#[derive(Clone, Copy, Debug, PartialEq, Eq)]
pub enum Kind {
    /// Signed, of 64 bits.
    Integer,
    /// Unsigned, of 64 bits.
    Unsigned,
    Boolean,
}

/// What is stored in a cell.
#[derive(Clone, Copy, Debug, PartialEq, Eq)]
pub enum Value {
    Int(i64),
    Uint(u64),
    Bool(bool),
}

impl Value {
    pub fn kind(self) -> Kind
        ensures { result ≡ kind_of self }
    {
        match self {
            Value::Int(_) => Kind::Integer,
            Value::Uint(_) => Kind::Unsigned,
            Value::Bool(_) => Kind::Boolean,
        }
    }
}
