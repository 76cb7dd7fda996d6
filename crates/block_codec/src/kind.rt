ghost use Rattle.std.specs.Prelude.{◌≡◌, ◌≢◌, IfSome, IsNone};
ghost use Rattle.tsdb_types.specs.declared.value.Kind.{Kind};
ghost use Rattle.block_codec.specs.Blocks.{type_byte};

use tsdb_types::Kind;

/// The byte that tells the kind of a block.
pub fn byte_of(kind: Kind) -> u8
    ensures { result ≡ type_byte kind }
{
    match kind {
        Kind::Integer => 1,
        Kind::Boolean => 2,
        Kind::Unsigned => 4,
    }
}

/// The kind that has the byte. Blocks of floats (0) and of strings (3) are not kept.
pub fn kind_with(byte: u8) -> Option<Kind>
    ensures found { IfSome result (λ kind. type_byte kind ≡ byte) }
    ensures none { IsNone result → (kind : Kind) → type_byte kind ≢ byte }
{
    match byte {
        1 => Some(Kind::Integer),
        2 => Some(Kind::Boolean),
        4 => Some(Kind::Unsigned),
        _ => None,
    }
}
