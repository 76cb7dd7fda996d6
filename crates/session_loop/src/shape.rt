//! What a line is made of, which tells whether it is blank.
ghost use Rattle.std.specs.Prelude.{◌≡◌, fold};

/// What a line is made of so far.
#[derive(Clone, Copy, Debug, PartialEq, Eq)]
pub enum Shape {
    /// Spaces, or nothing.
    Spaces,
    /// Spaces, and a carriage return behind them.
    SpacesAndReturn,
    /// Anything else.
    Words,
}

ghost use Rattle.session_loop.specs.Shapes.{shape_after, shape_behind as shape_of_more, is_spaces as is_spaces_shape, stripped_shape as shape_stripped};

/// Whether the line is blank.
pub fn is_spaces(shape: Shape) -> bool
    ensures { result ≡ is_spaces_shape shape }
{
    match shape {
        Shape::Spaces => true,
        Shape::SpacesAndReturn | Shape::Words => false,
    }
}

/// What the line is made of less one carriage return at its end.
pub fn stripped_shape(shape: Shape) -> Shape
    ensures { result ≡ shape_stripped shape }
{
    match shape {
        Shape::Spaces | Shape::SpacesAndReturn => Shape::Spaces,
        Shape::Words => Shape::Words,
    }
}

/// What the line is made of with one byte more.
fn next_shape(shape: Shape, byte: u8) -> Shape
    ensures { result ≡ shape_after shape byte }
{
    match (shape, byte) {
        (Shape::Spaces, b' ') => Shape::Spaces,
        (Shape::Spaces, b'\r') => Shape::SpacesAndReturn,
        _ => Shape::Words,
    }
}

/// What the line is made of with these bytes more. It looks at no byte behind the first that is no space.
pub fn shape_behind(shape: Shape, bytes: &[u8]) -> Shape
    ensures { result ≡ shape_of_more shape bytes.now }
{
    let mut shape = shape;
    for byte in bytes {
        if let Shape::Words = shape {
            return Shape::Words;
        }
        shape = next_shape(shape, *byte);
    }
    shape
}
