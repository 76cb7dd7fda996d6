use std::alloc::{AllocError, Global};

/// What the lines of a batch are like.
#[derive(Clone, Copy)]
pub enum Shape {
    /// One series and one field.
    OneSeries,
    /// A tag, and each line another series.
    OneTag,
    /// The same tag on every line.
    SameTag,
    /// A hundred series in turn.
    InTurn,
    /// Three tags and three fields of three kinds, each line another series.
    ThreeTags,
    /// Three tags that don't ascend, each line another series.
    Unordered,
    /// Backslashes in the measurement, two tag values and the field.
    Escapes,
    /// Each line two fields that no other has.
    OtherFields,
}

impl Shape {
    pub const ALL: [Shape; 8] = [
        Shape::OneSeries,
        Shape::OneTag,
        Shape::SameTag,
        Shape::InTurn,
        Shape::ThreeTags,
        Shape::Unordered,
        Shape::Escapes,
        Shape::OtherFields,
    ];

    /// What is printed of it.
    pub fn name(self) -> &'static str {
        match self {
            Shape::OneSeries => "one series",
            Shape::OneTag => "one tag, each another series",
            Shape::SameTag => "one tag, one series",
            Shape::InTurn => "one tag, a hundred series in turn",
            Shape::ThreeTags => "three tags and three fields",
            Shape::Unordered => "three tags out of order",
            Shape::Escapes => "escapes",
            Shape::OtherFields => "two other fields a line",
        }
    }

    /// The line of this number, with its newline.
    pub fn line(self, alloc: Global, k: u32) -> Result<String, AllocError> {
        match self {
            Shape::OneSeries => format!(in alloc; "cpu v={k}i {k}\n"),
            Shape::OneTag => format!(in alloc; "cpu,host=h{k} v=1i 1609459200000000000\n"),
            Shape::SameTag => format!(in alloc; "cpu,host=h17 v=1i 1609459200000000000\n"),
            Shape::InTurn => {
                let host = k % 100;
                format!(in alloc; "cpu,host=h{host} v={k}i {k}\n")
            }
            Shape::ThreeTags => {
                format!(in alloc; "cpu,dc=a,host=h{k},rack=r7 busy={k}i,free={k}u,up=true {k}\n")
            }
            Shape::Unordered => format!(in alloc; "cpu,rack=r7,host=h{k},dc=a v={k}i {k}\n"),
            Shape::Escapes => {
                format!(in alloc; "my\\ cpu,host=a\\,b{k},rack=c\\=d f\\ g={k}i {k}\n")
            }
            Shape::OtherFields => format!(in alloc; "cpu v{k}=1i,w{k}=2i 10\n"),
        }
    }
}
