use std::alloc::AllocError;
use std::marker::Model;

/// The text that a tag is compared with: any text, also an empty one. A contract sees its bytes.
#[derive(Debug, Drop)]
pub struct TagText {
    text: String,
}

impl Model for TagText {
    ghost use Rattle.std.specs.Prelude.{ℕ, List};
    ghost use Rattle.std.specs.String.{string_bytes};

    ghost Value = { List ℕ };

    ghost view = { λ t. string_bytes t.text };
}

impl TagText {
    ghost use Rattle.std.specs.Prelude.{◌≡◌, IfOk};
    ghost use Rattle.std.specs.String.{string_bytes};

    pub fn new(text: String) -> TagText
        ensures { result ≡ string_bytes text }
    {
        TagText { text }
    }

    pub fn as_str(&self) -> &str
        ensures { result.now ≡ self.now }
    {
        self.text.as_str()
    }

    /// The text that it was made of.
    pub fn into_text(self) -> String
        ensures { string_bytes result ≡ self }
    {
        self.text
    }

    /// An equal text.
    pub fn carry(&self) -> Result<TagText, AllocError>
        ensures { IfOk result (λ text. text ≡ self.now) }
    {
        let text = self.text.clone()?;
        Ok(TagText { text })
    }
}
