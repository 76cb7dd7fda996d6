use std::alloc::{AllocError, Global};

/// The most bytes that a line of a session may have.
const MOST_BYTES: usize = 65536;

/// What lines of 65,536 bytes are like.
#[derive(Clone, Copy)]
pub enum Long {
    /// A head of 32,000 bytes, and fields with other names.
    Head,
    /// The shortest field again and again.
    Fields,
    /// Each field another name of at most four bytes.
    Names,
}

impl Long {
    /// The one of this name.
    pub fn named(name: &str) -> Option<Long> {
        match name {
            "head" => Some(Long::Head),
            "fields" => Some(Long::Fields),
            "names" => Some(Long::Names),
            _ => None,
        }
    }

    /// A text of lines, each of another series.
    pub fn text(self, alloc: Global, lines: u32) -> Result<String, AllocError> {
        let mut text = String::new(alloc);
        for k in 0..lines {
            let line = self.line(alloc, k)?;
            text.push_str(line.as_str())?;
            text.push_str("\n")?;
        }
        Ok(text)
    }

    fn line(self, alloc: Global, k: u32) -> Result<String, AllocError> {
        let mut line = self.head(alloc, k)?;
        let mut mark = " ";
        for field in 0..20000u32 {
            let text = self.field(alloc, field)?;
            if line.len().saturating_add(text.len()) >= MOST_BYTES {
                break;
            }
            line.push_str(mark)?;
            line.push_str(text.as_str())?;
            mark = ",";
        }
        Ok(line)
    }

    fn head(self, alloc: Global, k: u32) -> Result<String, AllocError> {
        match self {
            Long::Head => format!(in alloc; "m{k},host={:0>32000}", k),
            _ => format!(in alloc; "m{k}"),
        }
    }

    fn field(self, alloc: Global, k: u32) -> Result<String, AllocError> {
        match self {
            Long::Head => format!(in alloc; "f{k:04}=1i"),
            Long::Fields => String::from_str(alloc, "a=t"),
            Long::Names => format!(in alloc; "{k:x}=t"),
        }
    }
}
