// The measurement at the head of a series.
ghost use Rattle.std.specs.Prelude.{◌≡◌, [], OnOk, IfOk, nat_eq, Some, refl};
ghost use Rattle.std.specs.Ordering.{nat_cmp};
ghost use Rattle.std.specs.Cmp.Lexicographic.{pointwise, slice_cmp, nat_list_eq_equiv, nat_list_cmp_total, texts_ties, texts_po};
ghost use Rattle.std.specs.Cmp.{partial_equiv_from_equiv};
ghost use Rattle.point_model.specs.Measurements.{measurement_head};

use std::alloc::{AllocError, Global};
use std::cmp::Ordering;
use std::marker::Model;
use tsdb_types::SeriesKey;

/// A measurement as the text of its series begins with it. A contract sees its bytes.
#[derive(Debug, Drop)]
pub struct Heading {
    text: Vec<u8>,
}

impl Model for Heading {
    ghost use Rattle.std.specs.Prelude.{ℕ, List};

    ghost Value = { List ℕ };

    ghost view = { λ h. h.text.items };
}

impl Heading {
    /// Of no series yet.
    pub fn new(alloc: Global) -> Heading
        ensures { result ≡ [] }
    {
        Heading {
            text: Vec::new(alloc),
        }
    }

    /// Takes the measurement of a series in the place of the one that was read before.
    pub fn read(&mut self, series: &SeriesKey) -> Result<(), AllocError>
        ensures { OnOk result (self.new ≡ measurement_head series.now) }
    {
        self.text.clear();
        self.text
            .extend_from_slice(head_of(series.text().as_bytes()))?;
        Ok(())
    }

    /// An equal heading.
    pub fn carry(&self) -> Result<Heading, AllocError>
        ensures { IfOk result (λ heading. heading ≡ self.now) }
    {
        let text = self.text.clone()?;
        Ok(Heading { text })
    }

    /// Its bytes.
    pub fn as_bytes(&self) -> &[u8]
        ensures { result.now ≡ self.now }
    {
        self.text.as_slice()
    }
}

fn head_of(text: &[u8]) -> &[u8]
    ensures { result.now ≡ measurement_head text.now }
{
    let mut escaped = false;
    for at in 0..text.len() {
        if text[at] == b',' && !escaped {
            let (head, _) = text.split_at(at);
            return head;
        }
        escaped = text[at] == b'\\';
    }
    text
}

impl PartialEq for Heading {
    ghost eq = { pointwise nat_eq };

    ghost laws = { partial_equiv_from_equiv nat_list_eq_equiv };

    fn eq(&self, other: &Heading) -> bool {
        self.as_bytes() == other.as_bytes()
    }
}

impl Eq for Heading {
    ghost laws = { nat_list_eq_equiv };
}

impl PartialOrd for Heading {
    ghost partial_cmp = { λ x y. Some (slice_cmp nat_cmp x y) };

    ghost laws = { texts_po };

    fn partial_cmp(&self, other: &Heading) -> Option<Ordering> {
        Some(self.cmp(other))
    }
}

impl Ord for Heading {
    ghost cmp = { slice_cmp nat_cmp };

    ghost total = { nat_list_cmp_total };

    ghost matches_partial_cmp = { λ x y. refl };

    ghost matches_eq = { texts_ties };

    fn cmp(&self, other: &Heading) -> Ordering {
        self.as_bytes().cmp(other.as_bytes())
    }
}
