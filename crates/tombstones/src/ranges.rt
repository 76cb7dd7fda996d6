ghost use Rattle.std.specs.Prelude.{◌≡◌, ◌≢◌, ◌≤ℤ◌, [], ◌∷◌, OnOk, OnErr, IfOk};
ghost use Rattle.tombstones.specs.Ranges.{CoversAlso, AreApart};

use crate::TombRange;
use crate::joined::join;
use std::alloc::{AllocError, Global};
use std::marker::Model;

/// The deleted ranges of one key, at least one: none is empty, they ascend, and no two of them could be one.
#[derive(Debug, Drop)]
pub struct Ranges {
    list: Vec<TombRange>,
}

impl Model for Ranges {
    ghost use Rattle.std.specs.Prelude.{List};
    ghost use Rattle.tombstones.specs.declared.range.TombRange.{TombRange};
    ghost use Rattle.tombstones.specs.Ranges.{AreApart};

    ghost Value = { List TombRange };

    ghost view = { λ r. r.list.items };

    ghost invariant = { λ r. AreApart r.list.items };
}

impl Ranges {
    pub fn of(alloc: Global, range: TombRange) -> Result<Ranges, AllocError>
        requires { range.from ≤ℤ range.to }
        ensures { IfOk result (λ ranges. ranges ≡ range ∷ []) }
    {
        let mut list = Vec::new(alloc);
        list.push(range)?;
        Ok(Ranges { list })
    }

    /// Covers one more range, which becomes one with all that it touches.
    pub fn add(&mut self, range: TombRange) -> Result<(), AllocError>
        requires { range.from ≤ℤ range.to }
        ensures ok { OnOk result (CoversAlso self.old range self.new) }
        ensures some { OnOk result (self.new ≢ []) }
        ensures err { OnErr result (self.new ≡ self.old) }
    {
        join(&mut self.list, range)
    }

    pub fn as_slice(&self) -> &[TombRange]
        ensures all { result.now ≡ self.now }
        ensures apart { AreApart result.now }
    {
        &self.list
    }
}

impl Clone for Ranges {
    ghost is_clone = { λ ranges copy. copy ≡ ranges };

    fn clone(&self) -> Result<Ranges, AllocError> {
        Ok(Ranges {
            list: self.list.clone()?,
        })
    }
}
