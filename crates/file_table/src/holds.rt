ghost use Rattle.std.specs.Prelude.{◌≡◌, ◌+◌, ◌-◌};

use crate::count::{lower_condemned, lower_row, raise_condemned, raise_row};
use crate::{FileTable, Hold};

impl FileTable {
    ghost use Rattle.file_table.specs.Table.{IsTable, CanBeHeld};
    ghost use Rattle.file_table.specs.Calls.{with_holds};

    /// Has a file in use once more, named or condemned. The hold must be given back.
    pub fn hold(&mut self, no: u32) -> Hold
        requires { CanBeHeld no self.old }
        ensures hold { result ≡ no }
        ensures counted { self.new ≡ with_holds (λ holds. holds + 1) no self.old }
        ensures table { IsTable self.new }
    {
        raise_row(&mut self.rows, no);
        raise_condemned(&mut self.condemned, no);
        Hold { no }
    }

    /// Gives a hold back.
    pub fn unhold(&mut self, hold: Hold)
        ensures counted { self.new ≡ with_holds (λ holds. holds - 1) hold self.old }
        ensures table { IsTable self.new }
    {
        let Hold { no } = hold;
        lower_row(&mut self.rows, no);
        lower_condemned(&mut self.condemned, no);
    }
}
