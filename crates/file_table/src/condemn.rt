ghost use Rattle.std.specs.Prelude.{◌≡◌, ◌+◌, ◌<◌, ◌≤◌, [], ◌∷◌, length, slice_get, Some, Contains};
ghost use Rattle.std.specs.Option.{ForSome};

use crate::order::{condemn_rows, push_within, put_condemned, take_out};
use crate::parts::{count_of, free_in, give_way, nth_free, part};
use crate::{Condemned, FileRow, FileTable};

impl FileTable {
    ghost use Rattle.file_table.specs.Table.{IsTable, AreNew, free_files};
    ghost use Rattle.file_table.specs.Calls.{MayReplace, Replaces, Condemns, Forgets};

    /// Puts one row or none in the place of others, whose files are condemned with the holds that they have.
    pub fn replace(&mut self, first: usize, count: usize, new: Option<FileRow>)
        requires within { first + count ≤ length self.old.rows }
        requires new { ForSome new (MayReplace first count self.old) }
        ensures replaced { Replaces first count new self.old self.new }
        ensures table { IsTable self.new }
    {
        condemn_rows(&mut self.condemned, part(&self.rows, first, count));
        give_way(&mut self.rows, first, count, new);
        self.row_room -= count_of(new);
    }

    /// Condemns a file that is no row's.
    pub fn condemn(&mut self, no: u32)
        requires room { 0 < self.old.file_room }
        requires new { AreNew (no ∷ []) self.old }
        ensures condemned { Condemns no self.old self.new }
        ensures table { IsTable self.new }
    {
        put_condemned(&mut self.condemned, Condemned { no, holds: 0 });
        self.file_room -= 1;
    }

    /// How many condemned files nobody has in use.
    pub fn free_count(&self) -> usize
        ensures { result ≡ length (free_files self.now) }
    {
        free_in(&self.condemned)
    }

    /// The condemned file at a place among those that nobody has in use, the lowest number at 0.
    pub fn free_at(&self, k: usize) -> u32
        requires { k < length (free_files self.now) }
        ensures { slice_get (free_files self.now) k ≡ Some result }
    {
        nth_free(&self.condemned, k)
    }

    /// Takes a file that was removed off the condemned ones. Its number stands last in `gone`.
    pub fn forget(&mut self, no: u32)
        requires { Contains (free_files self.old) no }
        ensures forgotten { Forgets no self.old self.new }
        ensures table { IsTable self.new }
    {
        take_out(&mut self.condemned, no);
        push_within(&mut self.gone, no);
    }

    /// The files that were forgotten since the last `clear_gone`, in order.
    pub fn gone(&self) -> &[u32]
        ensures { result.now ≡ self.now.gone }
    {
        &self.gone
    }

    /// Empties `gone`. Its room stays.
    pub fn clear_gone(&mut self)
        ensures cleared { self.new ≡ record self.old { gone = [] } }
        ensures table { IsTable self.new }
    {
        self.gone.clear();
    }
}
