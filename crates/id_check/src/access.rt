//! What a checked program says of a row.

ghost use Rattle.std.specs.Prelude.{◌≡◌};
ghost use Rattle.id_check.specs.Programs as programs;

use crate::checked::Checked;
use crate::rows::wide;
use id_table::Row;
use id_tree::Kind;

impl Checked {
    /// The rows of the program. Takes no memory.
    pub fn rows(&self) -> &[Row]
        ensures { result.now ≡ programs.rows self.now }
    {
        self.table.rows.as_slice()
    }

    /// The row of the binder of the name at the row, if a name stands there. Takes no memory.
    pub fn binder(&self, i: usize) -> Option<usize>
        ensures { result ≡ programs.binder self.now i }
    {
        if i < self.binders.len() {
            wide(self.binders[i])
        } else {
            None
        }
    }

    /// The kind of the row, if it has one. Takes no memory.
    pub fn kind(&self, i: usize) -> Option<Kind>
        ensures { result ≡ programs.kind self.now i }
    {
        if i < self.kinds.len() {
            self.kinds[i]
        } else {
            None
        }
    }

    /// How many loops of its procedure the row is in. Takes no memory.
    pub fn depth(&self, i: usize) -> usize
        ensures { result ≡ programs.depth self.now i }
    {
        if i < self.depths.len() {
            self.depths[i] as usize
        } else {
            0
        }
    }
}
