// A cursor's way past a cell [01 §6].
ghost use Rattle.std.specs.Prelude.{◌≡◌, drop};
ghost use Rattle.cursor.specs.Pieces.{cell_at, field_at};

use super::{Cell, Column, Cursor, Place};

impl Cursor {
    // The number or the name that comes next, with the cursor past it.
    pub(crate) fn cell(self, column: Column, s: &[u8]) -> Option<(Cell, Cursor)>
        ensures { result ≡ cell_at column self (drop self.at s.now) }
    {
        match column {
            Column::Numbers => self.number(s),
            Column::Names => {
                let past = self.name(s)?;
                let place = Place {
                    start: self.at,
                    size: past.at - self.at,
                };
                Some((Cell::Name(place), past))
            }
        }
    }

    // A cell of a line, and the comma before it unless it is the line's first, with the cursor past them.
    #[tactic(auto, using(crate::proofs::ByteLaws::left), unfolding(crate::specs::Pieces::field_at, crate::specs::Pieces::is_comma))]
    pub fn field(self, first: bool, column: Column, s: &[u8]) -> Option<(Cell, Cursor)>
        ensures { result ≡ field_at first column self (drop self.at s.now) }
    {
        if first {
            return self.cell(column, s);
        }
        let Some(b',') = s.get(self.at) else {
            return None;
        };
        self.ahead(1).cell(column, s)
    }
}
