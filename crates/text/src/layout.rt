// The columns of a layout.
ghost use Rattle.std.specs.Prelude.{◌≡◌, length, get_or};
ghost use Rattle.cursor.specs.declared.Column.TheVariants.{Numbers};
ghost use Rattle.text.specs.Line.{columns_of, number_count, Usable};

use super::Columns;
use cursor::Column;

impl Columns {
    // How many numbers a line holds.
    pub(crate) fn numbers(self) -> usize
        requires { Usable self }
        ensures { result ≡ number_count self }
    {
        self.before + self.after
    }

    // How many columns a line has.
    pub(crate) fn count(self) -> usize
        requires { Usable self }
        ensures { result ≡ length (columns_of self) }
    {
        if self.named {
            return self.before + 1 + self.after;
        }
        self.before + self.after
    }

    // What column k holds.
    pub(crate) fn kind(self, k: usize) -> Column
        ensures { result ≡ get_or (columns_of self) k Numbers }
    {
        if !self.named {
            return Column::Numbers;
        }
        if k == self.before {
            Column::Names
        } else {
            Column::Numbers
        }
    }
}
