// Keeping what was read in lent buffers.
ghost use Rattle.std.specs.Prelude.{◌≡◌, ◌/◌, length};
ghost use Rattle.text.specs.Line.{number_count, Usable};
ghost use Rattle.text.specs.Text.{kept_in, kept_front, kept_name};

use super::{Columns, LineRead};
use blocks::put;
use cursor::Place;

// Keeps block n where there is room for it.
fn keep<T: Copy>(out: &mut [T], n: usize, block: &[T])
    ensures { out.new ≡ kept_in (length out.old / length block.now) n block.now out.old }
{
    let w = block.len();
    if w == 0 {
        return;
    }
    if n < out.len() / w {
        put(out, n * w, block);
    }
}

// Keeps row n: its numbers, and its name's place if it has a name.
pub(crate) fn keep_row(
    numbers: &mut [u64],
    names: &mut [Place],
    columns: Columns,
    n: usize,
    row: LineRead,
)
    requires { Usable columns }
    ensures numbers_after { numbers.new ≡ kept_front (number_count columns) n row.numbers numbers.old }
    ensures names_after { names.new ≡ kept_name n row.name names.old }
{
    let all = row.numbers;
    keep(numbers, n, &all[..columns.numbers()]);
    if let Some(place) = row.name {
        keep(names, n, &[place]);
    }
}
