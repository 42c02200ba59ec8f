// The row that a replacement puts in: 10 EDIT, and the list with the row written [01 §4].
ghost use Rattle.std.specs.Prelude.{◌≡◌};
ghost use Rattle.change.specs.Edit.{put_list, edit_test, PutReady};

use answers::Refusal;
use blocks::put;
use layout::{AT_FEEDER, FIELDS, field_at};

// Writes a row in the place of row i.
pub(crate) fn put_list(list: &mut [u64], i: usize, row: &[u64])
    requires { PutReady list.old i row.now }
    ensures { list.new ≡ put_list list.old i row.now }
{
    put(list, i * FIELDS, row);
}

// 10 EDIT.
pub(crate) fn test_edit(list: &[u64], place: u64, row: &[u64]) -> Result<(), Refusal>
    ensures { result ≡ edit_test list.now place row.now }
{
    let n = list.len() / FIELDS;
    if place < 1 {
        return Err(Refusal::Edit);
    }
    if (n as u64) < place {
        return Err(Refusal::Edit);
    }
    if row.len() != FIELDS {
        return Err(Refusal::Edit);
    }
    if row[0] != place {
        return Err(Refusal::Edit);
    }
    if row[AT_FEEDER] != field_at(list, (place - 1) as usize, AT_FEEDER) {
        return Err(Refusal::Edit);
    }
    Ok(())
}
