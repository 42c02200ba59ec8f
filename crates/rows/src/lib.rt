// Section 2 of the scope: one row, its fields' bounds, and how rows feed each other.
// Rows and fields are counted from 0 here: index i is row number i + 1, index k is field number k + 1.
#![tactic(auto)]

ghost use Rattle.std.specs.Prelude.{◌≡◌, ℕ, ◌+◌, ◌-◌, ◌*◌, ◌<◌, ◌≤◌, length, Bool, true, false};
ghost use Rattle.layout.specs.Counts.{field_count};
ghost use Rattle.layout.specs.Fields.{at_primary, bounds_to};
ghost use Rattle.fold.specs.First.{first};
ghost use Rattle.layout.specs.List.{field, rows, bounds_at};
ghost use Rattle.rows.specs.InRange.{FieldInRange};
ghost use Rattle.rows.specs.Tests.{rating_right, field_right, field_wrong, high_right, order_fault, row_fault, feeds_right, fed_wrongly};
ghost use Rattle.rows.specs.Tests.{size_test, tree_test, fields_test, rows_test};

use answers::Refusal;
use layout::{
    AT_FEEDER, AT_HIGH, AT_KIND, AT_LOW, AT_PRIMARY, AT_SECONDARY, COLUMNS, FIELDS, LIST, field_at,
    field_bounds, in_bounds,
};
use sides::{PRIMARY_MOST, Ratio, SECONDARY_MOST, Secondary};

// A rated secondary beside the rated primary.
fn rating_right(q: Ratio) -> bool
    ensures { result ≡ rating_right q.primary q.secondary }
{
    if q.primary == 0 {
        return q.secondary == 0;
    }
    q.secondary == 1 || q.secondary == 5
}

// Half of the fields: a loop over so many is compiled without a branch back, with the bounds as constants; one over all is not.
const HALF: usize = FIELDS / 2;

// A row of a list, with the table of bounds that its fields are held to. The table goes by reference: made for each row, it would be made anew.
#[derive(Clone, Copy)]
struct ListRow<'a> {
    list: &'a [u64],
    table: &'a [u64],
    i: usize,
    ghost in_list: { i * field_count + field_count ≤ length list.now },
    ghost own_table: { table.now ≡ bounds_at list.now i },
}

impl ListRow<'_> {
    // Whether a field is right by itself.
    fn field_right(self, k: usize) -> bool
        requires { k < field_count }
        ensures { result ≡ field_right self.entry.list.now self.entry.i k }
    {
        let x = field_at(self.list, self.i, k);
        if !in_bounds(self.table, k, x) {
            return false;
        }
        if k == 0 {
            return x == (self.i as u64) + 1;
        }
        if k == AT_SECONDARY {
            let primary = field_at(self.list, self.i, AT_PRIMARY);
            return rating_right(Ratio {
                primary,
                secondary: x,
            });
        }
        true
    }

    // The first field from one on, and below another, that is not right by itself.
    fn first_wrong(self, from: usize, to: usize) -> Option<usize>
        requires { (from ≤ to) × (to ≤ field_count) }
        ensures { result ≡ first (field_wrong self.entry.list.now self.entry.i) from (to - from) }
    {
        for k in from..to {
            if !self.field_right(k) {
                return Some(k);
            }
        }
        None
    }

    // The field at fault, from 1, of a row whose fields are each right by themselves. Only a row with a ratio can have high above its most.
    fn order_fault<const RATED: bool>(self) -> Option<u64>
        requires in_range { (k : ℕ) → k < field_count → FieldInRange self.list.now self.i k }
        requires unrated { RATED ≡ false → field self.list.now self.i at_primary ≡ 0 }
        ensures { result ≡ order_fault self.entry.list.now self.entry.i }
    {
        let low = field_at(self.list, self.i, AT_LOW);
        let high = field_at(self.list, self.i, AT_HIGH);
        if high < low {
            return Some((AT_LOW as u64) + 1);
        }
        if !RATED {
            return None;
        }
        let primary = field_at(self.list, self.i, AT_PRIMARY);
        let secondary = field_at(self.list, self.i, AT_SECONDARY);
        let q = Ratio { primary, secondary };
        if high_right(q, Secondary(high)) {
            None
        } else {
            Some((AT_HIGH as u64) + 1)
        }
    }

    // The first field at fault, from 1, of a row with a ratio or of one without. Two functions are compiled of it: most rows have no ratio.
    fn fault<const RATED: bool>(self) -> Option<u64>
        requires { RATED ≡ false → field self.list.now self.i at_primary ≡ 0 }
        ensures { result ≡ row_fault self.entry.list.now self.entry.i }
    {
        if let Some(k) = self.first_wrong(0, HALF) {
            return Some((k as u64) + 1);
        }
        if let Some(k) = self.first_wrong(HALF, FIELDS) {
            return Some((k as u64) + 1);
        }
        self.order_fault::<RATED>()
    }
}

// High is at most 100,000,000 mA primary; multiplied out, and true with 0 in both ratings.
fn high_right(q: Ratio, high: Secondary) -> bool
    requires { (high.0 ≤ 100000000) × (q.primary ≤ 20000) × (q.secondary ≤ 5) }
    ensures { result ≡ high_right high.0 q.primary q.secondary }
{
    high.0 * q.primary <= PRIMARY_MOST * q.secondary
}

// The first field at fault, from 1, by the table of a row without a ratio or that of a row with one.
fn row_fault(list: &[u64], unrated: &[u64], rated: &[u64], i: usize) -> Option<u64>
    requires { (i * field_count + field_count ≤ length list.now) × (unrated.now ≡ bounds_to 100000000) × (rated.now ≡ bounds_to 500000) }
    ensures { result ≡ row_fault list.now i }
{
    if field_at(list, i, AT_PRIMARY) == 0 {
        return ListRow {
            list,
            table: unrated,
            i,
        }
        .fault::<false>();
    }
    ListRow {
        list,
        table: rated,
        i,
    }
    .fault::<true>()
}

// 4 FIELD over all rows ascending.
fn test_fields(list: &[u64]) -> Result<(), Refusal>
    ensures { result ≡ fields_test list.now }
{
    let n = list.len() / FIELDS;
    let unrated = field_bounds(PRIMARY_MOST);
    let rated = field_bounds(SECONDARY_MOST);
    for i in 0..n {
        if let Some(field) = row_fault(list, &unrated, &rated, i) {
            return Err(Refusal::Field((i as u64) + 1, field));
        }
    }
    Ok(())
}

// A row but the last is fed by a row with a greater number that is no motor; the last by the source.
fn feeds_right(list: &[u64], i: usize) -> bool
    requires { i < rows list.now }
    ensures { result ≡ feeds_right list.now i }
{
    let n = list.len() / FIELDS;
    let feeder = field_at(list, i, AT_FEEDER);
    if i + 1 == n {
        return feeder == 0;
    }
    if feeder <= (i as u64) + 1 {
        return false;
    }
    if (n as u64) < feeder {
        return false;
    }
    field_at(list, (feeder - 1) as usize, AT_KIND) != 3
}

// 5 TREE over all rows ascending.
fn test_tree(list: &[u64]) -> Result<(), Refusal>
    ensures { result ≡ tree_test list.now }
{
    let n = list.len() / FIELDS;
    for i in 0..n {
        if !feeds_right(list, i) {
            return Err(Refusal::Tree((i as u64) + 1));
        }
    }
    Ok(())
}

// 4 FIELD over all rows ascending, then 5.
pub fn test_rows(list: &[u64]) -> Result<(), Refusal>
    ensures { result ≡ rows_test list.now }
{
    test_fields(list)?;
    test_tree(list)
}

// 2 COUNT, then 3 ROOM, for a list and a card of so many numbers.
pub fn test_size(len: usize, room: usize) -> Result<(), Refusal>
    ensures { result ≡ size_test len room }
{
    if len % FIELDS != 0 {
        return Err(Refusal::Count);
    }
    if len < FIELDS {
        return Err(Refusal::Count);
    }
    if LIST < len {
        return Err(Refusal::Count);
    }
    if room < COLUMNS * (len / FIELDS) {
        Err(Refusal::Room)
    } else {
        Ok(())
    }
}
