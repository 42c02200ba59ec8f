// A row's path worked out again on a lent card: the tests of the card's numbers, and the climb from the row towards the source [01 §4],
// up to the first feeding row that comes out as it was [02 §8].
#![tactic(auto)]

ghost use Rattle.std.specs.Prelude.{◌≡◌, not, ◌&&◌, ◌+◌, ◌*◌, ◌<◌, ◌≤◌, length};
ghost use Rattle.layout.specs.Counts.{column_count};
ghost use Rattle.layout.specs.Card.{card_row_at, same_card_row};
ghost use Rattle.layout.specs.List.{rows, row_at};
ghost use Rattle.rowwise.specs.Sums.{pushed};
ghost use Rattle.rowwise.specs.Working.{Working};
ghost use Rattle.path.specs.Path.{path_of, on_path, above_of};
ghost use Rattle.path.specs.Reach.{reach, reach_from};
ghost use Rattle.path.specs.CardTest.{within_table, card_right, card_test};
ghost use Rattle.path.specs.Ready.{RowReady, FoundReady, ClimbReady, RestReady, PathReady, WorkedOut};

use answers::Refusal;
use feeding::{FeedingTree, UNLINKED, link};
use layout::{
    AT_FEEDER, AT_PRIMARY, COLUMNS, CardRow, FIELDS, ROWS, card_row_at, column_at, column_bounds,
    field_at, in_bounds, put_card_row, row_at, same_card_row,
};
use rowwise::{push, work_rows};
use settle::{Fed, NOTHING};
use sides::{PRIMARY_MOST, SECONDARY_MOST};

// The table goes by reference, as that of the fields does.
fn within_table(card: &[u64], table: &[u64], j: usize) -> bool
    requires { (j * column_count + column_count ≤ length card.now) × (length table.now ≡ 2 * column_count) }
    ensures { result ≡ within_table table.now card.now j }
{
    for k in 0..COLUMNS {
        if !in_bounds(table, k, column_at(card, j, k)) {
            return false;
        }
    }
    true
}

// Card row j is in range, row i being the replaced one, which is held to the table of a row without a ratio.
fn card_right(
    list: &[u64],
    i: usize,
    card: &[u64],
    unrated: &[u64],
    rated: &[u64],
    j: usize,
) -> bool
    requires { RowReady list.now card.now unrated.now rated.now j }
    ensures { result ≡ card_right list.now i card.now j }
{
    if j == i {
        return within_table(card, unrated, j);
    }
    if field_at(list, j, AT_PRIMARY) == 0 {
        return within_table(card, unrated, j);
    }
    within_table(card, rated, j)
}

// 9 CARD over all rows ascending, every column of each [02 §1, §3], row i being the replaced one.
pub fn test_card(list: &[u64], i: usize, card: &[u64]) -> Result<(), Refusal>
    requires { rows list.now * column_count ≤ length card.now }
    ensures { result ≡ card_test list.now i card.now }
{
    let n = list.len() / FIELDS;
    let unrated = column_bounds(PRIMARY_MOST);
    let rated = column_bounds(SECONDARY_MOST);
    for j in 0..n {
        if !card_right(list, i, card, &unrated, &rated, j) {
            return Err(Refusal::Card((j as u64) + 1));
        }
    }
    Ok(())
}

// The row that feeds row j, if one does.
fn above(list: &[u64], j: usize) -> Option<usize>
    requires { j < rows list.now }
    ensures { result ≡ above_of list.now j }
{
    let number = field_at(list, j, AT_FEEDER);
    if number == 0 {
        None
    } else {
        Some((number - 1) as usize)
    }
}

// Adds what row j asks with the numbers found on the card.
fn push_found(list: &[u64], j: usize, card: &[u64], sums: &mut [Fed])
    requires { FoundReady list.now j card.now sums.old }
    ensures { sums.new ≡ pushed (row_at list.now j) (card_row_at card.now j) sums.old }
{
    let k = card_row_at(card, j);
    push(row_at(list, j), k, sums);
}

// Adds what every row off the path of row i asks. The rows of a path ascend: `next` is the next of them.
fn push_rest(list: &[u64], i: usize, card: &[u64], sums: &mut [Fed])
    requires { RestReady list.now i card.now sums.old }
    ensures { Working list.now (λ j. not (on_path list.now i j)) (on_path list.now i)
        card.now sums.new }
{
    let mut next = Some(i);
    for j in 0..list.len() / FIELDS {
        if next == Some(j) {
            next = above(list, j);
        } else {
            push_found(list, j, card, sums);
        }
    }
}

// A feeding row that stands on the card as it was: it stops the climb.
fn stays(card: &[u64], i: usize, old: CardRow, feeding: bool) -> bool
    requires { i * column_count + column_count ≤ length card.now }
    ensures { result ≡ (feeding && same_card_row old (card_row_at card.now i)) }
{
    feeding && same_card_row(old, card_row_at(card, i))
}

// Works out row i and then, unless it is a feeding row that comes out as it was, the path of the row that feeds it. A refusal above
// puts the row's old numbers back.
fn climb(
    tree: &FeedingTree,
    i: usize,
    card: &mut [u64],
    sums: &mut [Fed],
    feeding: bool,
) -> Result<u64, Refusal>
    requires { ClimbReady tree.now.list.now i card.old sums.old }
    ensures { WorkedOut tree.now.list.now (reach_from tree.now.list.now feeding (path_of tree.now.list.now i) card.old)
        card.old result card.new }
{
    let old = card_row_at(card, i);
    work_rows(tree.list, tree.links, i, i + 1, card, sums)?;
    if stays(card, i, old, feeding) {
        return Ok(1); // the stop counts
    }
    let feeder = field_at(tree.list, i, AT_FEEDER);
    if feeder == 0 {
        return Ok(1);
    }
    match climb(tree, (feeder - 1) as usize, card, sums, true) {
        Err(a) => {
            put_card_row(card, i, old);
            Err(a)
        }
        Ok(n) => Ok(n + 1),
    }
}

// How many rows were worked out, or the refusal: row by row 11, 12 or 13, then 14, then 7 along the path of row i, the replaced one, which
// never stops the climb. The fed rows are linked once.
pub fn work_path(list: &[u64], i: usize, card: &mut [u64]) -> Result<u64, Refusal>
    requires { PathReady list.now i card.old }
    ensures { WorkedOut list.now (reach list.now i card.old) card.old result card.new }
{
    let mut links = [UNLINKED; ROWS];
    link(list, &mut links);
    let tree = FeedingTree {
        list,
        links: &links,
    };
    let mut sums = [NOTHING; ROWS];
    push_rest(list, i, card, &mut sums);
    climb(&tree, i, card, &mut sums, false)
}
