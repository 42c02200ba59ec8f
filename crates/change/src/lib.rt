// The replacement of one row of a lent list, on a lent card [01 §4], and how far it went [02 §8].
#![tactic(auto)]

mod edit;

ghost use Rattle.path.specs.Ready.{ReworkReady, Reworked};
ghost use Rattle.path.specs.Reach.{reach};
ghost use Rattle.std.specs.Prelude.{◌≡◌};
ghost use Rattle.answers.specs.Answer.{given_by};
ghost use Rattle.change.specs.Ready.{ExchangeReady, exchanged, answer_of, count_of, Exchanged, Gave};
ghost use Rattle.change.specs.Replace.{reworked, replaced};

use answers::{NUMBERS, Refusal, numbers};
use edit::{put_list, test_edit};
use layout::FIELDS;
use path::{test_card, work_path};
use rows::{test_rows, test_size};

// What a replacement gives back: section 4's numbers, and how many rows were worked out, 0 on a refusal. Numbers, as they go across C.
#[derive(Clone, Copy)]
pub struct Replacement {
    pub numbers: [u64; NUMBERS],
    pub rows: u64,
}

impl From<Result<u64, Refusal>> for Replacement {
    ghost from_gives = { λ far given. (given.numbers ≡ given_by (answer_of far)) × (given.rows ≡ count_of far) };

    #[tactic(auto, unfolding(crate::specs::Ready::answer_of, crate::specs::Ready::count_of))]
    fn from(far: Result<u64, Refusal>) -> Replacement {
        match far {
            Ok(n) => Replacement {
                numbers: numbers(Ok(())),
                rows: n,
            },
            Err(a) => Replacement {
                numbers: numbers(Err(a)),
                rows: 0,
            },
        }
    }
}

// Row i of the list is new: 4, 5, 9, then 11, 12 or 13 before 14 and 14 before 7 along the rows worked out.
fn rework(list: &[u64], i: usize, card: &mut [u64]) -> Result<u64, Refusal>
    requires { ReworkReady list.now i card.old }
    ensures { Reworked (reach list.now i card.old) (reworked list.now i card.old)
        card.old result card.new }
{
    test_rows(list)?;
    test_card(list, i, card)?;
    work_path(list, i, card)
}

// Puts the new row in and works out the rows that it reaches; on a refusal the old row goes back.
fn exchange(list: &mut [u64], card: &mut [u64], i: usize, row: &[u64]) -> Result<u64, Refusal>
    requires { ExchangeReady list.old i card.old row.now }
    ensures { Exchanged (exchanged list.old card.old i row.now) result list.new card.new }
{
    let mut old = [0u64; FIELDS];
    let at = i * FIELDS;
    put_list(&mut old, 0, &list[at..at + FIELDS]);
    put_list(list, i, row);
    let far = rework(list, i, card);
    if far.is_err() {
        put_list(list, i, &old);
    }
    far
}

fn answer(list: &mut [u64], card: &mut [u64], place: u64, row: &[u64]) -> Result<u64, Refusal>
    ensures { Exchanged (replaced list.old card.old place row.now) result list.new card.new }
{
    test_size(list.len(), card.len())?;
    test_edit(list, place, row)?;
    exchange(list, card, (place - 1) as usize, row)
}

// The public entry: replaces the row at `place` and works out its path on the card, up to the first feeding row that comes out as it
// was; or refuses, by section 4's numbers.
pub fn replace(list: &mut [u64], card: &mut [u64], place: u64, row: &[u64]) -> Replacement
    ensures { Gave (replaced list.old card.old place row.now) result.numbers result.rows
        list.new card.new }
{
    answer(list, card, place, row).into()
}
