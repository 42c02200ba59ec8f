// The whole calculation of a lent list, on a lent card [01 §4].
#![tactic(auto)]

ghost use Rattle.std.specs.Prelude.{◌≡◌, ◌++◌, ◌≤◌, length, take, drop};
ghost use Rattle.calculate.specs.Ready.{WorkTested, Answered, Gave};
ghost use Rattle.calculate.specs.Whole.{ending, calculation, worked_as, whole};

use answers::{NUMBERS, Refusal, numbers};
use blocks::put;
use feeding::{UNLINKED, link};
use layout::{CARD, COLUMNS, FIELDS, ROWS};
use rows::{test_rows, test_size};
use rowwise::work_rows;
use settle::NOTHING;

fn copy_front(to: &mut [u64], from: &[u64], n: usize)
    requires { (n ≤ length to.old) × (n ≤ length from.now) }
    ensures { to.new ≡ take n from.now ++ drop n to.old }
{
    put(to, 0, &from[..n]);
}

// A list that is tested, with room for its card. The rows are worked out on a card of its own, so that a refusal leaves the lent one as it was.
fn work_tested(list: &[u64], card: &mut [u64]) -> Result<(), Refusal>
    requires { WorkTested list.now card.old }
    ensures { Answered (ending card.old (calculation list.now card.old)) result card.new }
{
    let n = list.len() / FIELDS;
    let mut links = [UNLINKED; ROWS];
    link(list, &mut links);
    let mut out = [0u64; CARD];
    let mut sums = [NOTHING; ROWS];
    work_rows(list, &links, 0, n, &mut out, &mut sums)?;
    copy_front(card, &out, COLUMNS * n);
    Ok(())
}

fn answer(list: &[u64], card: &mut [u64]) -> Result<(), Refusal>
    ensures { Answered (whole list.now card.old) result card.new }
{
    test_size(list.len(), card.len())?;
    test_rows(list)?;
    work_tested(list, card)
}

// The public entry: the settings card of a list, or the refusal by its numbers: number, place and what names it more closely.
pub fn whole_calculation(list: &[u64], card: &mut [u64]) -> [u64; NUMBERS]
    ensures { Gave (whole list.now card.old) result card.new }
{
    numbers(answer(list, card))
}
