// Rows worked out on a lent card, one after the other. What a row's fed rows ask of its pickup is kept in `sums`, and each row that is worked out
// adds its own for the row that feeds it. For its time the row goes through its fed rows once, by the list's links.
#![tactic(auto)]

ghost use Rattle.std.specs.Prelude.{◌≡◌, ◌+◌, ◌-◌, ◌<◌};
ghost use Rattle.feeding.specs.Fed.{Linked};
ghost use Rattle.rowwise.specs.Ready.{PushReady, WorkReady, RowsReady, Stepped};
ghost use Rattle.rowwise.specs.Sums.{joined, pushed, step, steps};

use answers::Refusal;
use feeding::{FeedingTree, Links};
use layout::{CardRow, Row, put_card_row, row_at};
use settle::{Fed, asks, settle};

fn join(a: Fed, b: Fed) -> Fed
    requires { a.load + b.load < 18446744073709551616 }
    ensures { result ≡ joined a b }
{
    Fed {
        load: a.load + b.load,
        excess: a.excess.max(b.excess),
        shortfall: a.shortfall.max(b.shortfall),
    }
}

// Adds what a row with these settings asks for the row that feeds it.
pub fn push(r: Row, k: CardRow, sums: &mut [Fed])
    requires { PushReady r k sums.old }
    ensures { sums.new ≡ pushed r k sums.old }
{
    if r.feeder == 0 {
        return;
    }
    let at = (r.feeder - 1) as usize;
    sums[at] = join(sums[at], asks(r, k));
}

// Works out one row: its settings go to the card, what it asks to the sums. A refusal changes neither.
fn work_row(tree: FeedingTree, i: usize, card: &mut [u64], sums: &mut [Fed]) -> Result<(), Refusal>
    requires { WorkReady tree.list.now i card.old sums.old }
    ensures { Stepped (step tree.entry.list.now i card.old sums.old) result card.new sums.new }
{
    let r = row_at(tree.list, i);
    match settle(tree, card, i, r, sums[i]) {
        Err(why) => Err(Refusal::Unsettled((i as u64) + 1, why)),
        Ok(o) => {
            let k = CardRow::from(o);
            put_card_row(card, i, k);
            push(r, k, sums);
            Ok(())
        }
    }
}

// Works out the rows from one on, and below another, up to the first that is refused. A climb, too, calls it for each of its rows: with
// one caller, what a row takes is compiled into this loop. List and links, and no tree: without a row it asks nothing of the links.
pub fn work_rows(
    list: &[u64],
    links: &[Links],
    from: usize,
    to: usize,
    card: &mut [u64],
    sums: &mut [Fed],
) -> Result<(), Refusal>
    requires ready { RowsReady list.now from (to - from) card.old sums.old }
    requires linked { from < to → Linked list.now links.now }
    ensures { Stepped (steps list.now from (to - from) card.old sums.old) result card.new sums.new }
{
    for i in from..to {
        work_row(FeedingTree { list, links }, i, card, sums)?;
    }
    Ok(())
}
