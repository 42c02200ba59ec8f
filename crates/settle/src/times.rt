// The second stage of settling a row [02 §3]: at its pickup, the least delay or multiplier that meets D1 and D2.
ghost use Rattle.std.specs.Prelude.{◌≡◌, false, ◌&&◌, ◌≤◌, ◌<◌, leb, eqb};
ghost use Rattle.curve.specs.Curve.{stalls, time_of};
ghost use Rattle.layout.specs.Card.{card_row_at};
ghost use Rattle.layout.specs.List.{rows};
ghost use Rattle.layout.specs.Range.{Bounded};
ghost use Rattle.layout.specs.View.{view_of};
ghost use Rattle.settle.specs.Conditions.{setting_of, margin, margin_between, within_delays};
ghost use Rattle.settle.specs.Fed.{PrimaryBounded, CardBounded};
ghost use Rattle.settle.specs.Ready.{Listed, FedReady, AskReady};
ghost use Rattle.settle.specs.Settle.{stalled, meets_time, tried_from, tried_to, least_setting};
ghost use Rattle.settle.specs.Times.{needed_multiple, fed_time_of, timed_by, WantedIs, WalkIs};

use super::Stalled;
use answers::Reason;
use curve::{least_setting, multiple, setting_from, setting_to, stalls, time_of};
use feeding::FeedingTree;
use grid::least_on;
use layout::{AT_DEVICE, CardRow, Row, card_row_at, field_at, row_at};
use sides::{Primary, in_primary};

// The grading margin that a row's device asks.
fn margin_of(device: u64) -> u64
    ensures { result ≡ margin device }
{
    if device == 1 {
        return 300;
    }
    if device == 2 { 500 } else { 200 }
}

// The grading margin between two rows by their devices: the larger of the two [02 §5].
fn margin_between(d: u64, e: u64) -> u64
    ensures { result ≡ margin_between d e }
{
    margin_of(d).max(margin_of(e))
}

// M of a row with this law at the greatest current of row f's near end; a definite row needs none, and gets 0.
fn needed_multiple(law: u64, r: Row, f: Row, pickup: Primary) -> u64
    requires { Bounded r × Bounded f × PrimaryBounded pickup }
    ensures { result ≡ needed_multiple law r f pickup }
{
    if law == 0 {
        return 0;
    }
    multiple(f.greatest.0 * f.volts, pickup.0 * r.volts)
}

// What a card row sets.
fn setting_of(s: CardRow) -> u64
    ensures { result ≡ setting_of s }
{
    if s.law == 0 { s.delay } else { s.multiplier }
}

// A fed row's time at its own near end, by its card row; none where its M is at most 1.000.
fn fed_time(f: Row, s: CardRow) -> Option<u64>
    requires { Bounded f × CardBounded f s }
    ensures { result ≡ fed_time_of f s }
{
    let m = needed_multiple(s.law, f, f, in_primary(f.ratio, s.pickup));
    if stalls(s.law, m) {
        return None;
    }
    Some(time_of(s.law, m, setting_of(s)))
}

// What fed row j asks of the setting of row i, whose fields are r, at its pickup, where either is a curve row: it is from so much on, or an
// M there is at most 1.000.
fn ask_curve(
    list: &[u64],
    card: &[u64],
    i: usize,
    r: Row,
    pickup: Primary,
    j: usize,
) -> Result<u64, Stalled>
    requires { AskReady list.now card.now i r pickup j }
    ensures { WantedIs (view_of list.now) (card_row_at card.now) i r pickup j result }
{
    let f = row_at(list, j);
    let Some(t) = fed_time(f, card_row_at(card, j)) else {
        return Err(Stalled((j as u64) + 1));
    };
    let m = needed_multiple(r.law, r, f, pickup);
    if stalls(r.law, m) {
        return Err(Stalled((i as u64) + 1));
    }
    Ok(least_setting(r.law, m, t + margin_between(r.device, f.device)))
}

// Neither row is a curve row.
fn both_definite(a: u64, b: u64) -> bool
    ensures { result ≡ (eqb a 0 && eqb b 0) }
{
    if a == 0 { b == 0 } else { false }
}

// The same for any two rows. Between definite ones no M is needed: most lists have no others, and there little is read.
fn ask(
    list: &[u64],
    card: &[u64],
    i: usize,
    r: Row,
    pickup: Primary,
    j: usize,
) -> Result<u64, Stalled>
    requires { AskReady list.now card.now i r pickup j }
    ensures { WantedIs (view_of list.now) (card_row_at card.now) i r pickup j result }
{
    let s = card_row_at(card, j);
    if both_definite(r.law, s.law) {
        return Ok(s.delay + margin_between(r.device, field_at(list, j, AT_DEVICE)));
    }
    ask_curve(list, card, i, r, pickup, j)
}

// What all the rows that row i feeds ask, gone through in ascending order.
fn walk(tree: FeedingTree, card: &[u64], i: usize, r: Row, pickup: Primary) -> Result<u64, Stalled>
    requires { Listed tree.list.now i r × PrimaryBounded pickup × FedReady tree.list.now card.now i }
    ensures { WalkIs (view_of tree.entry.list.now) (card_row_at card.now) i r pickup result }
{
    let mut from = 0u64;
    let mut next = tree.first_fed(i);
    // each turn goes on by a link
    while let Some(j) = next {
        let b = ask(tree.list, card, i, r, pickup, j)?;
        from = from.max(b);
        next = tree.next_fed(j);
    }
    Ok(from)
}

// The least and the greatest setting that are tried: no twins, as a definite row takes the one from its floor, the other from its ceiling.
fn tried_from(r: Row) -> u64
    ensures { result ≡ tried_from r }
{
    if r.law == 0 {
        r.floor
    } else {
        setting_from(r.law)
    }
}

fn tried_to(r: Row) -> u64
    ensures { result ≡ tried_to r }
{
    if r.law == 0 {
        r.ceiling
    } else {
        setting_to(r.law)
    }
}

// The least setting offered from a bound on that meets D1 at this M of the row's own near end. Where its time is over the ceiling, that
// of every greater one is.
fn least_time(r: Row, m: u64, from: u64) -> Option<u64>
    requires { Bounded r × (m ≤ 20000) × (stalls r.law m ≡ false) }
    ensures { result ≡ least_setting r (λ x. within_delays r (time_of r.law m x) && leb from x) }
{
    let motor = if r.kind == 3 { 100 } else { 0 };
    let own = least_setting(r.law, m, r.floor.max(motor));
    match least_on(tried_from(r), tried_to(r), 1, own.max(from)) {
        None => None,
        Some(x) => if time_of(r.law, m, x) <= r.ceiling {
            Some(x)
        } else {
            None
        },
    }
}

// The least setting of row i, whose fields are r, at its pickup; CURVE before DELAY.
pub fn time_row(
    tree: FeedingTree,
    card: &[u64],
    i: usize,
    r: Row,
    pickup: Primary,
) -> Result<u64, Reason>
    requires { Listed tree.list.now i r × PrimaryBounded pickup × FedReady tree.list.now card.now i }
    ensures { result ≡ timed_by (stalled (view_of tree.entry.list.now) (card_row_at card.now) i r pickup)
        (least_setting r (meets_time (view_of tree.entry.list.now) (card_row_at card.now) i r pickup)) }
{
    let own = needed_multiple(r.law, r, r, pickup);
    if stalls(r.law, own) {
        return Err(Reason::Curve((i as u64) + 1));
    }
    let from = walk(tree, card, i, r, pickup)?;
    least_time(r, own, from).ok_or(Reason::Delay)
}
