// The rows that each row feeds, in ascending order [01 §2]. They are found once for the whole list, from the last row down, and kept
// as two row numbers a row. The last of 256 rows is fed by no row, so that a byte holds each number.
#![tactic(auto)]

ghost use Rattle.std.specs.Prelude.{◌≡◌, true, ℕ, ◌+◌, ◌<◌};
ghost use Rattle.layout.specs.List.{rows};
ghost use Rattle.feeding.specs.Fed.{feeds, next_fed, link_to, Linked, LinkReady};
ghost use Rattle.feeding.specs.Linking.{Linking, RowReady};

use layout::{AT_FEEDER, FIELDS, field_at};

// The number of the first row that a row feeds, and of the next row that is fed as it is; 0 where there is none. Bytes and no Options: memory
// is fixed, a walk reads them for every row, and `link-some` and `link-none` are of such numbers.
#[derive(Clone, Copy)]
pub struct Links {
    pub first: u8,
    pub next: u8,
}

// A row that is not linked yet.
pub const UNLINKED: Links = Links { first: 0, next: 0 };

// The row of this number, if it is one.
fn linked_row(number: u8) -> Option<usize>
    ensures { number ≡ link_to result }
{
    if number == 0 {
        None
    } else {
        Some(number as usize - 1)
    }
}

// Row k becomes the first that its feeder feeds, and what was the first so far is next after it.
fn link_row(list: &[u64], links: &mut [Links], k: usize)
    requires { RowReady list.now links.old k }
    ensures { Linking list.now links.new k }
{
    let feeder = field_at(list, k, AT_FEEDER);
    if feeder == 0 {
        return;
    }
    let at = (feeder - 1) as usize;
    links[k].next = links[at].first;
    links[at].first = (k + 1) as u8;
}

// Links of rows that are not linked yet become those of the list.
pub fn link(list: &[u64], links: &mut [Links])
    requires { LinkReady list.now links.old }
    ensures { Linked list.now links.new }
{
    for k in (0..list.len() / FIELDS).rev() {
        link_row(list, links, k);
    }
}

// A list with the links of its rows.
#[derive(Clone, Copy)]
pub struct FeedingTree<'a> {
    pub list: &'a [u64],
    pub links: &'a [Links],
    ghost linked: { Linked list.now links.now },
}

impl FeedingTree<'_> {
    // The first row that row i feeds.
    pub fn first_fed(self, i: usize) -> Option<usize>
        requires { i < rows self.list.now }
        ensures { result ≡ next_fed self.entry.list.now i 0 }
    {
        linked_row(self.links[i].first)
    }

    // The next row that is fed by the row that feeds row j.
    pub fn next_fed(self, j: usize) -> Option<usize>
        requires { j < rows self.list.now }
        ensures { (i : ℕ) → feeds self.entry.list.now i j ≡ true → result ≡ next_fed self.entry.list.now i (j + 1) }
    {
        linked_row(self.links[j].next)
    }
}
