// The lists of the audit (02, W-201, rule 6), over the records of the pools or of the arenas: the walk of each meets as
// many members as the list is to have, and ends. Record 0's next word is `base`, a record's previous word comes after
// its next, and a link to record n is n + 1. `homes` has the head of the list that each record is to be on.
ghost use Rattle.std.specs.Prelude.{◌≡◌, ◌*◌, ◌+◌, ◌^◌, ◌<◌, ◌≤◌, eqb, length};
ghost use Rattle.rules.specs.Say.{how_many};
ghost use Rattle.rules.specs.Books.{at};
ghost use Rattle.rules.specs.Lists.{previous_at};
ghost use Rattle.rules.specs.Audit.{leads};
ghost use Rattle.audit.specs.Lists.{Tallied, list_holds};

use crate::survey::HEADS;
use books::words::word;

// The link l leads to a member of the list with this head, and p is its previous word.
fn leads(books: &[u32], homes: &[u8], base: usize, head: usize, l: usize, p: usize) -> bool
    requires { (base + 8 * length homes.now ≤ length books.now + 6) × (l < 2 ^ 32) }
    ensures { result ≡ leads (previous_at base) (λ y. eqb (at homes.now y) head) (length homes.now)
        books.now l p }
{
    if l == 0 {
        return false;
    }
    if homes.len() < l {
        return false;
    }
    let y = l - 1;
    (usize::from(homes[y]) == head) & (word(books, base + 8 * y + 1) == p)
}

// The list with this head, which is to have so many members, holds just these, once. In one that is not doubly linked
// each previous word is 0.
pub fn holds(
    books: &[u32],
    homes: &[u8],
    base: usize,
    head: usize,
    members: usize,
    doubly: bool,
) -> bool
    requires { (base + 8 * length homes.now ≤ length books.now + 6) × (head < length books.now)
        × (members ≡ how_many (λ y. eqb (at homes.now y) head) (length homes.now)) }
    ensures { result ≡ list_holds base books.now homes.now doubly head }
{
    let mut l = word(books, head);
    let mut p = 0;
    for _ in 0..members {
        if !leads(books, homes, base, head, l, p) {
            return false;
        }
        p = if doubly { l } else { 0 };
        l = word(books, base + 8 * (l - 1));
    }
    l == 0
}

// The records of the pools, or of the arenas, with how many are to be on the list of each head.
#[derive(Clone, Copy)]
pub struct Records<'a> {
    pub books: &'a [u32],
    pub base: usize,
    pub homes: &'a [u8],
    pub tallies: &'a [u16; HEADS],
    ghost tallied: { Tallied base books.now homes.now tallies.now },
}

impl Records<'_> {
    // The list with this head holds just the records whose home it is, once.
    pub fn holds(&self, head: usize, doubly: bool) -> bool
        requires { (head < 256) × (head < length self.now.books.now) }
        ensures { result ≡ list_holds self.now.base self.now.books.now self.now.homes.now doubly head }
    {
        let members = usize::from(self.tallies[head]);
        holds(self.books, self.homes, self.base, head, members, doubly)
    }
}
