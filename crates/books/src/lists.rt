// Lists threaded through the records: leaving one, joining it at the front, going in after a member, and what the rules
// of number 6 ask of their links. Member 0's next word is `base`, a member's previous word comes after its next, and a
// link to member n is n + 1. A list is named at each call by its head, its base and how many members there are: a
// struct of the three would be made there of the same three words.
ghost use Rattle.std.specs.Prelude.{◌≡◌, not, ◌+◌, ◌*◌, ◌^◌, ◌<◌, ◌≤◌, length, if◌then◌else◌};
ghost use Rattle.rules.specs.Say.{only};
ghost use Rattle.rules.specs.Books.{at, put, none?, link_to, linked};
ghost use Rattle.rules.specs.Lists.{next_at, previous_at, leave_by, join_by, leave, join, go_in_after};
ghost use Rattle.rules.specs.Lists.{may_leave, may_join, pool_links};
ghost use Rattle.books.specs.Lists.{Within, Links};

use crate::words;

// The base of the pools' lists, in books of so many arenas. That of the arenas' lists is `words::ARENA_LINKS`.
pub fn pool_links(arenas: usize) -> usize
    requires { arenas ≤ 16 }
    ensures { result ≡ pool_links arenas }
{
    words::RECORDS + 8 * arenas + words::NEXT
}

// The link to member n.
pub fn link_to(n: usize) -> u32
    requires { n ≤ 1024 }
    ensures { result ≡ link_to n }
{
    (n + 1) as u32
}

// The next word of the member that a link leads to.
fn next_at(base: usize, link: u32) -> usize
    requires { (1 ≤ link) × (base + 8 * link < 2 ^ 64) }
    ensures { result ≡ next_at base (linked link) }
{
    base + 8 * (link as usize - 1)
}

// The next word of the member that a link leads to, or the head where it leads to none, becomes v.
fn put_next(books: &mut [u32], base: usize, head: usize, link: u32, v: u32)
    requires { (head < length books.old) × Within base (length books.old) link }
    ensures { books.new
        ≡ put (if none? link then head else next_at base (linked link)) v books.old }
{
    if link == 0 {
        books[head] = v;
        return;
    }
    let at = next_at(base, link);
    books[at] = v;
}

// The previous word of the member that a link leads to, if any, becomes v.
fn put_previous(books: &mut [u32], base: usize, link: u32, v: u32)
    requires { Within base (length books.old) link }
    ensures { books.new
        ≡ only (not (none? link)) (put (previous_at base (linked link)) v) books.old }
{
    if link == 0 {
        return;
    }
    let at = next_at(base, link);
    books[at + 1] = v;
}

// Member n, whose own two words are given, leaves the list of that head.
pub fn leave_by(books: &mut [u32], base: usize, head: usize, next: u32, previous: u32, n: usize)
    requires { (head < length books.old) × Within base (length books.old) (link_to n)
        × Within base (length books.old) next × Within base (length books.old) previous }
    ensures { books.new ≡ leave_by base head next previous n books.old }
{
    put_next(books, base, head, previous, next);
    put_previous(books, base, next, previous);
    let at = base + 8 * n;
    books[at] = 0;
    books[at + 1] = 0;
}

// Member n, whose own two words are given, joins a list; `place` is the word that leads to it: the head, or the next
// word of the member before it.
pub fn join_by(books: &mut [u32], base: usize, place: usize, next: u32, previous: u32, n: usize)
    requires { (place < length books.old) × (n ≤ 1024) × Within base (length books.old) (link_to n)
        × Within base (length books.old) next }
    ensures { books.new ≡ join_by base place next previous n books.old }
{
    let link = link_to(n);
    let at = base + 8 * n;
    books[at] = next;
    books[at + 1] = previous;
    put_previous(books, base, next, link);
    books[place] = link;
}

// Neither link of member n leads past the last.
pub fn may_leave(books: &[u32], most: usize, base: usize, n: usize) -> bool
    requires { next_at base n + 1 < length books.now }
    ensures { result ≡ may_leave most base n books.now }
{
    (words::word(books, base + 8 * n) <= most) & (words::word(books, base + 8 * n + 1) <= most)
}

// The list's head does not lead past the last.
pub fn may_join(books: &[u32], most: usize, head: usize) -> bool
    requires { head < length books.now }
    ensures { result ≡ may_join most head books.now }
{
    words::word(books, head) <= most
}

// Member n leaves the list of that head; links lead at most to `most` members.
pub fn leave(books: &mut [u32], most: usize, base: usize, head: usize, n: usize)
    requires { (n < most) × (base + 8 * most ≤ length books.old + 6) × (head < length books.old)
        × Links most base n books.old }
    ensures { books.new ≡ leave base head n books.old }
{
    let next = books[base + 8 * n];
    let previous = books[base + 8 * n + 1];
    leave_by(books, base, head, next, previous, n);
}

// Member n joins the list of that head at the front.
pub fn join(books: &mut [u32], most: usize, base: usize, head: usize, n: usize)
    requires { (n < most) × (most ≤ 1024) × (base + 8 * most ≤ length books.old + 6)
        × (head < length books.old) × (at books.old head ≤ most) }
    ensures { books.new ≡ join base head n books.old }
{
    let old = books[head];
    join_by(books, base, head, old, 0, n);
}

// Member n goes in after member q.
pub fn go_in_after(books: &mut [u32], most: usize, base: usize, q: usize, n: usize)
    requires { (n < most) × (q < most) × (most ≤ 1024) × (base + 8 * most ≤ length books.old + 6)
        × (at books.old (next_at base q) ≤ most) }
    ensures { books.new ≡ go_in_after base q n books.old }
{
    let place = base + 8 * q;
    let next = books[place];
    join_by(books, base, place, next, link_to(q), n);
}
