// A pool record: loaded from the books as a struct, tested and changed by value, stored again.
ghost use Rattle.std.specs.Prelude.{◌≡◌, ◌+◌, ◌*◌, ◌^◌, ◌<◌, ◌≤◌, length};
ghost use Rattle.rules.specs.Books.{pool_word};
ghost use Rattle.books.specs.Records.{
  pool_at,
  put_pool,
  may_serve,
  may_give,
  links_lead,
  taken,
  exposed,
  given,
  taken_again,
  set_to,
};

use crate::words;

#[derive(Clone, Copy)]
pub struct Pool {
    pub count: u32,
    pub freeblock: u32,
    pub next: u32,
    pub previous: u32,
    pub class: u32,
    pub nextoffset: u32,
    pub maxnextoffset: u32,
    pub spare: u32,
}

// The record of pool n.
pub fn load_pool(books: &[u32], arenas: usize, n: usize) -> Pool
    requires { pool_word arenas 8 n ≤ length books.now }
    ensures { result ≡ pool_at arenas books.now n }
{
    let at = words::RECORDS + 8 * arenas + 8 * n;
    Pool {
        count: books[at + words::COUNT],
        freeblock: books[at + words::FREEBLOCK],
        next: books[at + words::NEXT],
        previous: books[at + words::PREVIOUS],
        class: books[at + words::CLASS],
        nextoffset: books[at + words::NEXTOFFSET],
        maxnextoffset: books[at + words::MAXNEXTOFFSET],
        spare: books[at + words::SPARE],
    }
}

// The record of pool n becomes p.
pub fn store_pool(books: &mut [u32], arenas: usize, n: usize, p: Pool)
    requires { pool_word arenas 8 n ≤ length books.old }
    ensures { books.new ≡ put_pool arenas n p books.old }
{
    let at = words::RECORDS + 8 * arenas + 8 * n;
    books[at + words::NEXT] = p.next;
    books[at + words::PREVIOUS] = p.previous;
    books[at + words::COUNT] = p.count;
    books[at + words::CLASS] = p.class;
    books[at + words::NEXTOFFSET] = p.nextoffset;
    books[at + words::MAXNEXTOFFSET] = p.maxnextoffset;
    books[at + words::FREEBLOCK] = p.freeblock;
    books[at + words::SPARE] = p.spare;
}

impl Pool {
    // A block of this class and size may be taken: what is asked of the class, the last start and the count.
    pub fn may_serve(self, class: usize, size: usize) -> bool
        requires { size ≤ 512 }
        ensures { result ≡ may_serve self class size }
    {
        (words::index(self.class) == class)
            & (words::index(self.maxnextoffset) == 4096 - size)
            & (self.count <= 505)
    }

    // A block may be given back: what is asked of the count.
    pub fn may_give(self) -> bool
        ensures { result ≡ may_give self }
    {
        (1 <= self.count) & (self.count <= 506)
    }

    // The pool may leave its list: neither link leads past the last of so many pools.
    pub fn may_leave(self, most: usize) -> bool
        ensures { result ≡ links_lead self most }
    {
        (words::index(self.next) <= most) & (words::index(self.previous) <= most)
    }

    // A block is taken; freeblock becomes its link.
    pub fn take(mut self, link: u32) -> Pool
        requires { self.count ≤ 505 }
        ensures { result ≡ taken self link }
    {
        self.count += 1;
        self.freeblock = link;
        self
    }

    // A block is taken; the block at nextoffset becomes freeblock.
    pub fn expose(mut self, size: u32) -> Pool
        requires { (self.count ≤ 505) × (self.nextoffset + size < 2 ^ 32) }
        ensures { result ≡ exposed self size }
    {
        self.count += 1;
        self.freeblock = self.nextoffset;
        self.nextoffset += size;
        self
    }

    // The block at f is given back; it becomes freeblock.
    pub fn give(mut self, f: u32) -> Pool
        requires { 1 ≤ self.count }
        ensures { result ≡ given self f }
    {
        self.count -= 1;
        self.freeblock = f;
        self
    }

    // The pool goes alone on the list of its own class; freeblock, which is taken, becomes its link.
    pub fn again(mut self, link: u32) -> Pool
        ensures { result ≡ taken_again self link }
    {
        self.count = 1;
        self.freeblock = link;
        self.next = 0;
        self.previous = 0;
        self
    }

    // The pool goes alone on the list of another class, of blocks of this size; its first block is taken, its second
    // becomes freeblock.
    pub fn anew(self, class: u32, size: u32) -> Pool
        requires { size ≤ 512 }
        ensures { result ≡ set_to self class size }
    {
        Pool {
            count: 1,
            freeblock: 48 + size,
            next: 0,
            previous: 0,
            class,
            nextoffset: 48 + 2 * size,
            maxnextoffset: 4096 - size,
            spare: self.spare,
        }
    }
}
