// Two heaps of one shape, lent to be read side by side.
ghost use Rattle.std.specs.Prelude.{◌≡◌};
ghost use Rattle.books.specs.Known.{shape_of};

use books::numbers::test_shape;
use books::reader::Reader;
use books::refusal::Refusal;

#[derive(Clone, Copy)]
pub struct Pair<'a> {
    pub first: Reader<'a>,
    pub second: Reader<'a>,
    ghost first_read: { shape_of first.books.now ≡ first.shape },
    ghost second_read: { shape_of second.books.now ≡ second.shape },
    ghost one_shape: { second.shape ≡ first.shape },
}

impl<'a> Pair<'a> {
    ghost use Rattle.std.specs.Prelude.{IfOk};
    ghost use Rattle.rules.specs.Outcome.{heap_of};
    ghost use Rattle.books.specs.Refusals.{number_in};
    ghost use Rattle.compare.specs.Pools.{pools_in, first, second};
    ghost use Rattle.compare.specs.Order.{pair_number};

    // The heaps, where each passes the tests of its shape, the first before the second, and the shapes are one.
    pub fn test(
        memory: &'a [u8],
        books: &'a [u32],
        map: &'a [u64],
        memory2: &'a [u8],
        books2: &'a [u32],
        map2: &'a [u64],
    ) -> Result<Self, Refusal>
        ensures number { number_in result ≡ pair_number (heap_of memory.now books.now map.now)
            (heap_of memory2.now books2.now map2.now) }
        ensures heaps { IfOk result (λ heaps. (first heaps ≡ heap_of memory.now books.now map.now)
            × (second heaps ≡ heap_of memory2.now books2.now map2.now)) }
    {
        let shape = test_shape(memory, books, map)?;
        let shape2 = test_shape(memory2, books2, map2)?;
        if shape != shape2 {
            return Err(Refusal::UnequalShape);
        }
        Ok(Pair {
            first: Reader {
                memory,
                books,
                map,
                shape,
            },
            second: Reader {
                memory: memory2,
                books: books2,
                map: map2,
                shape: shape2,
            },
        })
    }

    // How many pools each heap has.
    pub fn pools(&self) -> usize
        ensures { result ≡ pools_in self.now }
    {
        self.first.shape.arenas * self.first.shape.pools
    }
}
