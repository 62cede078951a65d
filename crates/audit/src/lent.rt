// A heap lent to be audited. Of its shape and lengths the rules need no more than stands here, which is less than rule
// 1 says of them: memory's length matters to rule 8 alone, which reads it.
ghost use Rattle.std.specs.Prelude.{◌≡◌, ◌*◌, ◌≤◌, length};
ghost use Rattle.rules.specs.Books.{books_length, map_length};

use books::words::Shape;

#[derive(Clone, Copy)]
pub struct Lent<'a> {
    pub memory: &'a [u8],
    pub books: &'a [u32],
    pub map: &'a [u64],
    pub shape: Shape,
    ghost fits: { (shape.arenas ≤ 16) × (1 ≤ shape.pools) × (shape.arenas * shape.pools ≤ 1024)
        × (length books.now ≡ books_length shape.arenas shape.pools)
        × (length map.now ≡ map_length shape.arenas shape.pools) },
}
