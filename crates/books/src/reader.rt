// A heap whose shape is tested, its three buffers lent to be read.
ghost use Rattle.std.specs.Prelude.{length};
ghost use Rattle.books.specs.Known.{Shaped};

use crate::words::Shape;

#[derive(Clone, Copy)]
pub struct Reader<'a> {
    pub memory: &'a [u8],
    pub books: &'a [u32],
    pub map: &'a [u64],
    pub shape: Shape,
    ghost shaped: { Shaped shape.arenas shape.pools (length memory.now) (length books.now) (length map.now) },
}
