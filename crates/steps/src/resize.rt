// Resize: the offset is kept, or the block's bytes move to a new block and the old one is given back.
ghost use Rattle.std.specs.Prelude.{◌≡◌, ◌+◌, ◌<◌, ◌≤◌, ◌^◌, length};
ghost use Rattle.rules.specs.Books.{alignment_of};
ghost use Rattle.rules.specs.Outcome.{heap_of, outcome};
ghost use Rattle.rules.specs.Resize.{copy, give_old, half_done, resize_step};
ghost use Rattle.books.specs.Known.{Shaped, LiveBlock};
ghost use Rattle.loops.specs.Copy.{Apart};
ghost use Rattle.steps.specs.Moved.{moved_in, IsMoved};

use crate::give_back::give_old;
use asks::ask::ask_step;
use books::blocks::size_at;
use books::refusal::Refusal;
use books::words::{Shape, index};
use loops::copy_within;

// Why a resize is not done.
#[derive(Clone, Copy, Debug, PartialEq, Eq)]
pub enum ResizeRefusal {
    Refused(Refusal),
    // The text stands in the new block, at this offset; the old block could not be given back.
    HalfDone(u32),
}

impl From<Refusal> for ResizeRefusal {
    ghost use Rattle.steps.specs.declared.resize.ResizeRefusal.TheVariants.{Refused};

    ghost from_gives = { λ refusal result. result ≡ Refused refusal };

    fn from(refusal: Refusal) -> ResizeRefusal {
        ResizeRefusal::Refused(refusal)
    }
}

// k bytes move from the old block to the new one, and the old one is given back; if it can't be, the new one stands
// all the same.
fn move_block(
    memory: &mut [u8],
    books: &mut [u32],
    map: &mut [u64],
    shape: Shape,
    from: usize,
    to: u32,
    k: usize,
) -> Result<u32, ResizeRefusal>
    requires { Shaped shape.arenas shape.pools (length memory.old) (length books.old) (length map.old)
        × (from + k ≤ length memory.old) × (to + k ≤ length memory.old) × Apart from to k × (48 ≤ to) }
    ensures what { outcome (moved_in result) (heap_of memory.new books.new map.new)
        ≡ half_done (alignment_of shape.edition) shape.arenas shape.pools to
        (give_old (alignment_of shape.edition) shape.arenas shape.pools
        (copy from to k (heap_of memory.old books.old map.old)) from) }
    ensures moved { IsMoved result }
{
    copy_within(memory, from, index(to), k);
    give_old(memory, books, map, shape, from).map_err(|_| ResizeRefusal::HalfDone(to))?;
    Ok(to)
}

// A resize of a live offset to n bytes.
pub fn resize_step(
    memory: &mut [u8],
    books: &mut [u32],
    map: &mut [u64],
    shape: Shape,
    offset: usize,
    n: usize,
) -> Result<u32, ResizeRefusal>
    requires { Shaped shape.arenas shape.pools (length memory.old) (length books.old) (length map.old)
        × LiveBlock (alignment_of shape.edition) shape.arenas shape.pools books.old map.old offset
        × (1 ≤ n) × (n ≤ 512) × (shape.edition ≤ 1) }
    ensures what { outcome (moved_in result) (heap_of memory.new books.new map.new)
        ≡ resize_step (alignment_of shape.edition) shape.arenas shape.pools
        (heap_of memory.old books.old map.old) offset n }
    ensures moved { IsMoved result }
{
    let size = size_at(books, shape.arenas, shape.edition, offset);
    if (n <= size) & (3 * size < 4 * n) {
        return Ok(offset as u32);
    }
    let to = ask_step(memory, books, map, shape, n)?;
    move_block(memory, books, map, shape, offset, to, n.min(size))
}
