// The next live block of a pool from a place on.
ghost use Rattle.std.specs.Prelude.{◌≡◌, ℕ, ◌+◌, ◌*◌, ◌≤◌, ◌<◌, length};
ghost use Rattle.compare.specs.Next.{NextSet, NextLive, earlier};

// The lesser of two places, of those that there are.
pub fn earlier(o: Option<usize>, o2: Option<usize>) -> Option<usize>
    ensures { result ≡ earlier o o2 }
{
    match (o, o2) {
        (Some(o), Some(o2)) => Some(o.min(o2)),
        _ => o.or(o2),
    }
}

// The number of the first set bit of the pool from bit k on.
fn next_set(map: &[u64], pool: usize, k: usize) -> Option<usize>
    requires { (k < 512) × (8 * pool + 8 ≤ length map.now) }
    ensures { NextSet map.now pool k result }
{
    let rest = map[8 * pool + k / 64] >> (k % 64);
    if rest != 0 {
        return Some(k + rest.trailing_zeros() as usize);
    }
    let i = (k / 64 + 1..8).find(|i| map[8 * pool + *i] != 0)?;
    Some(64 * i + map[8 * pool + i].trailing_zeros() as usize)
}

// The number of the first block of the size that starts at o in its pool or after it.
fn block_from(size: usize, o: usize) -> usize
    requires { (8 ≤ size) × (size ≤ 512) × (o ≤ 4096) }
    ensures { (result ≤ 506) × (o ≤ 48 + result * size) × ((k : ℕ) → k < result → 48 + k * size < o) }
{
    (o.saturating_sub(48) as u32).div_ceil(size as u32) as usize
}

// Where the first live block of the pool starts, of those that start at x in the pool or after it, its blocks being of
// the size.
pub fn next_live(map: &[u64], pool: usize, size: usize, x: usize) -> Option<usize>
    requires { (8 ≤ size) × (size ≤ 512) × (x ≤ 4096) × (8 * pool + 8 ≤ length map.now) }
    ensures { NextLive size map.now pool x result }
{
    let start = 48 + next_set(map, pool, block_from(size, x))? * size;
    (start + size <= 4096).then_some(start)
}

// The same from the place after x on, where from x on it is o.
pub fn next_past(map: &[u64], pool: usize, size: usize, x: usize, o: Option<usize>) -> Option<usize>
    requires { (8 ≤ size) × (size ≤ 512) × (x < 4096) × (8 * pool + 8 ≤ length map.now) }
    ensures { NextLive size map.now pool x o → NextLive size map.now pool (x + 1) result }
{
    if o == Some(x) {
        return next_live(map, pool, size, x + 1);
    }
    o
}
