// The live map: a 64-bit word for each 64 blocks of a pool, eight words for each pool. One block's bit goes by shift
// and mask, the live blocks of a word by a count of ones.
#![tactic(auto)]

ghost use Rattle.std.specs.Prelude.{◌≡◌, ◌+◌, ◌*◌, ◌<◌, ◌≤◌, length};
ghost use Rattle.std.specs.Int.Count.{ones_in};
ghost use Rattle.rules.specs.Books.{is_set, put_map_bit};
ghost use Rattle.bits.specs.Map.{none_set};

// Block k of the pool is live.
pub fn is_set(map: &[u64], pool: usize, k: usize) -> bool
    requires { (k < 512) × (8 * pool + 8 ≤ length map.now) }
    ensures { result ≡ is_set map.now pool k }
{
    let word = 8 * pool + k / 64;
    (map[word] >> (k % 64)) & 1 == 1
}

// Block k of the pool becomes live. This and `clear_bit` are two functions, since a `bool` for which it is would say
// less in a call than the names do, and would choose between the operators here.
pub fn set_bit(map: &mut [u64], pool: usize, k: usize)
    requires { (k < 512) × (8 * pool + 8 ≤ length map.old) }
    ensures { map.new ≡ put_map_bit pool k 1 map.old }
{
    let word = 8 * pool + k / 64;
    map[word] |= 1 << (k % 64);
}

// Block k of the pool is live no more.
pub fn clear_bit(map: &mut [u64], pool: usize, k: usize)
    requires { (k < 512) × (8 * pool + 8 ≤ length map.old) }
    ensures { map.new ≡ put_map_bit pool k 0 map.old }
{
    let word = 8 * pool + k / 64;
    map[word] &= !(1 << (k % 64));
}

// No bit of the pool is set, at a block or at none: so it has no live block, whatever its class. The words are or'ed
// and not asked one by one, by `all`: that makes eight branches, where the machine has one vector test for this.
pub fn none_set(map: &[u64], pool: usize) -> bool
    requires { 8 * pool + 8 ≤ length map.now }
    ensures { result ≡ none_set map.now pool }
{
    let words = &map[8 * pool..8 * pool + 8];
    words.iter().fold(0, |bits, word| bits | *word) == 0
}

// How many of the first n blocks of a map word are live. The bits past them are shifted out. A word with no live block
// is passed over, since a count of ones is a dozen instructions where the machine has none for it.
pub fn count_live(word: u64, n: usize) -> usize
    requires { (1 ≤ n) × (n ≤ 64) }
    ensures { result ≡ ones_in n word }
{
    if word == 0 {
        return 0;
    }
    u64::count_ones(word << (64 - n)) as usize
}
