// The bytes of a block in two memories, compared a block at a time.
ghost use Rattle.std.specs.Prelude.{◌≡◌, ◌+◌, ◌*◌, ◌%◌, ◌≤◌, length};
ghost use Rattle.rules.specs.Compare.{same_bytes};

// A group's bytes are the same in both. It is a fold, and no `all`, since that has an exit: of the fold LLVM makes one
// comparison of a group of 8, and four of one of 64. (`==` of slices would call the C library's `memcmp`.)
fn same_group(first: &[u8], second: &[u8], at: usize, group: usize) -> bool
    requires { (at + group ≤ length first.now) × (at + group ≤ length second.now) }
    ensures { result ≡ same_bytes first.now second.now at group }
{
    (0..group).fold(true, |same, i| (first[at + i] == second[at + i]) & same)
}

// The bytes of so many groups are.
fn same_groups(first: &[u8], second: &[u8], at: usize, groups: usize, group: usize) -> bool
    requires { (at + groups * group ≤ length first.now) × (at + groups * group ≤ length second.now) }
    ensures { result ≡ same_bytes first.now second.now at (groups * group) }
{
    (0..groups).all(|i| same_group(first, second, at + i * group, group))
}

// The bytes of a block of the size are, in groups of 64 and then of 8, which every size is a multiple of.
pub fn same_block(first: &[u8], second: &[u8], at: usize, size: usize) -> bool
    requires { (size % 8 ≡ 0) × (at + size ≤ length first.now) × (at + size ≤ length second.now) }
    ensures { result ≡ same_bytes first.now second.now at size }
{
    let large = size / 64;
    same_groups(first, second, at, large, 64)
        && same_groups(first, second, at + large * 64, size % 64 / 8, 8)
}
