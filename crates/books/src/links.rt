// A freed block's link: the number in its first four bytes, low byte first.
ghost use Rattle.std.specs.Prelude.{◌≡◌, ◌+◌, ◌<◌, ◌≤◌, length};
ghost use Rattle.rules.specs.Blocks.{link_at, put_link};

// The link in the four bytes from o on.
pub fn link_at(memory: &[u8], o: usize) -> u32
    requires { o + 4 ≤ length memory.now }
    ensures { result ≡ link_at memory.now o }
{
    u32::from_le_bytes([memory[o], memory[o + 1], memory[o + 2], memory[o + 3]])
}

// The link in the four bytes from o on becomes v.
pub fn put_link(memory: &mut [u8], o: usize, v: u32)
    requires { o + 4 ≤ length memory.old }
    ensures { memory.new ≡ put_link o v memory.old }
{
    let [first, second, third, fourth] = v.to_le_bytes();
    memory[o] = first;
    memory[o + 1] = second;
    memory[o + 2] = third;
    memory[o + 3] = fourth;
}
