// Writing at a cursor: each function writes from `at` on and answers the place after what it wrote.
ghost use Rattle.std.specs.Prelude.{◌≡◌, ◌+◌, ◌≤◌, length};
ghost use Rattle.theory.specs.Bytes.{decimal};
ghost use Rattle.text.specs.Put.{put};

// The bytes.
pub fn put_bytes(out: &mut [u8], at: usize, bytes: &[u8]) -> usize
    requires { at + length bytes.now ≤ length out.old }
    ensures written { out.new ≡ put out.old at bytes.now }
    ensures place { result ≡ at + length bytes.now }
{
    let end = at + bytes.len();
    out[at..end].copy_from_slice(bytes);
    end
}

// The number in decimal, its last digit first.
pub fn put_number(out: &mut [u8], at: usize, n: u32) -> usize
    requires { at + length (decimal n) ≤ length out.old }
    ensures written { out.new ≡ put out.old at (decimal n) }
    ensures place { result ≡ at + length (decimal n) }
{
    let digits = decimal_length(n);
    let mut left = n;
    for i in (0..digits).rev() {
        out[at + i] = b'0' + (left % 10) as u8;
        left /= 10;
    }
    at + digits
}

// How many digits the number has.
pub fn decimal_length(n: u32) -> usize
    ensures { result ≡ length (decimal n) }
{
    n.checked_ilog10().unwrap_or(0) as usize + 1
}
