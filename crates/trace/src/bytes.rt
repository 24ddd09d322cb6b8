// Numbers in bytes, high byte first.
ghost use Rattle.std.specs.Prelude.{◌≡◌, ◌+◌, ◌^◌, ◌<◌, ◌≤◌, length};
ghost use Rattle.trace.specs.Layout.{bytes_of, number_from, number_at, overwrite};

// The number in a part's bytes. They are any number up to five: `from_be_bytes` would copy them into an array first.
fn number(part: &[u8]) -> u64
    requires { length part.now ≤ 5 }
    ensures { (result ≡ number_from 0 part.now) × (result < 256 ^ length part.now) }
{
    let mut value: u64 = 0;
    for byte in part {
        value = value * 256 + u64::from(*byte);
    }
    value
}

// The number in `size` bytes from `at` on: the callers have a place of the format and a size, and a slice cut at each of them would be no plainer.
pub(crate) fn number_at(b: &[u8], at: usize, size: usize) -> u64
    requires { (at + size ≤ length b.now) × (size ≤ 5) }
    ensures { (result ≡ number_at b.now at size) × (result < 256 ^ size) }
{
    let end = at + size;
    number(&b[at..end])
}

// Fills a part's bytes with a number.
fn fill(part: &mut [u8], value: u64)
    ensures { part.new ≡ bytes_of (length part.old) value }
{
    let mut left = value;
    for i in (0..part.len()).rev() {
        part[i] = (left % 256) as u8;
        left /= 256;
    }
}

// Writes a number into `size` bytes from `at` on.
pub(crate) fn store(b: &mut [u8], at: usize, size: usize, value: u64)
    requires { at + size ≤ length b.old }
    ensures { b.new ≡ overwrite b.old at (bytes_of size value) }
{
    let end = at + size;
    fill(&mut b[at..end], value);
}
