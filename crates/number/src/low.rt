// Numbers of several bytes in a lent buffer, low byte first.
ghost use Rattle.std.specs.Prelude.{◌≡◌, ◌+◌, ◌^◌, ◌≤◌, ◌<◌, length, drop};
ghost use Rattle.std.proofs.lemmas.List.Edits.{sets};
ghost use Rattle.number.specs.Low.{low_bytes, low_number};

// The low bytes of a number, one after the other, at a place that has room for them.
fn put_each(buffer: &mut [u8], place: usize, width: usize, x: u32)
    requires { place + width ≤ length buffer.old }
    ensures { buffer.new ≡ sets buffer.old place (low_bytes width x) }
{
    let part = &mut buffer[place..place + width];
    let mut rest = x;
    for byte in part.iter_mut() {
        *byte = (rest % 256) as u8;
        rest /= 256;
    }
}

// Four of them without a loop, which the compiler puts at once.
fn put_four(buffer: &mut [u8], place: usize, x: u32)
    requires { place + 4 ≤ length buffer.old }
    ensures { buffer.new ≡ sets buffer.old place (low_bytes 4 x) }
{
    buffer[place..place + 4].copy_from_slice(&x.to_le_bytes());
}

// The low bytes of a number. Answers the place after them.
pub fn put(buffer: &mut [u8], place: usize, width: usize, x: u32) -> usize
    requires { place + width ≤ length buffer.old }
    ensures { (result ≡ place + width) × (buffer.new ≡ sets buffer.old place (low_bytes width x)) }
{
    if width == 4 {
        put_four(buffer, place, x);
    } else {
        put_each(buffer, place, width, x);
    }
    place + width
}

// The number that the bytes at a place hold. A number of this language has room for four bytes.
pub fn number(bytes: &[u8], place: usize, width: usize) -> u32
    requires { (place + width ≤ length bytes.now) × (width ≤ 4) }
    ensures { (result ≡ low_number width (drop place bytes.now)) × (result < 256 ^ width) }
{
    let mut x: u32 = 0;
    for &byte in bytes[place..place + width].iter().rev() {
        x = u32::from(byte) + 256 * x;
    }
    x
}
