// How much of a piece one call moves.
ghost use Rattle.std.specs.Prelude.{◌≡◌, ◌≤◌, min, length, take, drop};

/// The least of the most that a call moves, the room there is and the bytes there are.
pub(crate) fn share(most: usize, room: usize, bytes: usize) -> usize
    requires most { 1 ≤ most }
    requires room { 1 ≤ room }
    requires bytes { 1 ≤ bytes }
    ensures least { result ≡ min most (min room bytes) }
    ensures some { 1 ≤ result }
    ensures within { result ≤ room }
    ensures given { result ≤ bytes }
{
    most.min(room.min(bytes))
}

/// Copies that many bytes from the front of one slice to the front of the other.
pub(crate) fn fill(buf: &mut [u8], bytes: &[u8], count: usize)
    requires room { count ≤ length buf.old }
    requires given { count ≤ length bytes.now }
    ensures { take count buf.new ≡ take count bytes.now }
{
    buf[..count].copy_from_slice(&bytes[..count]);
}

/// The bytes from a place on.
pub(crate) fn rest(bytes: &[u8], from: usize) -> &[u8]
    requires { from ≤ length bytes.now }
    ensures { result.now ≡ drop from bytes.now }
{
    &bytes[from..]
}
