// The header of a packet (B.3.2.1, figure B.2): multiplex code and payload length, 12 bits, and their 12 bits of parity.
ghost use Rattle.std.specs.Prelude.{◌≡◌, ◌≤◌, ◌<◌, length, drop};
ghost use Rattle.packets.specs.Header.{header_of, header_word};

// The three octets of a header.
pub fn of(code: u32, length: u32) -> [u8; 3]
    requires { (code < 16) × (length < 256) }
    ensures { result ≡ header_of code length }
{
    let data = code + 16 * length;
    let word = data + (golay::parity(data) << golay::DATA_BITS);
    let [first, second, third, _] = word.to_le_bytes();
    [first, second, third]
}

// The 24 bits of the header that stands behind a flag, the first octet's first.
pub fn word(octets: &[u8]) -> u32
    requires { 5 ≤ length octets.now }
    ensures { (result ≡ header_word (drop 2 octets.now)) × (result < 16777216) }
{
    u32::from_le_bytes([octets[2], octets[3], octets[4], 0])
}
