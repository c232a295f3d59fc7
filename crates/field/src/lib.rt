// The field of 256 elements of 003, D.4.1.7.3: sum, product, inverse and the powers of α. Every octet and every number is answered; only
// the product by a power out of a row of them asks for such a row.
// The definitions are in specs/Octet.antt; what the layers above may use of them is specs/Octet/Laws.antt and proofs/Laws.antt, and of the
// table specs/Octet/Table.antt. The one table is that of the powers: a product is worked out by shifting and adding, and an inverse by products
// and by the images of 1, x, .., x^7.
#![tactic(auto)]

ghost use Rattle.std.specs.Prelude.{◌≡◌, ◌≤◌, T, length};
ghost use Rattle.field.specs.Octet;
ghost use Rattle.field.specs.Octet.Steps;
ghost use Rattle.field.specs.Octet.Table;

// α's order: the number of its powers, which are all the elements but 0.
pub const ORDER: usize = 255;

// How many powers `powers` lays out: each of them twice.
pub const LAID: usize = 510;

// What stands for x^8: the modulus below it, x^4 + x^3 + x^2 + 1.
const REDUCED: u8 = 0x1D;

// Table D.I.1 of 003 in its order: entry k is α to the k. Its row "0" is the zero element and no power.
// Each entry is twice the one before: 80, entry 7, doubles to 100, less 11D that is 1D, entry 8; the last, 8E, doubles to 01.
const POWERS: [u8; ORDER] = *b"\
    \x01\x02\x04\x08\x10\x20\x40\x80\x1d\x3a\x74\xe8\xcd\x87\x13\x26\
    \x4c\x98\x2d\x5a\xb4\x75\xea\xc9\x8f\x03\x06\x0c\x18\x30\x60\xc0\
    \x9d\x27\x4e\x9c\x25\x4a\x94\x35\x6a\xd4\xb5\x77\xee\xc1\x9f\x23\
    \x46\x8c\x05\x0a\x14\x28\x50\xa0\x5d\xba\x69\xd2\xb9\x6f\xde\xa1\
    \x5f\xbe\x61\xc2\x99\x2f\x5e\xbc\x65\xca\x89\x0f\x1e\x3c\x78\xf0\
    \xfd\xe7\xd3\xbb\x6b\xd6\xb1\x7f\xfe\xe1\xdf\xa3\x5b\xb6\x71\xe2\
    \xd9\xaf\x43\x86\x11\x22\x44\x88\x0d\x1a\x34\x68\xd0\xbd\x67\xce\
    \x81\x1f\x3e\x7c\xf8\xed\xc7\x93\x3b\x76\xec\xc5\x97\x33\x66\xcc\
    \x85\x17\x2e\x5c\xb8\x6d\xda\xa9\x4f\x9e\x21\x42\x84\x15\x2a\x54\
    \xa8\x4d\x9a\x29\x52\xa4\x55\xaa\x49\x92\x39\x72\xe4\xd5\xb7\x73\
    \xe6\xd1\xbf\x63\xc6\x91\x3f\x7e\xfc\xe5\xd7\xb3\x7b\xf6\xf1\xff\
    \xe3\xdb\xab\x4b\x96\x31\x62\xc4\x95\x37\x6e\xdc\xa5\x57\xae\x41\
    \x82\x19\x32\x64\xc8\x8d\x07\x0e\x1c\x38\x70\xe0\xdd\xa7\x53\xa6\
    \x51\xa2\x59\xb2\x79\xf2\xf9\xef\xc3\x9b\x2b\x56\xac\x45\x8a\x09\
    \x12\x24\x48\x90\x3d\x7a\xf4\xf5\xf7\xf3\xfb\xeb\xcb\x8b\x0b\x16\
    \x2c\x58\xb0\x7d\xfa\xe9\xcf\x83\x1b\x36\x6c\xd8\xad\x47\x8e";

// The images of squaring: 1, x, .., x^7, each to the 2. Entry 4, x^4 squared, is x^8, which is 1D.
const SQUARES: [u8; 8] = [0x01, 0x04, 0x10, 0x40, 0x1D, 0x74, 0xCD, 0x13];

// Each to the 4: entry 2, x^2 to the 4, is x^8, 1D.
const FOURTHS: [u8; 8] = [0x01, 0x10, 0x1D, 0xCD, 0x4C, 0xB4, 0x8F, 0x18];

// Each to the 16: entry 1, x to the 16, is entry 16 of the powers, 4C.
const SIXTEENTHS: [u8; 8] = [0x01, 0x4C, 0x9D, 0x46, 0x5F, 0xFD, 0xD9, 0x81];

// a + b, which is a - b too.
pub fn sum(a: u8, b: u8) -> u8
    ensures { result ≡ Octet.sum a b }
{
    a ^ b
}

// x times a: a is shifted by one bit, and where that pushes out an x^8, the rest of the modulus is added for it.
fn double(a: u8) -> u8
    ensures { result ≡ Octet.double a }
{
    sum(a << 1, (a >> 7) * REDUCED)
}

// a times b: the sum of a, x a, .., x^7 a, each counted by its bit of b. No test depends on a or b, and no table is read.
pub fn product(a: u8, b: u8) -> u8
    ensures { result ≡ Octet.product a b }
{
    let mut total: u8 = 0;
    let mut multiple = a;
    let mut bits = b;
    for _ in 0..8u8 {
        total = sum(total, bits % 2 * multiple);
        multiple = double(multiple);
        bits >>= 1;
    }
    total
}

// What an additive function gives at b, by its images, which are its values at 1, x, .., x^7: each is counted by its bit of b.
fn mapped(images: &[u8], b: u8) -> u8
    requires { 8 ≤ length images.now }
    ensures { Steps.Mapped images.now b result }
{
    let mut total: u8 = 0;
    let mut bits = b;
    for image in &images[..8] {
        total = sum(total, bits % 2 * *image);
        bits >>= 1;
    }
    total
}

// The octet whose product with a is 1, and 0 for 0, which has none: a to the 254, which is 14 and 240. A product adds exponents. Squaring is
// additive, since a b + b a = 0, and so are raising to the 4 and to the 16, which are squaring over and over: these three are mapped.
pub fn inverse(a: u8) -> u8
    ensures { result ≡ Octet.inverse a }
{
    let a2 = mapped(&SQUARES, a);
    let a3 = product(a, a2);
    let a12 = mapped(&FOURTHS, a3);
    let a14 = product(a2, a12);
    let a240 = mapped(&SIXTEENTHS, product(a3, a12));
    product(a14, a240)
}

// α to the k: the powers come round after the order.
fn entry(powers: &[u8; ORDER], k: usize) -> u8
    requires { T (Table.is_doubled powers.now) }
    ensures { result ≡ Octet.power Octet.α k }
{
    powers[k % ORDER]
}

// α to the k.
pub fn power(k: usize) -> u8
    ensures { result ≡ Octet.power Octet.α k }
{
    entry(&POWERS, k)
}

// The powers, and once more behind them.
fn lay(powers: &[u8; ORDER]) -> [u8; LAID]
    requires { T (Table.is_doubled powers.now) }
    ensures { Table.Laid result }
{
    let mut laid = [0u8; LAID];
    octets::write(&mut laid, 0, powers);
    octets::write(&mut laid, ORDER, powers);
    laid
}

// The powers of α in a row: entry k is α to the k. The table is laid out in memory wherever it is named; who wants many powers lays them
// out once, and lends them on.
pub fn powers() -> [u8; LAID]
    ensures { Table.Laid result }
{
    lay(&POWERS)
}

// Entry k of the powers times b: its images are itself and the seven entries behind it, its doublings.
pub fn product_at(powers: &[u8; LAID], k: usize, b: u8) -> u8
    requires { Table.Laid powers.now × Table.Doublings k }
    ensures { result ≡ Octet.product (Octet.power Octet.α k) b }
{
    mapped(&powers[k..k + 8], b)
}
