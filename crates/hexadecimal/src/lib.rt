// Digits of hexadecimal, and the bytes and numbers that they spell. Public for the crates `lines` and `writer`.

#![tactic(auto)]

ghost use Rattle.std.specs.Prelude.{◌≡◌, ◌/◌, ◌≤◌, ◌<◌, length, take, is_some, IfSome};
ghost use Rattle.std.proofs.Math.Option.{some, none};
ghost use Rattle.lists.specs.Search.{choose};
ghost use Rattle.text.specs.Lines.{digit, digit_of_value, bytes_of, big, signed};
ghost use Rattle.hexadecimal.specs.Spelling.{spelled, pair_byte};

// The value of a digit: 0 to 9, A to F.
fn digit(c: u8) -> Option<u8>
    ensures { result ≡ spelled (digit c) }
{
    match c {
        b'0'..=b'9' => Some(c - b'0'),
        b'A'..=b'F' => Some(c - b'A' + 10),
        _ => None,
    }
}

// And back: the digit of a value below 16. By two ranges, as the scope asks; std's `char` has no capital digits.
pub fn digit_of(v: u8) -> u8
    requires { v < 16 }
    ensures { result ≡ digit_of_value v }
{
    if v < 10 { b'0' + v } else { b'A' + (v - 10) }
}

// The byte that two digits spell.
fn byte(high: u8, low: u8) -> Option<u8>
    ensures { result ≡ spelled (pair_byte (digit high) (digit low)) }
{
    Some(16 * digit(high)? + digit(low)?)
}

// The bytes that a line spells, written to the front of `bytes`, and how many they are; None where it spells none.
pub fn decode(line: &[u8], bytes: &mut [u8]) -> Option<usize>
    requires { length line.now / 2 ≤ length bytes.old }
    ensures spelled { bytes_of line.now ≡ choose (is_some result) (some (take (length line.now / 2) bytes.new)) none }
    ensures size { IfSome result (λ size. size ≡ length line.now / 2) }
{
    let size = line.len() / 2;
    if size * 2 < line.len() {
        return None;
    }
    for (k, pair) in line.chunks_exact(2).enumerate() {
        bytes[k] = byte(pair[0], pair[1])?;
    }
    Some(size)
}

// The number that at most four bytes spell, high byte first.
pub fn number(bytes: &[u8]) -> u32
    requires { length bytes.now ≤ 4 }
    ensures { result ≡ big bytes.now }
{
    let mut n: u32 = 0;
    for b in bytes {
        n = n * 256 + u32::from(*b);
    }
    n
}

// The offset that 32 bits spell in two's complement.
pub fn offset(bits: u32) -> i64
    ensures { result ≡ signed 32 bits }
{
    i64::from(bits.cast_signed())
}
