// One bit of a byte table: bit i is bit i % 8, lowest first, of byte i / 8. Public for the crates `words`, `distances`,
// `marking` and `refusals`.

#![tactic(auto)]

ghost use Rattle.std.specs.Prelude.{◌≡◌, ◌/◌, ◌<◌, length};
ghost use Rattle.pairbits.specs.Bits.{is_set, with_bit};

// Sets bit i. The caller knows that the table holds it.
pub fn set_bit(bytes: &mut [u8], i: usize)
    requires { i / 8 < length bytes.old }
    ensures { bytes.new ≡ with_bit bytes.old i }
{
    let k = i / 8;
    bytes[k] = bytes[k] | (1u8 << (i % 8));
}

// Whether bit i is 1.
pub fn test_bit(bytes: &[u8], i: usize) -> bool
    requires { i / 8 < length bytes.now }
    ensures { result ≡ is_set bytes.now i }
{
    ((bytes[i / 8] >> (i % 8)) & 1) == 1
}
