// Words of 64 bits of a byte table, read and set at any bit, and masks: words with a bit for each number. Public for the crates
// `marking`, `expansion`, `settling` and `placing`.

#![tactic(auto)]

ghost use Rattle.std.specs.Prelude.{◌≡◌, true, ◌+◌, ◌*◌, ◌/◌, ◌≤◌, ◌<◌, ◌^◌, length, get_or};
ghost use Rattle.outcome.specs.PairBits.{bit_value};
ghost use Rattle.pairbits.specs.Bits.{is_set};
ghost use Rattle.words.specs.Words.{Common, in_mask, Lowest, NextOne, Ored, Put, Rest, Spells, Without};

use pairbits::{set_bit, test_bit};

// The number that the eight bytes from byte k on spell.
fn eight(bytes: &[u8], k: usize) -> u64
    requires { k + 8 ≤ length bytes.now }
    ensures { Spells bytes.now (8 * k) 64 result }
{
    let mut part = [0; 8];
    part.copy_from_slice(&bytes[k..k + 8]);
    u64::from_le_bytes(part)
}

// Bit i, 0 past the table.
fn bit_at(bytes: &[u8], i: usize) -> u64
    ensures { result ≡ bit_value (is_set bytes.now i) }
{
    u64::from(i / 8 < bytes.len() && test_bit(bytes, i))
}

// The word from bit `at` on, bit by bit: for the end of a table. A loop: a fold would take the bound of `at + b` into its closure.
fn last_word(bytes: &[u8], at: usize) -> u64
    requires { at + 64 < 2 ^ 64 }
    ensures { Spells bytes.now at 64 result }
{
    let mut word = 0;
    for b in 0..64 {
        word |= bit_at(bytes, at + b) << b;
    }
    word
}

// The word from bit `at` on. Bits past the table are 0.
pub fn word_at(bytes: &[u8], at: usize) -> u64
    requires { at + 64 < 2 ^ 64 }
    ensures { Spells bytes.now at 64 result }
{
    let k = at / 8;
    let s = at % 8;
    if bytes.len() <= k + 8 {
        return last_word(bytes, at);
    }
    let low = eight(bytes, k);
    if s == 0 {
        return low;
    }
    (low >> s) | (u64::from(bytes[k + 8]) << (64 - s))
}

// Sets the bits of x in byte k.
fn or_byte(bytes: &mut [u8], k: usize, x: u64)
    requires { k < length bytes.old }
    ensures { Ored bytes.old (8 * k) 8 x bytes.new }
{
    bytes[k] |= (x % 0x100) as u8;
}

// Sets the bits of x in the eight bytes from byte k on.
fn or_eight(bytes: &mut [u8], k: usize, x: u64)
    requires { k + 8 ≤ length bytes.old }
    ensures { Ored bytes.old (8 * k) 64 x bytes.new }
{
    let word = eight(bytes, k) | x;
    bytes[k..k + 8].copy_from_slice(&word.to_le_bytes());
}

// Sets bit `at` + b, if bit b of x is 1 and the table has it.
fn or_bit(bytes: &mut [u8], at: usize, b: usize, x: u64)
    requires { (at + 64 < 2 ^ 64) × (b < 64) }
    ensures { Ored bytes.old (at + b) 1 (x / 2 ^ b) bytes.new }
{
    if (x >> b) % 2 == 0 {
        return;
    }
    if bytes.len() <= (at + b) / 8 {
        return;
    }
    set_bit(bytes, at + b);
}

// Sets the bits of a word from bit `at` on, bit by bit: for the end of a table.
fn or_last(bytes: &mut [u8], at: usize, x: u64)
    requires { at + 64 < 2 ^ 64 }
    ensures { Ored bytes.old at 64 x bytes.new }
{
    for b in 0..64 {
        or_bit(bytes, at, b, x);
    }
}

// Sets the bits of a word from bit `at` on. Those past the table are dropped.
pub fn or_word(bytes: &mut [u8], at: usize, x: u64)
    requires { at + 64 < 2 ^ 64 }
    ensures { Ored bytes.old at 64 x bytes.new }
{
    let k = at / 8;
    let s = at % 8;
    if x == 0 {
        return;
    }
    if bytes.len() <= k + 8 {
        or_last(bytes, at, x);
        return;
    }
    if s == 0 {
        or_eight(bytes, k, x);
        return;
    }
    or_eight(bytes, k, x << s);
    or_byte(bytes, k + 8, x >> (64 - s));
}

// Word w of a mask, 0 past its end.
fn mask_word(mask: &[u64], w: usize) -> u64
    ensures { result ≡ get_or mask.now w 0 }
{
    mask.get(w).copied().unwrap_or(0)
}

// Puts j into a mask.
pub fn put(mask: &mut [u64], j: usize)
    requires { j / 64 < length mask.old }
    ensures { Put mask.old j mask.new }
{
    mask[j / 64] |= 1u64 << (j % 64);
}

// Whether j is in a mask.
pub fn contains(mask: &[u64], j: usize) -> bool
    ensures { result ≡ in_mask mask.now j }
{
    (mask_word(mask, j / 64) >> (j % 64)) % 2 == 1
}

// Word w of a mask, without number j.
pub fn word_without(mask: &[u64], w: usize, j: usize) -> u64
    ensures { Without mask.now w j result }
{
    let word = mask_word(mask, w);
    if j / 64 != w {
        return word;
    }
    word & (word ^ (1u64 << (j % 64)))
}

// The number of the lowest bit that is 1; 64 where there is none.
fn lowest(word: u64) -> usize
    ensures { Lowest word result }
{
    word.trailing_zeros() as usize
}

// The number of the first bit from `from` on that is 1; one that is not below 64 where there is none.
pub fn next_one(word: u64, from: usize) -> usize
    requires { from ≤ 64 }
    ensures { NextOne word from result }
{
    if from == 64 {
        return 64;
    }
    from + lowest(word >> from)
}

// The bits of the row and the mask from number v on, up to the end of the mask's word.
pub fn common(start: usize, table: &[u8], mask: &[u64], v: usize) -> u64
    requires { start + v + 64 < 2 ^ 64 }
    ensures { Common start table.now mask.now v result }
{
    word_at(table, start + v) & (mask_word(mask, v / 64) >> (v % 64))
}

// The numbers of one mask that are not in another.
pub fn rest(x: &[u64], y: &[u64], rest: &mut [u64])
    requires { length rest.old ≡ 8 }
    ensures { Rest x.now y.now 8 rest.new }
{
    for (w, rest_word) in rest.iter_mut().enumerate() {
        let word = mask_word(x, w);
        *rest_word = word & (word ^ mask_word(y, w));
    }
}
