// Buckets: for each key a chain of the numbers that have it, in rising order. Public for the crates `points`, `marking`, `expansion`,
// `settling` and `questions`.

#![tactic(auto)]

ghost use Rattle.std.specs.Prelude.{◌≡◌, ◌<◌, ◌≤◌, ◌^◌, length};
ghost use Rattle.lists.specs.Filled.{Filled};
ghost use Rattle.tables.specs.Limits.{most};
ghost use Rattle.buckets.specs.Buckets.{Chainable, Chains};

// A number of at most MOST, in 16 bits.
fn link(t: usize) -> u16
    requires { t ≤ most }
    ensures { result ≡ t }
{
    t as u16
}

fn index(key: u32) -> usize
    ensures { (result ≡ key) × (result < 2 ^ 32) }
{
    key as usize
}

// Every bucket empty: its chain ends at n.
fn empty(n: usize, first: &mut [u16])
    requires { n ≤ most }
    ensures { Filled (λ _. n) 0 (length first.old) (length first.old) first.new }
{
    for k in 0..first.len() {
        first[k] = link(n);
    }
}

// Puts the numbers below n into their chains, the highest first.
fn fill(n: usize, keys: &[u32], first: &mut [u16], next: &mut [u16])
    requires { Chainable n (length first.old) keys.now next.old × Filled (λ _. n) 0 (length first.old) (length first.old) first.old }
    ensures { Chains n (length first.old) keys.now first.new next.new }
{
    let mut t = n;
    while 0 < t {
        t -= 1;
        let k = index(keys[t]);
        next[t] = first[k];
        first[k] = link(t);
    }
}

// The chains of the numbers below n by their keys. A chain ends at n.
pub fn chain(n: usize, keys: &[u32], first: &mut [u16], next: &mut [u16])
    requires { Chainable n (length first.old) keys.now next.old }
    ensures { Chains n (length first.old) keys.now first.new next.new }
{
    empty(n, first);
    fill(n, keys, first, next);
}
