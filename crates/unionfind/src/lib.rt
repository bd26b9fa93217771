// A union-find with offsets. A term's link leads to one of a lower number in its class, or to itself: so the root of a class is its
// lowest term, and every path ends. `Links` says what the columns keep, `flat` which labels they stand for. Public for the
// crates `joins`, `congruence`, `consistency` and `solver`.

#![tactic(auto)]

ghost use Rattle.std.specs.Prelude.{◌≡◌, ◌≢◌, ℕ, ◌+◌, ◌≤◌, ◌<◌, ℤ, ◌+ℤ◌, ◌-ℤ◌, pos, length, get_or};
ghost use Rattle.integers.specs.Within.{Within};
ghost use Rattle.labels.specs.Spread.{far};
ghost use Rattle.unionfind.specs.Forest.{Links, Near, flat, Found, Equated, Flattened, Cleared};
ghost use Rattle.unionfind.specs.Turns.{Halved};
ghost use Rattle.unionfind.specs.Uniting.{Linking};

use offsets::{difference, is_same, opposite, sum};
use types::TermNumber;

// The representative of a term's class, and the term's offset from it.
#[derive(Clone, Copy, PartialEq, Eq)]
pub struct Root {
    pub term: TermNumber,
    pub offset: i64,
}

// What joining a = z + b found.
#[derive(Clone, Copy, PartialEq, Eq)]
pub enum Joining {
    Joined,
    Held,
    Clashed,
}

// The columns of links, which are lent: for each term its parent, and its offset from there.
#[derive(Drop)]
pub struct Forest<'a> {
    pub parents: &'a mut [u32],
    pub offsets: &'a mut [i64],
    // Every path ends at a root, whose offset is 0.
    pub ghost links: { Links parents.now offsets.now },
}

// Makes each term a root.
pub fn reset(parents: &mut [u32], offsets: &mut [i64])
    requires { (length offsets.old ≡ length parents.old) × (length parents.old ≤ 512) }
    ensures { Cleared parents.old offsets.old parents.new offsets.new }
{
    for (t, parent) in parents.iter_mut().enumerate() {
        *parent = t as u32;
    }
    offsets.fill(0);
}

// The distance at which a = z + b puts the root of a from that of b, where a is x and b is y from its root.
fn distance(x: i64, z: i64, y: i64) -> i64
    requires { Within far x × (Within far z × Within far y) }
    ensures { result ≡ z +ℤ y -ℤ x }
{
    difference(sum(z, y), x)
}

impl<'a> Forest<'a> {
    ghost use Rattle.unionfind.specs.Lent.{SameColumns, NoneFar};

    // Hangs t, which is no root, under its parent's parent, and returns that.
    fn halve(&mut self, t: usize) -> usize
        requires none_far { NoneFar self.old }
        requires t_in_bounds { (t < length self.old.parents.now) × (get_or self.old.parents.now t 0 ≢ t) }
        ensures same_columns { SameColumns self.old self.new }
        ensures halved { Halved self.old.parents.now self.old.offsets.now self.new.parents.now self.new.offsets.now t result }
    {
        let up = self.parents[t] as usize;
        let top = self.parents[up];
        self.offsets[t] = sum(self.offsets[t], self.offsets[up]);
        self.parents[t] = top;
        top as usize
    }

    // The root of t's class, and the offset of t from it. Halves a path of several links on the way.
    pub fn find(&mut self, t: TermNumber) -> Root
        requires none_far { NoneFar self.old }
        requires t_in_bounds { t.0 < length self.old.parents.now }
        ensures same_columns { SameColumns self.old self.new }
        ensures found { Found self.old.parents.now self.old.offsets.now self.new.parents.now self.new.offsets.now t.0 result }
    {
        let mut at = t.0;
        let mut offset: i64 = 0;
        loop {
            let up = self.parents[at] as usize;
            if up == at {
                return Root {
                    term: TermNumber(at),
                    offset,
                };
            }
            if self.parents[up] as usize == up {
                return Root {
                    term: TermNumber(up),
                    offset: sum(offset, self.offsets[at]),
                };
            }
            let top = self.halve(at);
            offset = sum(offset, self.offsets[at]);
            at = top;
        }
    }

    // Hangs the root `from` under the root `to`, of a lower number, where `from` is d + `to`.
    fn link(&mut self, from: usize, d: i64, to: usize)
        requires to_lt_from { (from < length self.old.parents.now) × (to < from) }
        requires roots { (get_or self.old.parents.now from 0 ≡ from) × (get_or self.old.parents.now to 0 ≡ to) }
        ensures same_columns { SameColumns self.old self.new }
        ensures linking { Linking self.old.parents.now self.old.offsets.now self.new.parents.now self.new.offsets.now from d to }
    {
        self.parents[from] = to as u32;
        self.offsets[from] = d;
    }

    // Joins i = d + j, for two roots.
    fn join_roots(&mut self, i: usize, d: i64, j: usize) -> Joining
        requires in_bounds { (i < length self.old.parents.now) × (j < length self.old.parents.now) }
        requires roots { (get_or self.old.parents.now i 0 ≡ i) × (get_or self.old.parents.now j 0 ≡ j) }
        requires d_within { Within (far + far + far) d }
        ensures same_columns { SameColumns self.old self.new }
        ensures equated { Equated self.old.parents.now self.old.offsets.now self.new.parents.now self.new.offsets.now i d j result }
    {
        if i == j {
            return if is_same(d, 0) {
                Joining::Held
            } else {
                Joining::Clashed
            };
        }
        if j < i {
            self.link(i, d, j);
        } else {
            self.link(j, opposite(d), i);
        }
        Joining::Joined
    }

    // Joins a = z + b, given the roots of a and b. Public for the crate `joins`.
    pub fn join_found(&mut self, x: Root, z: i64, y: Root) -> Joining
        requires in_bounds { (x.term.0 < length self.old.parents.now) × (y.term.0 < length self.old.parents.now) }
        requires roots { (get_or self.old.parents.now x.term.0 0 ≡ x.term.0) × (get_or self.old.parents.now y.term.0 0 ≡ y.term.0) }
        requires within { Within far x.offset × (Within far z × Within far y.offset) }
        ensures same_columns { SameColumns self.old self.new }
        ensures equated { Equated self.old.parents.now self.old.offsets.now self.new.parents.now self.new.offsets.now x.term.0 (z +ℤ y.offset -ℤ x.offset) y.term.0 result }
    {
        self.join_roots(x.term.0, distance(x.offset, z, y.offset), y.term.0)
    }

    // Joins a = z + b. Where a and b are of one class it holds already, or cannot.
    pub fn join(&mut self, a: TermNumber, z: i64, b: TermNumber) -> Joining
        requires none_far { NoneFar self.old }
        requires in_bounds { (a.0 < length self.old.parents.now) × (b.0 < length self.old.parents.now) }
        requires z_within { Within far z }
        ensures same_columns { SameColumns self.old self.new }
        ensures equated { Equated self.old.parents.now self.old.offsets.now self.new.parents.now self.new.offsets.now a.0 z b.0 result }
    {
        let x = self.find(a);
        let y = self.find(b);
        self.join_found(x, z, y)
    }

    // Hangs each term under its root. In rising order a term's parent hangs under its root already. By number, as `halve` writes both
    // columns.
    pub fn flatten(&mut self)
        requires { NoneFar self.old }
        ensures same_columns { SameColumns self.old self.new }
        ensures flattened { Flattened self.old.parents.now self.old.offsets.now self.new.parents.now self.new.offsets.now }
    {
        for t in 0..self.parents.len() {
            if self.parents[t] as usize != t {
                self.halve(t);
            }
        }
    }
}
