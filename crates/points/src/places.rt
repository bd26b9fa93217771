// Places: a class, and a height in it. A term has a place, and a dereference reads one. Public for the crates `distances`, `marking`,
// `expansion`, `settling`, `differences`, `placing`, `questions` and `columns`.
ghost use Rattle.std.specs.Prelude.{◌≡◌, ◌*◌, ◌<◌, ◌≤◌, length, slice_index};
ghost use Rattle.tables.specs.Limits.{most};
ghost use Rattle.points.specs.Places.{is_here, slot_of, slots, top};

use types::TermNumber;

// The buckets of places.
pub const SLOTS: usize = 4096;

// Heights are below this.
pub const TOP: u64 = 0x1_0000_0000_0000;

// A place.
#[derive(Clone, Copy, PartialEq, Eq)]
pub struct Place {
    pub class: u32,
    pub height: u64,
}

// The bucket of a place. Heights in arithmetic progression are spread out.
pub fn slot(class: u32, height: u64) -> usize
    requires { (class ≤ most) × (height < 2 * top) }
    ensures { (result ≡ slot_of class height) × (result < slots) }
{
    let mixed = (height % 0x1_0000_0000 + height / 0x1_0000_0000 * 31 + class as u64 * 40503)
        % 0x1_0000_0000;
    (mixed * 0x9E37_79B1 % 0x1_0000_0000 / 0x10_0000) as usize
}

// The first number of a chain, or the next one.
pub fn linked(links: &[u16], k: usize) -> usize
    requires { k < length links.now }
    ensures { result ≡ slice_index links.now k }
{
    links[k] as usize
}

// Whether t is at the place.
pub fn is_at(t: TermNumber, at: Place, classes: &[u32], heights: &[u64]) -> bool
    requires { (t.0 < length classes.now) × (t.0 < length heights.now) }
    ensures { result ≡ is_here classes.now heights.now at.class at.height t.0 }
{
    let k = t.0;
    (classes[k] == at.class) & (heights[k] == at.height)
}

// How many terms each class has. Nothing relies on it.
pub type Sizes = [u32; 1024];

// Whether one class has fewer terms than another.
pub fn is_smaller(a: u32, b: u32, sizes: &Sizes) -> bool {
    sizes[a as usize % 1024] < sizes[b as usize % 1024]
}

fn count_one(class: u32, sizes: &mut Sizes) {
    let k = class as usize % 1024;
    sizes[k] = sizes[k].wrapping_add(1);
}

// Counts the terms of each class.
pub fn count_sizes(n: usize, classes: &[u32], sizes: &mut Sizes)
    requires { n ≤ length classes.now }
{
    for class in &classes[..n] {
        count_one(*class, sizes);
    }
}
