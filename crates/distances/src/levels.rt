// Which classes get levels: large ones that are read. Where the pairs of all of them have no room, the smallest share a level, so that
// their pairs are left out. Nothing relies on the choice.
ghost use Rattle.std.specs.Prelude.{◌*◌, ◌≤◌, length};
ghost use Rattle.lists.specs.Filled.{Filled};
ghost use Rattle.tables.specs.Limits.{most};

use crate::pairs::is_apart;
use points::places::Sizes;

// Room for the classes of LEAST points or more: there are at most 16.
const LARGE: usize = 32;

// The fewest points of a class that has a level.
const LEAST: u32 = 32;

// Large classes, each as one number of its size and its own number. The order of these numbers is that of the levels.
type Large = [u32; LARGE];

// Which classes are read.
type Read = [bool; 1024];

fn keyed(size: u32, c: usize) -> u32 {
    size % 1024 * 1024 + (c % 1024) as u32
}

fn size_of(key: u32) -> u32 {
    key / 1024
}

fn class_of(key: u32) -> usize {
    key as usize % 1024
}

// No class has a level.
pub(crate) fn clear(levels: &mut [u16])
    ensures { Filled (λ _. 0) 0 (length levels.old) (length levels.old) levels.new }
{
    for k in 0..levels.len() {
        levels[k] = 0;
    }
}

fn mark_read(reads: &[u32], read: &mut Read) {
    for class in reads {
        read[*class as usize % 1024] = true;
    }
}

// Whether class c is read, and large enough.
fn is_large(c: usize, least: u32, sizes: &Sizes, read: &Read) -> bool {
    read[c % 1024] && least <= sizes[c % 1024]
}

// Lists the large classes, and returns how many they are.
fn list_large(n: usize, least: u32, sizes: &Sizes, read: &Read, large: &mut Large) -> usize
    ensures { result ≤ 32 }
{
    let mut count = 0;
    for c in 0..n {
        if count == LARGE {
            return count;
        }
        if !is_large(c, least, sizes, read) {
            continue;
        }
        large[count] = keyed(sizes[c % 1024], c);
        count += 1;
    }
    count
}

// 1 for the classes up to the floor, which share it; for another, one more than the large classes below its key.
fn level_of(key: u32, floor: u32, large: &[u32]) -> u16 {
    if key <= floor {
        return 1;
    }
    let below = large.iter().filter(|other| **other < key).count();
    ((below % 0x1_0000) as u16).wrapping_add(1)
}

fn set_level(c: usize, level: u16, levels: &mut [u16]) {
    if c < levels.len() {
        levels[c] = level;
    }
}

fn set_levels(large: &[u32], floor: u32, levels: &mut [u16]) {
    for key in large {
        let level = level_of(*key, floor, large);
        set_level(class_of(*key), level, levels);
    }
}

// How many points the classes have that are above the key and the floor and not apart from the key's class.
fn points_above(n: usize, key: u32, floor: u32, large: &[u32], apart: &[u8]) -> u32
    requires { (n ≤ most) × (n * n ≤ 8 * length apart.now) }
{
    let mut points = 0u32;
    for other in large {
        if *other <= key || *other <= floor {
            continue;
        }
        if is_apart(n, class_of(key), class_of(*other), apart) {
            continue;
        }
        points = points.wrapping_add(size_of(*other));
    }
    points
}

fn product(x: u32, y: u32) -> u64 {
    u64::from(x) * u64::from(y)
}

// How many pairs of points there are of large classes at different levels.
fn count_pairs(n: usize, floor: u32, large: &[u32], apart: &[u8]) -> u64
    requires { (n ≤ most) × (n * n ≤ 8 * length apart.now) }
{
    let mut pairs = 0u64;
    for key in large {
        let above = points_above(n, *key, floor, large, apart);
        pairs = pairs.wrapping_add(product(size_of(*key), above));
    }
    pairs
}

// The least key above the floor.
fn next_floor(floor: u32, large: &[u32]) -> u32 {
    let mut next = u32::MAX;
    for key in large {
        if floor < *key {
            next = next.min(*key);
        }
    }
    next
}

// The lowest floor that leaves room for the pairs. At the last but one of the keys there is room: half of the terms squared.
fn choose_floor(n: usize, large: &[u32], apart: &[u8], room: usize) -> u32
    requires { (n ≤ most) × (n * n ≤ 8 * length apart.now) }
{
    let mut floor = 0u32;
    for _ in 0..LARGE {
        if count_pairs(n, floor, large, apart) <= room as u64 {
            return floor;
        }
        floor = next_floor(floor, large);
    }
    floor
}

// Gives levels to the large classes. Says whether there are two of them.
pub(crate) fn choose_levels(
    n: usize,
    sizes: &Sizes,
    reads: &[u32],
    apart: &[u8],
    room: usize,
    levels: &mut [u16],
) -> bool
    requires { (n ≤ most) × (n * n ≤ 8 * length apart.now) }
{
    let mut read = [false; 1024];
    let mut store = [0u32; LARGE];
    mark_read(reads, &mut read);
    clear(levels);
    let count = list_large(n, LEAST, sizes, &read, &mut store);
    let large = &store[..count];
    let floor = choose_floor(n, large, apart, room);
    set_levels(large, floor, levels);
    1 < count
}
