// Use lists, where congruence closure looks for joins: for each class the dereferences over it, one for each address, those to look at
// next, and a table from addresses to dereferences. Nothing here is relied on: what it says is tested before it is used, so it promises
// no more than ranges, and that new lists are empty, and cuts each number to the cells that there are. Public for the crates `joins` and
// `congruence`.

#![tactic(auto)]

ghost use Rattle.std.specs.Prelude.{◌≡◌, ◌^◌, ◌<◌, IfSome, replicate};

use offsets::bits;
use types::{MOST, TermNumber};
use unionfind::Root;

const SLOTS: usize = 4096;

// Notes of 16 bits, so that the memory stays small: one more than a number, or 0 for none.
#[derive(Clone, Copy)]
pub struct UseLists {
    // By list of uses its first use, its last, and how many it has. Only `last` and `size` hold the number itself.
    first: [u16; MOST],
    last: [u16; MOST],
    size: [u16; MOST],
    // By use the next after it.
    next: [u16; MOST],
    // By class its list, where that is not its own.
    list: [u16; MOST],
    // The first of the uses to look at again.
    waiting: u16,
    // How many terms were looked at.
    looked: u16,
    // The table of addresses: by slot a dereference, by dereference its key.
    slots: [u16; SLOTS],
    keys: [u64; MOST],
    // By class where its addresses are counted from.
    shifts: [u64; MOST],
}

// A number below MOST as a note.
fn note(x: usize) -> u16 {
    (x % MOST + 1) as u16
}

// The number that is noted.
fn noted(n: u16) -> Option<usize>
    ensures { IfSome result (λ x. x < 2 ^ 16) }
{
    usize::from(n).checked_sub(1)
}

// One more than the highest place in a class that a key tells.
const PLACES: u64 = 0x40_0000_0000_0000;

// Numbers of 32 bits.
const WORD: u64 = 0x1_0000_0000;

// Two hashes of a key: its halves multiplied so that near keys lie apart.
fn first_hash(key: u64) -> u64
    ensures { result < 2 ^ 32 }
{
    let product = (key % WORD * 2246822519) ^ (key / WORD * 2654435761);
    (product ^ (product / WORD)) % WORD
}

fn second_hash(key: u64) -> u64
    ensures { result < 2 ^ 32 }
{
    (key % WORD * 3266489917 % WORD + key / WORD * 668265263 % WORD) % WORD
}

// Each bit hangs on all lower bits of x, and on some higher.
fn mix(x: u64) -> u64
    ensures { result < 2 ^ 32 }
{
    (x ^ (x / 32768)) % WORD * 2246822519 % WORD
}

// Slot i of the probe sequence of a key. The first slot is found quickly. The others hang on all bits of the key, so that keys that
// meet in one slot part in the next.
fn probe(key: u64, i: usize) -> usize {
    let first = first_hash(key);
    if i == 0 {
        return (first / 1048576) as usize;
    }
    let mixed = mix(mix(second_hash(key) + (i % MOST) as u64) + first);
    (mixed / 1048576) as usize
}

// The slots of the table that are tried for a key.
const TRIES: usize = MOST;

impl UseLists {
    // No uses and no addresses; none waits, and no term was looked at.
    pub fn new() -> Self
        ensures lists { let zeros = replicate 512 0 in
            (result.first ≡ zeros) × ((result.last ≡ zeros) × ((result.size ≡ zeros) × ((result.next ≡ zeros) × (result.list ≡ zeros)))) }
        ensures looks { (result.waiting ≡ 0) × (result.looked ≡ 0) }
        ensures addresses { let zeros = replicate 512 0 in (result.slots ≡ replicate 4096 0) × ((result.keys ≡ zeros) × (result.shifts ≡ zeros)) }
    {
        UseLists {
            first: [0; MOST],
            last: [0; MOST],
            size: [0; MOST],
            next: [0; MOST],
            list: [0; MOST],
            waiting: 0,
            looked: 0,
            slots: [0; SLOTS],
            keys: [0; MOST],
            shifts: [0; MOST],
        }
    }

    // The number of the list of a class.
    fn list_of(&self, class: usize) -> usize {
        noted(self.list[class % MOST]).unwrap_or(class)
    }

    // A key of an address for the table: the list of its class, and its place in it.
    fn address_key(&self, list: usize, at: Root) -> u64 {
        let place = bits(at.offset).wrapping_sub(self.shifts[at.term.0 % MOST]);
        (list % MOST) as u64 * PLACES + place % PLACES
    }

    // The dereference with this key in the table; if there is none, x is put there.
    fn seek(&mut self, key: u64, x: usize) -> Option<usize> {
        for i in 0..TRIES {
            let s = probe(key, i) % SLOTS;
            let Some(found) = noted(self.slots[s]) else {
                self.slots[s] = note(x);
                self.keys[x % MOST] = key;
                return None;
            };
            if self.keys[found % MOST] == key {
                return Some(found);
            }
        }
        None
    }

    // Puts x first in a list of uses.
    fn add_use(&mut self, list: usize, x: usize) {
        let l = list % MOST;
        let first = self.first[l];
        if first == 0 {
            self.last[l] = (x % MOST) as u16;
        }
        self.next[x % MOST] = first;
        self.first[l] = note(x);
        self.size[l] = self.size[l].wrapping_add(1);
    }

    // A dereference that is noted to read this address; where there is none, x is noted.
    pub fn look_up(&mut self, at: Root, x: TermNumber) -> Option<TermNumber> {
        let list = self.list_of(at.term.0);
        let key = self.address_key(list, at);
        let Some(found) = self.seek(key, x.0) else {
            self.add_use(list, x.0);
            return None;
        };
        Some(TermNumber(found))
    }

    // The term to look at next: a use that waits, or else the first term not looked at.
    pub fn next_term(&mut self) -> TermNumber {
        let Some(x) = noted(self.waiting) else {
            let x = self.looked;
            self.looked = x.wrapping_add(1);
            return TermNumber(usize::from(x));
        };
        self.waiting = self.next[x % MOST];
        TermNumber(x)
    }

    // The uses of a list are to be looked at again.
    fn wait(&mut self, list: usize) {
        let l = list % MOST;
        let first = self.first[l];
        if first != 0 {
            self.next[usize::from(self.last[l]) % MOST] = self.waiting;
            self.waiting = first;
        }
    }

    // Joins the lists of two classes, where `from` is d + `to`: the longer is kept with its keys, the uses of the other wait.
    fn join_lists(&mut self, from: usize, d: u64, to: usize) {
        let moved = self.list_of(from);
        let other = self.list_of(to);
        if self.size[moved % MOST] <= self.size[other % MOST] {
            self.wait(moved);
            return;
        }
        self.wait(other);
        self.list[to % MOST] = note(moved);
        self.shifts[to % MOST] = self.shifts[from % MOST].wrapping_add(d);
    }

    // Joins the uses of the classes of two terms that are equal, given their labels before the classes are joined.
    pub fn join_uses(&mut self, a: Root, b: Root) {
        let i = a.term.0;
        let j = b.term.0;
        if j < i {
            self.join_lists(i, bits(b.offset).wrapping_sub(bits(a.offset)), j);
        }
        if i < j {
            self.join_lists(j, bits(a.offset).wrapping_sub(bits(b.offset)), i);
        }
    }
}
