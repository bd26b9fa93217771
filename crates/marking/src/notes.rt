// Notes that save time. Nothing here is relied on: what a note says is tested before it is used. Public for the crates
// `settling` and `differences`.
use types::{MOST, TermNumber};

// The classes that points are counted of.
const CLASSES: usize = 1024;

// The pairs that are kept to be looked at.
const STACK: usize = 510;

// The buckets of distances.
const FACTS: usize = 2048;

// A class with fewer points has few.
const FEW: u32 = 5;

// A class with more points has many.
const MANY: u32 = 160;

#[derive(Clone, Copy)]
pub struct Notes {
    // How many points each class has.
    points: [u32; CLASSES],
    // Whether a dereference has its value at a home.
    read: [bool; MOST],
    // The steps taken, less those taken back.
    steps: u32,
    // Pairs of homes whose bits were set, and how many they are. What does not fit is dropped.
    stack: [u32; STACK],
    height: usize,
    // For each bucket of distances the last pair of dereferences that was looked at.
    fired: [u32; FACTS],
}

// About how many steps take half as long as building an index of n points.
pub fn first_limit(n: usize) -> u32 {
    let few = n % 1024;
    (few * few / 8) as u32
}

// A pair of numbers of terms as one number.
fn paired(x: TermNumber, y: TermNumber) -> u32 {
    (x.0 % MOST * MOST + y.0 % MOST) as u32
}

impl Notes {
    pub const EMPTY: Self = Notes {
        points: [0; CLASSES],
        read: [false; MOST],
        steps: 0,
        stack: [0; STACK],
        height: 0,
        fired: [0; FACTS],
    };

    // Counts the points of each class.
    pub fn count_points(&mut self, points: &[u32]) {
        for class in points {
            let k = *class as usize % CLASSES;
            self.points[k] = self.points[k].wrapping_add(1);
        }
    }

    // How many points a class has.
    pub(crate) fn size(&self, class: u32) -> u32 {
        self.points[class as usize % CLASSES]
    }

    // Whether two classes or more have many points. The class MOST, of the terms that are not their own homes in a full table, is none.
    pub fn are_many(&self) -> bool {
        2 <= self.points[..MOST]
            .iter()
            .filter(|points| MANY < **points)
            .count()
    }

    // Whether one of two classes has few points.
    pub fn are_few(&self, a: u32, b: u32) -> bool {
        self.size(a) < FEW || self.size(b) < FEW
    }

    // Notes that a dereference has its value at home h.
    pub fn note_reader(&mut self, h: usize) {
        self.read[h % MOST] = true;
    }

    // Notes that steps were taken. A step that sets a pair does not count (`note_pair`): an index would not save it.
    pub(crate) fn add_steps(&mut self, more: u32) {
        self.steps = self.steps.wrapping_add(more);
    }

    // No steps so far.
    pub fn forget_steps(&mut self) {
        self.steps = 0;
    }

    // Whether more steps were taken than a limit. Where more were taken back than taken, the count is above 2^31.
    pub fn is_over(&self, limit: u32) -> bool {
        limit < self.steps && self.steps < 0x8000_0000
    }

    fn push(&mut self, pair: u32) {
        if self.height < STACK {
            self.stack[self.height] = pair;
            self.height += 1;
        }
    }

    // Notes a pair of homes whose bits were set just now, if both have readers, and takes back one step.
    pub(crate) fn note_pair(&mut self, fresh: bool, i: TermNumber, j: TermNumber) {
        if !fresh {
            return;
        }
        self.steps = self.steps.wrapping_sub(1);
        if self.read[i.0 % MOST] && self.read[j.0 % MOST] {
            self.push(paired(i, j));
        }
    }

    // The pair on top, which is taken off.
    pub fn pop(&mut self) -> Option<usize> {
        let top = self.height.checked_sub(1)?;
        self.height = top;
        Some(self.stack[top % STACK] as usize)
    }

    // Notes that x and y are looked at.
    pub fn note_fired(&mut self, bucket: usize, x: TermNumber, y: TermNumber) {
        self.fired[bucket % FACTS] = paired(x, y);
    }

    // The pair that was noted last for a bucket; that of term 0 with itself, which gives nothing, where there is none.
    pub fn last_fired(&self, bucket: usize) -> usize {
        self.fired[bucket % FACTS] as usize
    }
}
