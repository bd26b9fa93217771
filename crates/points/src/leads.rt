// Leads: of the dereferences that read one place, and have one home, one stands for all of them.
ghost use Rattle.std.specs.Prelude.{◌≡◌, ◌+◌, ◌<◌, ◌≤◌, IfNone, IfSome, true, length};
ghost use Rattle.tables.specs.Limits.{most};
ghost use Rattle.points.specs.Places.{Column, slots};
ghost use Rattle.points.specs.Leads.{Leading, Leads, Led, Looking, SameRead};

use crate::places::{Place, SLOTS, is_at, linked, slot};
use types::TermNumber;

// For a bucket of places the number of a lead, plus 1; 0 for none. What it says is tested before it is used.
type Seen = [u16; SLOTS];

// How many buckets are looked at for a lead.
const PROBES: usize = 8;

// A number of at most MOST, in 16 bits.
fn link(t: usize) -> u16
    requires { t ≤ most }
    ensures { result ≡ t }
{
    t as u16
}

// The home of each of n terms, and the place that each dereference reads.
#[derive(Clone, Copy)]
struct Reads<'a> {
    n: usize,
    homes: &'a [u32],
    classes: &'a [u32],
    heights: &'a [u64],
    ghost column: { Column n classes.now heights.now },
    ghost homes_long: { n ≤ length homes.now },
}

// Whether u reads the place that t reads, and has its home.
fn reads_same(reads: &Reads, u: TermNumber, t: TermNumber) -> bool
    requires { (u.0 < reads.now.n) × (t.0 < reads.now.n) }
    ensures { let R = reads.now in result ≡ true → SameRead R.homes.now R.classes.now R.heights.now u.0 t.0 }
{
    let x = u.0;
    let y = t.0;
    let at = Place {
        class: reads.classes[y],
        height: reads.heights[y],
    };
    is_at(u, at, reads.classes, reads.heights) & (reads.homes[x] == reads.homes[y])
}

// Whether lead k is there, and reads what t reads.
fn is_led(reads: &Reads, t: TermNumber, k: usize, r: usize, leads: &[u16]) -> bool
    requires { let R = reads.now in Looking R.n R.homes.now R.classes.now R.heights.now leads.now r t.0 }
    ensures { let R = reads.now in result ≡ true → Led R.homes.now R.classes.now R.heights.now leads.now r t.0 }
{
    if r <= k {
        return false;
    }
    reads_same(reads, TermNumber(linked(leads, k)), t)
}

// The bucket for t as a new lead, if t has no lead. One that is not found within the probes only makes a lead more.
fn find_lead(reads: &Reads, t: TermNumber, r: usize, leads: &[u16], seen: &Seen) -> Option<usize>
    requires { let R = reads.now in Looking R.n R.homes.now R.classes.now R.heights.now leads.now r t.0 }
    ensures bucket { IfSome result (λ at. at < slots) }
    ensures led { let R = reads.now in IfNone result (Led R.homes.now R.classes.now R.heights.now leads.now r t.0) }
{
    let y = t.0;
    let start = slot(reads.classes[y], reads.heights[y]);
    for p in 0..PROBES {
        let at = (start + p) % SLOTS;
        let number = linked(seen, at);
        if number == 0 {
            return Some(at);
        }
        if is_led(reads, t, number - 1, r, leads) {
            return None;
        }
    }
    Some(start)
}

// Adds t to the leads, if it is a dereference for which no lead is found, and says how many they are.
fn add_lead(reads: &Reads, t: TermNumber, r: usize, leads: &mut [u16], seen: &mut Seen) -> usize
    requires column { (reads.now.n ≤ length leads.old) × (t.0 < reads.now.n) }
    requires leading { let R = reads.now in Leading R.n t.0 (length leads.old) R.homes.now R.classes.now R.heights.now leads.old r }
    ensures { let R = reads.now in Leading R.n (t.0 + 1) (length leads.old) R.homes.now R.classes.now R.heights.now leads.new result }
{
    let y = t.0;
    if reads.n <= reads.classes[y] as usize {
        return r;
    }
    let Some(at) = find_lead(reads, t, r, leads, seen) else {
        return r;
    };
    leads[r] = link(y);
    seen[at] = link(r + 1);
    r + 1
}

// The leads of all dereferences, and how many they are. Public for the crate `differences`.
pub fn fill_leads(
    n: usize,
    homes: &[u32],
    classes: &[u32],
    heights: &[u64],
    leads: &mut [u16],
) -> usize
    requires { Column n classes.now heights.now × ((n ≤ length homes.now) × (n ≤ length leads.old)) }
    ensures { Leads n homes.now classes.now heights.now leads.new result }
{
    let reads = Reads {
        n,
        homes,
        classes,
        heights,
    };
    let mut seen = [0u16; SLOTS];
    let mut r = 0;
    for t in 0..n {
        r = add_lead(&reads, TermNumber(t), r, leads, &mut seen);
    }
    r
}
