// Pairs of homes that need no look: what is read at both is in one class, so that inverse dereferencing gives nothing more.
ghost use Rattle.std.specs.Prelude.{◌≡◌, ◌<◌, ◌≤◌, length, get_or};
ghost use Rattle.buckets.specs.Buckets.{Chains};
ghost use Rattle.points.specs.Places.{class_slots, Column};
ghost use Rattle.marking.specs.Marks.{zeros};
ghost use Rattle.marking.specs.Rows.{OwnMask};
ghost use Rattle.settling.specs.Seen.{Owner, Owners, SameOwner, SameReads};

use buckets::chain;
use marking::base::own_homes;
use points::chains::CLASSES;
use points::places::linked;
use types::MOST;

// The class that all leads of home h read, or MOST if there is none.
fn owner_of(
    n: usize,
    h: usize,
    keys: &[u32],
    lead_first: &[u16],
    lead_next: &[u16],
    reads: &[u32],
    read_heights: &[u64],
) -> u32
    requires { Column n reads.now read_heights.now × (Chains n class_slots keys.now lead_first.now lead_next.now × (h < n)) }
    ensures { Owner n keys.now reads.now h result }
{
    let first = linked(lead_first, h);
    if n <= first {
        return 512;
    }
    let a = reads[first];
    let mut x = linked(lead_next, first);
    while x < n {
        if reads[x] != a {
            return 512;
        }
        x = linked(lead_next, x);
    }
    a
}

// These classes of all homes.
fn fill_owners(
    n: usize,
    keys: &[u32],
    lead_first: &[u16],
    lead_next: &[u16],
    reads: &[u32],
    read_heights: &[u64],
    owners: &mut [u32],
)
    requires { Column n reads.now read_heights.now × (Chains n class_slots keys.now lead_first.now lead_next.now × (n ≤ length owners.old)) }
    ensures { Owners n keys.now reads.now n (length owners.old) owners.new }
{
    for h in 0..n {
        owners[h] = owner_of(n, h, keys, lead_first, lead_next, reads, read_heights);
    }
}

// Puts the homes of class a, which are those of the mask, into the row of one of them.
fn store_row(n: usize, a: usize, i: usize, owners: &[u32], own: &[u64], seen: &mut [u64])
    requires own_mask { OwnMask n owners.now a own.now × ((length own.now ≡ 8) × SameOwner n owners.now seen.old) }
    requires i_lt_n { (i < n) × ((n ≤ 512) × ((a < n) × (get_or owners.now i 0 ≡ a))) }
    ensures { SameOwner n owners.now seen.new }
{
    for w in 0..8 {
        seen[8 * i + w] = own[w];
    }
}

// The same in the rows of all of them.
fn store_rows(
    n: usize,
    a: usize,
    owners: &[u32],
    owner_first: &[u16],
    owner_next: &[u16],
    own: &[u64],
    seen: &mut [u64],
)
    requires own_mask { OwnMask n owners.now a own.now × ((length own.now ≡ 8) × SameOwner n owners.now seen.old) }
    requires n_bound { (n ≤ 512) × ((a < n) × Chains n class_slots owners.now owner_first.now owner_next.now) }
    ensures { SameOwner n owners.now seen.new }
{
    let mut i = linked(owner_first, a);
    while i < n {
        store_row(n, a, i, owners, own, seen);
        i = linked(owner_next, i);
    }
}

// The pairs of the homes at which class a is read, if there is more than one.
fn skip_class(
    n: usize,
    a: usize,
    owners: &[u32],
    owner_first: &[u16],
    owner_next: &[u16],
    seen: &mut [u64],
)
    requires { SameOwner n owners.now seen.old × ((n ≤ 512) × ((a < n) × Chains n class_slots owners.now owner_first.now owner_next.now)) }
    ensures { SameOwner n owners.now seen.new }
{
    let i = linked(owner_first, a);
    if n <= i {
        return;
    }
    if n <= linked(owner_next, i) {
        return;
    }
    let mut own = [0u64; 8];
    own_homes(n, a, owners, owner_first, owner_next, &mut own);
    store_rows(n, a, owners, owner_first, owner_next, &own, seen);
}

// The same for all classes.
fn skip_classes(n: usize, owners: &[u32], owner_first: &[u16], owner_next: &[u16], seen: &mut [u64])
    requires { SameOwner n owners.now seen.old × ((n ≤ 512) × Chains n class_slots owners.now owner_first.now owner_next.now) }
    ensures { SameOwner n owners.now seen.new }
{
    for a in 0..n {
        skip_class(n, a, owners, owner_first, owner_next, seen);
    }
}

// Puts pairs of homes at which one class is read into an empty mask.
pub(crate) fn fill_seen(
    n: usize,
    keys: &[u32],
    lead_first: &[u16],
    lead_next: &[u16],
    reads: &[u32],
    read_heights: &[u64],
    seen: &mut [u64],
)
    requires { Column n reads.now read_heights.now × (Chains n class_slots keys.now lead_first.now lead_next.now × (seen.old ≡ zeros 4096)) }
    ensures { SameReads n keys.now reads.now seen.new }
{
    let mut owners = [512u32; MOST];
    let mut owner_first = [0u16; CLASSES];
    let mut owner_next = [0u16; MOST];
    fill_owners(
        n,
        keys,
        lead_first,
        lead_next,
        reads,
        read_heights,
        &mut owners,
    );
    chain(n, &owners, &mut owner_first, &mut owner_next);
    skip_classes(n, &owners, &owner_first, &owner_next, seen);
}
