// Inverse dereferencing: where what two dereferences read is different, so are the terms that stand as far apart as the places that they
// read. Each bit that is set may give others, until a look at all pairs of homes finds nothing more. Which pairs of homes were looked at
// is kept in a mask, pair (i, h) at number i * MOST + h.

#![tactic(auto)]

mod keys;
mod repeats;
mod seen;
mod setting;

ghost use Rattle.std.specs.Prelude.{◌≡◌, true, ◌+◌, ◌*◌, ◌<◌, ◌/◌, ◌%◌, ◌^◌};
ghost use Rattle.pairbits.specs.Bits.{is_set};
ghost use Rattle.buckets.specs.Buckets.{key_of};
ghost use Rattle.points.specs.Places.{Column};
ghost use Rattle.marking.specs.Marks.{Room, zeros};
ghost use Rattle.marking.specs.Known.{Uniform};
ghost use Rattle.settling.specs.Settle.{Done, FreshIn, Kept, LookedAt, LookedPair, RowSwept, setting, Settling, Swept, Upto, Walked, With, WithHome, WordsSwept, WordSwept};
ghost use Rattle.settling.specs.Keys.{Led};
ghost use Rattle.settling.specs.Views.{IsIndexed, setting_of};

use buckets::chain;
use distances::building::build;
use distances::index::{DistanceIndex, IndexStore};
use keys::fill_keys;
use marking::bits::test_pair;
use marking::distance::mark_distance;
use marking::notes::{Notes, first_limit};
use points::chained::ChainedPlaces;
use points::chains::CLASSES;
use points::places::{Place, linked};
use repeats::was_fired;
use seen::fill_seen;
use setting::Setting;
use types::{MOST, TermNumber};
use words::{common, contains, next_one, put, rest};

// A pair of homes, the higher one first.
fn ordered(pair: usize) -> usize {
    let i = pair / MOST;
    let h = pair % MOST;
    if i < h {
        return h * MOST + i % MOST;
    }
    pair
}

// The most noted pairs to take at a time. More than this are not lost: a look at all pairs finds them.
const TAKEN: usize = 0x4_0000;

// Looks at x and y, which are different: the pairs that they give are set. Inside a class and between classes that are apart they give
// nothing more.
fn look(
    setting: &Setting,
    by_distance: &DistanceIndex,
    x: usize,
    y: usize,
    seen: &[u64],
    pairs: &mut [u8],
    notes: &mut Notes,
)
    requires indexed { IsIndexed setting.now by_distance.now }
    requires kept { Kept (setting_of setting.now) pairs.old seen.now }
    requires x_lt_n { let T = setting.now in (x < T.places.n) × (y < T.places.n) }
    requires x_bound { let T = setting.now in (key_of T.keys.now x < T.places.n) × (key_of T.keys.now y < T.places.n) }
    requires y_value { let T = setting.now in is_set pairs.old (key_of T.keys.now x * T.places.n + key_of T.keys.now y) ≡ true }
    ensures { LookedAt (setting_of setting.now) x y pairs.old pairs.new }
{
    let a = setting.reads[x];
    let b = setting.reads[y];
    if a == b {
        return;
    }
    if setting.places.n <= a as usize {
        return;
    }
    if setting.places.n <= b as usize {
        return;
    }
    if test_pair(
        setting.places.n,
        TermNumber(a as usize),
        TermNumber(b as usize),
        setting.apart,
    ) {
        return;
    }
    let p = setting.read_heights[x];
    let q = setting.read_heights[y];
    if was_fired(setting, x, y, seen, notes) {
        return;
    }
    mark_distance(
        &setting.places,
        Place {
            class: a,
            height: p,
        },
        Place {
            class: b,
            height: q,
        },
        setting.apart,
        by_distance,
        pairs,
        notes,
    );
}

// Looks at x and each lead whose home is h.
fn look_from(
    setting: &Setting,
    by_distance: &DistanceIndex,
    x: usize,
    h: usize,
    seen: &[u64],
    pairs: &mut [u8],
    notes: &mut Notes,
)
    requires indexed { IsIndexed setting.now by_distance.now }
    requires kept { Kept (setting_of setting.now) pairs.old seen.now }
    requires x_lt_n { let T = setting.now in (x < T.places.n) × (h < T.places.n) }
    requires x_bound { let T = setting.now in (key_of T.keys.now x < T.places.n) × (is_set pairs.old (key_of T.keys.now x * T.places.n + h) ≡ true) }
    ensures { let S = setting_of setting.now in Walked S h (With S x) pairs.old pairs.new }
{
    let mut y = linked(setting.lead_first, h);
    while y < setting.places.n {
        look(setting, by_distance, x, y, seen, pairs, notes);
        y = linked(setting.lead_next, y);
    }
}

// Looks at all leads whose homes are i and h, two homes whose bit is set.
fn look_homes(
    setting: &Setting,
    by_distance: &DistanceIndex,
    i: usize,
    h: usize,
    seen: &[u64],
    pairs: &mut [u8],
    notes: &mut Notes,
)
    requires indexed { IsIndexed setting.now by_distance.now }
    requires kept { Kept (setting_of setting.now) pairs.old seen.now }
    requires i_lt_n { let T = setting.now in (i < T.places.n) × ((h < T.places.n) × (is_set pairs.old (i * T.places.n + h) ≡ true)) }
    ensures { let S = setting_of setting.now in Walked S i (WithHome S h) pairs.old pairs.new }
{
    let mut x = linked(setting.lead_first, i);
    while x < setting.places.n {
        look_from(setting, by_distance, x, h, seen, pairs, notes);
        x = linked(setting.lead_next, x);
    }
}

// Looks at the leads of a pair of homes, i * MOST + h, if its bit is set and that was not done; tells whether it was done now.
fn look_pair(
    setting: &Setting,
    by_distance: &DistanceIndex,
    pair: usize,
    pairs: &mut [u8],
    seen: &mut [u64],
    notes: &mut Notes,
) -> bool
    requires indexed { IsIndexed setting.now by_distance.now }
    requires kept { Kept (setting_of setting.now) pairs.old seen.old }
    ensures { LookedPair (setting_of setting.now) pair result pairs.old pairs.new seen.old seen.new }
{
    let i = pair / MOST;
    let h = pair % MOST;
    if setting.places.n <= i {
        return false;
    }
    if setting.places.n <= h {
        return false;
    }
    if contains(seen, pair) {
        return false;
    }
    if !test_pair(setting.places.n, TermNumber(i), TermNumber(h), pairs) {
        return false;
    }
    look_homes(setting, by_distance, i, h, seen, pairs, notes);
    put(seen, pair);
    true
}

// Looks at a pair of homes, then at those that were noted meanwhile, until more steps were taken than the limit.
fn drain(
    setting: &Setting,
    by_distance: &DistanceIndex,
    limit: u32,
    start: usize,
    pairs: &mut [u8],
    seen: &mut [u64],
    notes: &mut Notes,
) -> bool
    requires indexed { IsIndexed setting.now by_distance.now }
    requires kept { Kept (setting_of setting.now) pairs.old seen.old }
    ensures { LookedPair (setting_of setting.now) start result pairs.old pairs.new seen.old seen.new }
{
    let mut changed = false;
    let mut pair = start;
    for _ in 0..TAKEN {
        let more = look_pair(setting, by_distance, pair, pairs, seen, notes);
        changed = changed | more;
        if notes.is_over(limit) {
            return changed;
        }
        let Some(noted) = notes.pop() else {
            return changed;
        };
        pair = ordered(noted);
    }
    changed
}

// Looks at the pairs of homes that stand at the bits of a word, from pair `start` on.
fn sweep_word(
    setting: &Setting,
    by_distance: &DistanceIndex,
    limit: u32,
    start: usize,
    word: u64,
    pairs: &mut [u8],
    seen: &mut [u64],
    notes: &mut Notes,
) -> bool
    requires indexed { IsIndexed setting.now by_distance.now }
    requires kept { Kept (setting_of setting.now) pairs.old seen.old }
    requires start_bound { start + 64 < 2 ^ 64 }
    ensures { WordSwept (setting_of setting.now) start word result pairs.old pairs.new seen.old seen.new }
{
    let mut changed = false;
    let mut b = next_one(word, 0);
    while b < 64 {
        let more = drain(setting, by_distance, limit, start + b, pairs, seen, notes);
        changed = changed | more;
        if notes.is_over(limit) {
            return changed;
        }
        b = next_one(word, b + 1);
    }
    changed
}

// Looks at home i with the fresh homes whose bits are set.
fn sweep_words(
    setting: &Setting,
    by_distance: &DistanceIndex,
    limit: u32,
    i: usize,
    fresh: &[u64],
    pairs: &mut [u8],
    seen: &mut [u64],
    notes: &mut Notes,
) -> bool
    requires indexed { IsIndexed setting.now by_distance.now }
    requires kept { Kept (setting_of setting.now) pairs.old seen.old }
    requires i_lt_n { (i < setting.now.places.n) × FreshIn i fresh.now seen.old }
    ensures { WordsSwept (setting_of setting.now) fresh.now i result pairs.old pairs.new seen.old seen.new }
{
    let mut changed = false;
    for w in 0..i / 64 + 1 {
        let word = common(i * setting.places.n, pairs, fresh, 64 * w);
        let more = sweep_word(
            setting,
            by_distance,
            limit,
            i * MOST + 64 * w,
            word,
            pairs,
            seen,
            notes,
        );
        changed = changed | more;
        if changed & notes.is_over(limit) {
            return true;
        }
    }
    changed
}

// Looks at home i with the homes of leads up to it, `hosts`, whose bits are set, and that were not looked at yet.
fn sweep_row(
    setting: &Setting,
    by_distance: &DistanceIndex,
    limit: u32,
    i: usize,
    hosts: &[u64],
    pairs: &mut [u8],
    seen: &mut [u64],
    notes: &mut Notes,
) -> bool
    requires indexed { IsIndexed setting.now by_distance.now }
    requires kept { Kept (setting_of setting.now) pairs.old seen.old }
    requires i_lt_n { (i < setting.now.places.n) × Upto i hosts.now }
    ensures { RowSwept (setting_of setting.now) hosts.now i result pairs.old pairs.new seen.old seen.new }
{
    let mut fresh = [0u64; 8];
    rest(hosts, &seen[8 * i..8 * i + 8], &mut fresh);
    sweep_words(setting, by_distance, limit, i, &fresh, pairs, seen, notes)
}

// A look at all homes of leads, which are put into `hosts` one by one, unless something is set and more steps were taken than the limit.
fn sweep_rows(
    setting: &Setting,
    by_distance: &DistanceIndex,
    limit: u32,
    hosts: &mut [u64],
    pairs: &mut [u8],
    seen: &mut [u64],
    notes: &mut Notes,
) -> bool
    requires indexed { IsIndexed setting.now by_distance.now }
    requires kept { Kept (setting_of setting.now) pairs.old seen.old }
    requires hosts_value { hosts.old ≡ zeros 8 }
    ensures { Swept (setting_of setting.now) result pairs.old pairs.new seen.old seen.new }
{
    let mut changed = false;
    for i in 0..setting.places.n {
        if setting.places.n <= linked(setting.lead_first, i) {
            continue;
        }
        put(hosts, i);
        let more = sweep_row(setting, by_distance, limit, i, hosts, pairs, seen, notes);
        changed = changed | more;
        if changed & notes.is_over(limit) {
            return true;
        }
    }
    changed
}

// The same. If it sets nothing, inverse dereferencing gives nothing more.
fn sweep(
    setting: &Setting,
    by_distance: &DistanceIndex,
    limit: u32,
    pairs: &mut [u8],
    seen: &mut [u64],
    notes: &mut Notes,
) -> bool
    requires indexed { IsIndexed setting.now by_distance.now }
    requires kept { Kept (setting_of setting.now) pairs.old seen.old }
    ensures { Swept (setting_of setting.now) result pairs.old pairs.new seen.old seen.new }
{
    let mut hosts = [0u64; 8];
    sweep_rows(setting, by_distance, limit, &mut hosts, pairs, seen, notes)
}

// Looks until one sets nothing.
fn sweep_all(
    setting: &Setting,
    by_distance: &DistanceIndex,
    pairs: &mut [u8],
    seen: &mut [u64],
    notes: &mut Notes,
)
    requires indexed { IsIndexed setting.now by_distance.now }
    requires kept { Kept (setting_of setting.now) pairs.old seen.old }
    ensures { Settling (setting_of setting.now) pairs.old pairs.new }
{
    let mut again = true;
    while again {
        again = sweep(setting, by_distance, 0xFFFF_FFFF, pairs, seen, notes);
    }
}

// The same with an index, for sets whose classes are large and whose distances are many.
fn settle_indexed(setting: &Setting, pairs: &mut [u8], seen: &mut [u64], notes: &mut Notes)
    requires { Kept (setting_of setting.now) pairs.old seen.old }
    ensures { Settling (setting_of setting.now) pairs.old pairs.new }
{
    let mut store = IndexStore::EMPTY;
    build(
        setting.places.n,
        setting.places.classes,
        setting.places.heights,
        setting.reads,
        setting.apart,
        &mut store,
    );
    let by_distance = store.index();
    sweep_all(setting, &by_distance, pairs, seen, notes);
}

// Closes the table under inverse dereferencing. An index is built at once where two classes have many points; else a first look goes on
// for about as many steps as an index takes to build, and if there is more to do then, one is built.
fn settle_from(setting: &Setting, pairs: &mut [u8], seen: &mut [u64], notes: &mut Notes)
    requires { Kept (setting_of setting.now) pairs.old seen.old }
    ensures { Settling (setting_of setting.now) pairs.old pairs.new }
{
    if notes.are_many() {
        settle_indexed(setting, pairs, seen, notes);
        return;
    }
    let by_distance = DistanceIndex {
        levels: &[0; CLASSES],
        from: &[0; CLASSES],
        order: &[0; 1],
        starts: &[0; 1],
        entries: &[0; 1],
    };
    let limit = first_limit(setting.places.n);
    notes.forget_steps();
    if !sweep(setting, &by_distance, limit, pairs, seen, notes) {
        return;
    }
    if notes.is_over(limit) {
        settle_indexed(setting, pairs, seen, notes);
        return;
    }
    sweep_all(setting, &by_distance, pairs, seen, notes);
}

// The same, from homes and leads. Public for the crate `differences`.
pub fn settle(
    places: &ChainedPlaces,
    count: usize,
    leads: &[u16],
    homes: &[u32],
    reads: &[u32],
    read_heights: &[u64],
    apart: &[u8],
    pairs: &mut [u8],
    notes: &mut Notes,
)
    requires { let P = places.now in Column P.n reads.now read_heights.now ×
        (Led P.n count homes.now leads.now × (Room P.n apart.now × (Room P.n pairs.old × Uniform P.n P.classes.now P.heights.now pairs.old))) }
    ensures { let P = places.now in Done (setting P.n P.classes.now P.heights.now homes.now reads.now read_heights.now apart.now) count leads.now pairs.old pairs.new }
{
    let mut keys = [512u32; MOST];
    let mut lead_first = [0u16; CLASSES];
    let mut lead_next = [0u16; MOST];
    let mut seen = [0u64; 4096];
    fill_keys(places.n, count, leads, homes, &mut keys);
    chain(places.n, &keys, &mut lead_first, &mut lead_next);
    fill_seen(
        places.n,
        &keys,
        &lead_first,
        &lead_next,
        reads,
        read_heights,
        &mut seen,
    );
    let setting = Setting {
        places: *places,
        keys: &keys,
        lead_first: &lead_first,
        lead_next: &lead_next,
        reads,
        read_heights,
        apart,
    };
    settle_from(&setting, pairs, &mut seen, notes);
}
