// Dereferences that read places as far apart as two that were looked at give the same pairs.
ghost use Rattle.std.specs.Prelude.{◌≡◌, true, ◌<◌, ◌≤◌};
ghost use Rattle.tables.specs.Limits.{most};
ghost use Rattle.points.specs.Places.{top};
ghost use Rattle.settling.specs.Settle.{Repeated};

use crate::setting::Setting;
use marking::notes::Notes;
use points::places::{Place, SLOTS, TOP, slot};
use types::{MOST, TermNumber};
use words::contains;

// The bucket of the distance between two places. Nothing relies on it.
fn fact_bucket(x: Place, y: Place) -> usize
    requires { (x.class ≤ most) × ((x.height < top) × (y.height < top)) }
{
    (slot(x.class, x.height + TOP - y.height) + (y.class as usize) * 97) % SLOTS
}

// Whether two dereferences that were noted were looked at, and read places as far apart as x and y.
fn is_repeated(setting: &Setting, x: usize, y: usize, noted: usize, seen: &[u64]) -> bool
    requires { let T = setting.now in (x < T.places.n) × (y < T.places.n) }
    ensures { let T = setting.now in result ≡ true → Repeated T.places.n T.keys.now T.reads.now T.read_heights.now seen.now x y }
{
    let u = noted / MOST;
    let v = noted % MOST;
    if setting.places.n <= u {
        return false;
    }
    if setting.places.n <= v {
        return false;
    }
    let i = setting.keys[u] as usize;
    let j = setting.keys[v] as usize;
    if setting.places.n <= i {
        return false;
    }
    if setting.places.n <= j {
        return false;
    }
    if !contains(seen, i * MOST + j) {
        return false;
    }
    (setting.reads[u] == setting.reads[x])
        & (setting.reads[v] == setting.reads[y])
        & (setting.read_heights[u] + setting.read_heights[y]
            == setting.read_heights[v] + setting.read_heights[x])
}

// Whether dereferences that read places as far apart as x and y were noted and looked at; notes x and y. Between classes of few points a
// look is quicker than the notes.
pub(crate) fn was_fired(
    setting: &Setting,
    x: usize,
    y: usize,
    seen: &[u64],
    notes: &mut Notes,
) -> bool
    requires { let T = setting.now in (x < T.places.n) × (y < T.places.n) }
    ensures { let T = setting.now in result ≡ true → Repeated T.places.n T.keys.now T.reads.now T.read_heights.now seen.now x y }
{
    if notes.are_few(setting.reads[x], setting.reads[y]) {
        return false;
    }
    let k = fact_bucket(
        Place {
            class: setting.reads[x],
            height: setting.read_heights[x],
        },
        Place {
            class: setting.reads[y],
            height: setting.read_heights[y],
        },
    );
    let noted = notes.last_fired(k);
    notes.note_fired(k, TermNumber(x), TermNumber(y));
    is_repeated(setting, x, y, noted, seen)
}
