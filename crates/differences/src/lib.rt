// The pair table of an accepted set, by the places of its terms, of what its dereferences read and of the sides of its disequalities.

#![tactic(auto)]

pub mod set;

ghost use Rattle.std.specs.Prelude.{◌≡◌, ◌≤◌, length};
ghost use Rattle.points.specs.Homes.{Homes, Unique};
ghost use Rattle.marking.specs.Marks.{Room, zeros};
ghost use Rattle.marking.specs.Classes.{Sides};
ghost use Rattle.differences.specs.Table.{Based};
ghost use Rattle.differences.specs.Views.{PlacedOf, ToldOf};

use expansion::expand;
use marking::base::{mark_classes, mark_listed};
use marking::notes::Notes;
use points::chained::ChainedPlaces;
use points::chains::{PlaceChains, chain_places};
use points::homes::{fill_homes, fill_points};
use points::leads::fill_leads;
use points::sides::SidePlaces;
use set::SetPlaces;
use settling::settle;
use types::MOST;

// Clears a table.
fn clear(table: &mut [u8])
    ensures { table.new ≡ zeros (length table.old) }
{
    table.fill(0);
}

// What is set by classes and by disequalities, at homes.
fn mark_base(
    places: &ChainedPlaces,
    m: usize,
    sides: &SidePlaces,
    apart: &[u8],
    pairs: &mut [u8],
    notes: &mut Notes,
)
    requires unique { let P = places.now in Unique P.n P.classes.now P.heights.now }
    requires sides { let P = places.now in let S = sides.now in Sides P.n m S.left_classes.now S.left_heights.now S.right_classes.now S.right_heights.now × (Room P.n apart.now × Room P.n pairs.old) }
    ensures { let P = places.now in let S = sides.now in
        Based P.n m P.classes.now P.heights.now S.left_classes.now S.left_heights.now S.right_classes.now S.right_heights.now apart.now (length pairs.old) pairs.new }
{
    clear(pairs);
    mark_classes(places, apart, pairs);
    mark_listed(places, m, sides, pairs, notes);
}

// Notes which homes have readers.
fn note_readers(count: usize, leads: &[u16], homes: &[u32], notes: &mut Notes)
    requires { count ≤ length leads.now }
{
    for x in &leads[..count] {
        if let Some(home) = homes.get(usize::from(*x)) {
            notes.note_reader(*home as usize);
        }
    }
}

// The home of each term.
fn find_homes(set: &SetPlaces, homes: &mut [u32])
    requires { set.now.n ≤ length homes.old }
    ensures { let S = set.now in Homes S.n S.classes.now S.heights.now homes.new }
{
    let mut chains = PlaceChains::EMPTY;
    chain_places(set.n, set.classes, set.heights, &mut chains);
    fill_homes(
        set.n,
        set.classes,
        set.heights,
        &chains.slot_first,
        &chains.slot_next,
        homes,
    );
}

// The same as `pair_table`, with homes, points and leads.
fn fill_table(
    set: &SetPlaces,
    count: usize,
    homes: &[u32],
    points: &[u32],
    leads: &[u16],
    pairs: &mut [u8],
)
    requires { PlacedOf set.now count homes.now points.now leads.now × Room set.now.n pairs.old }
    ensures { ToldOf set.now (length pairs.old) pairs.new }
{
    let mut chains = PlaceChains::EMPTY;
    let mut notes = Notes::EMPTY;
    chain_places(set.n, points, set.heights, &mut chains);
    let places = ChainedPlaces {
        n: set.n,
        classes: points,
        heights: set.heights,
        class_first: &chains.class_first,
        class_next: &chains.class_next,
        slot_first: &chains.slot_first,
        slot_next: &chains.slot_next,
    };
    notes.count_points(points);
    note_readers(count, leads, homes, &mut notes);
    mark_base(&places, set.m, &set.sides, set.apart, pairs, &mut notes);
    settle(
        &places,
        count,
        leads,
        homes,
        set.reads,
        set.read_heights,
        set.apart,
        pairs,
        &mut notes,
    );
    expand(set.n, set.classes, set.heights, homes, pairs);
}

// The pair table of a set: bit i * n + j is 1 where term i is different from 0 + term j. Public for the crate `columns`.
pub fn pair_table(set: &SetPlaces, pairs: &mut [u8])
    requires { Room set.now.n pairs.old }
    ensures { ToldOf set.now (length pairs.old) pairs.new }
{
    let mut homes = [0u32; MOST];
    let mut points = [0u32; MOST];
    let mut leads = [0u16; MOST];
    find_homes(set, &mut homes);
    fill_points(set.n, set.classes, &homes, &mut points);
    let count = fill_leads(set.n, &homes, set.reads, set.read_heights, &mut leads);
    fill_table(set, count, &homes, &points, &leads, pairs);
}
