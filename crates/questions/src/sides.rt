// The chains of the disequalities by their left class and the distance of their sides.
ghost use Rattle.std.specs.Prelude.{◌≡◌, ◌<◌, ◌≤◌, length};
ghost use Rattle.lists.specs.Filled.{Filled};
ghost use Rattle.points.specs.Places.{slots};
ghost use Rattle.questions.specs.Sides.{SideChains, SideColumns, slot_of_side};

use buckets::chain;
use points::places::{TOP, slot};
use points::sides::SidePlaces;
use types::{MOST, PropositionNumber};

// A number below that of the buckets, in 32 bits.
fn narrow(slot: usize) -> u32
    requires { slot < slots }
    ensures { result ≡ slot }
{
    slot as u32
}

// The bucket of proposition k.
fn side_slot(m: usize, k: PropositionNumber, sides: &SidePlaces) -> u32
    requires { let S = sides.now in SideColumns m S.left_classes.now S.left_heights.now S.right_heights.now × (k.0 < m) }
    ensures { let S = sides.now in result ≡ slot_of_side S.left_classes.now S.left_heights.now S.right_heights.now k.0 }
{
    let i = k.0;
    let far = sides.left_heights[i] + TOP - sides.right_heights[i];
    narrow(slot(sides.left_classes[i], far))
}

// The bucket of each proposition.
fn side_slots(m: usize, sides: &SidePlaces, slotted: &mut [u32])
    requires { let S = sides.now in SideColumns m S.left_classes.now S.left_heights.now S.right_heights.now × (m ≤ length slotted.old) }
    ensures { let S = sides.now in Filled (slot_of_side S.left_classes.now S.left_heights.now S.right_heights.now) 0 m (length slotted.old) slotted.new }
{
    for k in 0..m {
        slotted[k] = side_slot(m, PropositionNumber(k), sides);
    }
}

// Makes the chains. Public for the crate `columns`.
pub fn chain_sides(m: usize, sides: &SidePlaces, first: &mut [u16], next: &mut [u16])
    requires { let S = sides.now in SideColumns m S.left_classes.now S.left_heights.now S.right_heights.now × ((length first.old ≡ slots) × (m ≤ length next.old)) }
    ensures { let S = sides.now in SideChains m S.left_classes.now S.left_heights.now S.right_heights.now first.new next.new }
{
    let mut slotted = [0u32; MOST];
    side_slots(m, sides, &mut slotted);
    chain(m, &slotted, first, next);
}
