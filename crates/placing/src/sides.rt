// The places of the sides of propositions.
ghost use Rattle.std.specs.Prelude.{◌≡◌, ◌+◌, ◌<◌, ◌≤◌, pos, ◌+ℤ◌, length, get_or};
ghost use Rattle.integers.specs.Within.{Within};
ghost use Rattle.tables.specs.Limits.{most, offset_limit};
ghost use Rattle.tables.specs.Rows.{proposition_in};
ghost use Rattle.placing.specs.Filling.{Lifted, SidePlaces};
ghost use Rattle.placing.specs.Placed.{LabelledSides, LeftClass, Near};

use crate::heights::{lifted, moved};
use crate::reads::no_class;
use tables::{PropositionRow, proposition_at};
use types::{DISEQUALITY, MOST, PropositionNumber, index};

// The class of the left side of proposition k, if it is a disequality.
fn left_class(n: usize, propositions: &[PropositionRow], reps: &[u32], k: PropositionNumber) -> u32
    requires { (k.0 < length propositions.now) × ((n ≤ most) × ((proposition_in propositions.now k.0).left < length reps.now)) }
    ensures { LeftClass n (proposition_in propositions.now k.0) reps.now result }
{
    let r = proposition_at(propositions, k);
    if r.kind != DISEQUALITY {
        return no_class(n);
    }
    let left = index(r.left);
    reps[left]
}

// The height of the left side.
fn left_height(propositions: &[PropositionRow], offs: &[i64], k: PropositionNumber) -> u64
    requires { (k.0 < length propositions.now) × Near offs.now (proposition_in propositions.now k.0).left }
    ensures { Lifted result (get_or offs.now (proposition_in propositions.now k.0).left (pos 0)) }
{
    let r = proposition_at(propositions, k);
    let left = index(r.left);
    lifted(offs[left])
}

// The class of the right side.
fn right_class(propositions: &[PropositionRow], reps: &[u32], k: PropositionNumber) -> u32
    requires { (k.0 < length propositions.now) × ((proposition_in propositions.now k.0).right < length reps.now) }
    ensures { result ≡ get_or reps.now (proposition_in propositions.now k.0).right 0 }
{
    let r = proposition_at(propositions, k);
    let right = index(r.right);
    reps[right]
}

// The height of the right side, with the offset.
fn right_height(propositions: &[PropositionRow], offs: &[i64], k: PropositionNumber) -> u64
    requires { (k.0 < length propositions.now) × (Within offset_limit (proposition_in propositions.now k.0).offset × Near offs.now (proposition_in propositions.now k.0).right) }
    ensures { Lifted result ((proposition_in propositions.now k.0).offset +ℤ get_or offs.now (proposition_in propositions.now k.0).right (pos 0)) }
{
    let r = proposition_at(propositions, k);
    let right = index(r.right);
    moved(r.offset, offs[right])
}

// The memory of the places of all sides.
#[derive(Drop)]
pub struct SideColumns {
    pub left_classes: [u32; MOST],
    pub left_heights: [u64; MOST],
    pub right_classes: [u32; MOST],
    pub right_heights: [u64; MOST],
}

impl SideColumns {
    pub const EMPTY: Self = SideColumns {
        left_classes: [0; MOST],
        left_heights: [0; MOST],
        right_classes: [0; MOST],
        right_heights: [0; MOST],
    };
}

// The places of the sides of proposition k, after those of the propositions before it.
fn fill_side(
    n: usize,
    propositions: &[PropositionRow],
    reps: &[u32],
    offs: &[i64],
    k: PropositionNumber,
    columns: &mut SideColumns,
)
    requires labelled_sides { LabelledSides n propositions.now reps.now offs.now × (k.0 < length propositions.now) }
    requires side_places { let C = columns.old in SidePlaces n (proposition_in propositions.now) reps.now offs.now k.0 C.left_classes C.left_heights C.right_classes C.right_heights }
    ensures { let C = columns.new in SidePlaces n (proposition_in propositions.now) reps.now offs.now (k.0 + 1) C.left_classes C.left_heights C.right_classes C.right_heights }
{
    let j = k.0;
    columns.left_classes[j] = left_class(n, propositions, reps, k);
    columns.left_heights[j] = left_height(propositions, offs, k);
    columns.right_classes[j] = right_class(propositions, reps, k);
    columns.right_heights[j] = right_height(propositions, offs, k);
}

// The places of the sides of the propositions. Public for the crate `columns`.
pub fn fill_sides(
    n: usize,
    propositions: &[PropositionRow],
    reps: &[u32],
    offs: &[i64],
    columns: &mut SideColumns,
)
    requires { LabelledSides n propositions.now reps.now offs.now }
    ensures { let C = columns.new in SidePlaces n (proposition_in propositions.now) reps.now offs.now (length propositions.now) C.left_classes C.left_heights C.right_classes C.right_heights }
{
    for k in 0..propositions.len() {
        fill_side(n, propositions, reps, offs, PropositionNumber(k), columns);
    }
}
