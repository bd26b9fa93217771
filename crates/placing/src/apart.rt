// The table of apart classes: the bit of two representatives is set where their classes are given apart.
ghost use Rattle.std.specs.Prelude.{◌≡◌, ◌<◌, eqb, length, get_or};
ghost use Rattle.tables.specs.Records.{variable_kind};
ghost use Rattle.tables.specs.Rows.{term_in, proposition_in};
ghost use Rattle.tables.specs.Sets.{set_of};
ghost use Rattle.marking.specs.Marks.{Adds, Inside, Room, Upto, zeros};
ghost use Rattle.marking.specs.Rows.{Below};
ghost use Rattle.placing.specs.Apart.{ApartClasses, BlockPair, Gathered, VariablePair, VariablePut, VariableRow};
ghost use Rattle.placing.specs.Placed.{Classed, Classes};

use marking::base::mark_masked;
use marking::bits::{set_both, set_pair};
use tables::{PropositionRow, TermRow, proposition_at, term_at};
use types::{BLOCK_DISEQUALITY, PropositionNumber, TermNumber, VARIABLE, index};
use words::{contains, put};

// The class of term t, as the number of a term.
fn class_of(reps: &[u32], t: usize) -> TermNumber
    requires { t < length reps.now }
    ensures { result.0 ≡ get_or reps.now t 0 }
{
    TermNumber(reps[t] as usize)
}

fn is_variable(terms: &[TermRow], t: TermNumber) -> bool
    requires { t.0 < length terms.now }
    ensures { result ≡ eqb (term_in terms.now t.0).kind variable_kind }
{
    term_at(terms, t).kind == VARIABLE
}

// The classes of proposition k, if it is a block disequality.
fn mark_block(
    terms: &[TermRow],
    propositions: &[PropositionRow],
    reps: &[u32],
    k: PropositionNumber,
    table: &mut [u8],
)
    requires { Classed terms.now propositions.now reps.now × ((k.0 < length propositions.now) × Room (length terms.now) table.old) }
    ensures { Adds (length terms.now) (BlockPair (proposition_in propositions.now) reps.now k.0) table.old table.new }
{
    let r = proposition_at(propositions, k);
    if r.kind != BLOCK_DISEQUALITY {
        return;
    }
    let a = class_of(reps, index(r.left));
    let b = class_of(reps, index(r.right));
    set_both(terms.len(), a, b, table);
}

// The classes of block disequalities.
fn mark_blocks(terms: &[TermRow], propositions: &[PropositionRow], reps: &[u32], table: &mut [u8])
    requires { Classed terms.now propositions.now reps.now × Room (length terms.now) table.old }
    ensures { Adds (length terms.now) (Upto (length propositions.now) (BlockPair (proposition_in propositions.now) reps.now)) table.old table.new }
{
    for k in 0..propositions.len() {
        mark_block(terms, propositions, reps, PropositionNumber(k), table);
    }
}

// Puts a class into a mask, and sets its own bit if it is there already.
fn put_class(n: usize, c: TermNumber, mask: &mut [u64], table: &mut [u8])
    requires { Inside n c.0 c.0 × ((length mask.old ≡ 8) × Room n table.old) }
    ensures { VariablePut n c.0 mask.old mask.new table.old table.new }
{
    let k = c.0;
    if contains(mask, k) {
        set_pair(n, c, c, table);
        return;
    }
    put(mask, k);
}

// Puts the class of each variable into a mask. Where two variables are in one class, it is apart from itself.
fn put_variables(terms: &[TermRow], reps: &[u32], mask: &mut [u64], table: &mut [u8])
    requires { Classes (length terms.now) reps.now × ((mask.old ≡ zeros 8) × Room (length terms.now) table.old) }
    ensures { Gathered (length terms.now) (term_in terms.now) reps.now (length terms.now) mask.new table.old table.new }
{
    for i in 0..terms.len() {
        if !is_variable(terms, TermNumber(i)) {
            continue;
        }
        put_class(terms.len(), class_of(reps, i), mask, table);
    }
}

// The class of each variable with those of a mask but itself.
fn mark_rows(terms: &[TermRow], reps: &[u32], mask: &[u64], table: &mut [u8])
    requires { Classes (length terms.now) reps.now × (Below (length terms.now) mask.now × Room (length terms.now) table.old) }
    ensures { Adds (length terms.now) (Upto (length terms.now) (VariableRow (length terms.now) (term_in terms.now) reps.now mask.now)) table.old table.new }
{
    for i in 0..terms.len() {
        if !is_variable(terms, TermNumber(i)) {
            continue;
        }
        let c = class_of(reps, i);
        mark_masked(terms.len(), c, c.0, mask, table);
    }
}

// The classes of variables.
fn mark_variables(terms: &[TermRow], reps: &[u32], table: &mut [u8])
    requires { Classes (length terms.now) reps.now × Room (length terms.now) table.old }
    ensures { Adds (length terms.now) (Upto (length terms.now) (λ i. Upto (length terms.now) (VariablePair (term_in terms.now) reps.now i))) table.old table.new }
{
    let mut mask = [0u64; 8];
    put_variables(terms, reps, &mut mask, table);
    mark_rows(terms, reps, &mask, table);
}

// Both. Public for the crate `columns`.
pub fn apart_classes(
    terms: &[TermRow],
    propositions: &[PropositionRow],
    reps: &[u32],
    table: &mut [u8],
)
    requires { Classed terms.now propositions.now reps.now × Room (length terms.now) table.old }
    ensures { Adds (length terms.now) (ApartClasses (set_of terms.now propositions.now) reps.now) table.old table.new }
{
    mark_blocks(terms, propositions, reps, table);
    mark_variables(terms, reps, table);
}
