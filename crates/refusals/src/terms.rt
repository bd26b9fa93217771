// The refusals of term records: 9, 4 and 5.
ghost use Rattle.std.specs.Prelude.{◌≡◌, ◌<◌, length};
ghost use Rattle.lists.specs.Search.{is_some};
ghost use Rattle.tables.specs.Records.{term_of};
ghost use Rattle.tables.specs.Refusals.{first_fault};
ghost use Rattle.tables.specs.Rows.{term_in};
ghost use Rattle.tables.specs.TermTable.{terms_fault};
ghost use Rattle.tables.specs.TableFaults.{acceptance};
ghost use Rattle.refusals.specs.FirstFault.{judged, place_of};
ghost use Rattle.refusals.specs.Terms.{own_fault, own_fault_at, repeated, repeat_fault_at};
ghost use Rattle.refusals.specs.Listed.{bit_of_atom, Noted};

use crate::each::judge_each;
use crate::fields::in_range;
use offsets::is_same;
use pairbits::{set_bit, test_bit};
use tables::atoms::{is_atom, same_atom};
use tables::{TermRow, term_at};
use types::{ATOMS, AUXILIARY, DEREF, Fault, Refusal, TermNumber, TermRecord, VARIABLE};

// Whether a record stands for a term.
fn is_term(r: TermRecord) -> bool
    ensures { result ≡ is_some (term_of r) }
{
    match r.kind {
        VARIABLE | AUXILIARY => (r.number < ATOMS) & is_same(r.offset, 0),
        DEREF => in_range(r.offset),
        _ => false,
    }
}

// Term record t by itself: 9, then 4.
fn judge_term(r: TermRecord, t: TermNumber) -> Result<(), Fault>
    ensures { result ≡ judged t.0 (own_fault t.0 r) }
{
    if !is_term(r) {
        return Err(Refusal::Malformed.at(t.0));
    }
    if (r.kind == DEREF) & (t.0 <= r.number as usize) {
        return Err(Refusal::InnerNotListed.at(t.0));
    }
    Ok(())
}

// The first term record that is refused by itself.
fn first_own_fault(terms: &[TermRow]) -> Result<(), Fault>
    ensures { result ≡ acceptance (first_fault (own_fault_at (term_in terms.now)) 0 (length terms.now)) }
{
    judge_each(terms.len(), |i| {
        let t = TermNumber(i);
        judge_term(term_at(terms, t), t)
    })
}

// Bytes that hold a bit for each variable and each auxiliary.
const LISTED: usize = 2 * ATOMS as usize / 8;

// The bit of an atom: those of variables, then those of auxiliaries.
fn atom_bit(r: TermRecord) -> usize
    ensures { result ≡ bit_of_atom r }
{
    let number = r.number % ATOMS;
    let bit = if r.kind == VARIABLE {
        number
    } else {
        number + ATOMS
    };
    bit as usize
}

// Sets the bit of a record's atom, if it is of one; tells whether the bit was 0, so that no record before lists the atom.
fn note_atom(listed: &mut [u8; LISTED], r: TermRecord) -> bool
    ensures { Noted listed.old listed.new r result }
{
    if !is_atom(r.kind) {
        return true;
    }
    let bit = atom_bit(r);
    if test_bit(listed, bit) {
        return false;
    }
    set_bit(listed, bit);
    true
}

// Whether a record before record t is of the same atom.
fn is_repeated(terms: &[TermRow], t: TermNumber) -> bool
    requires { t.0 < length terms.now }
    ensures { result ≡ repeated (term_in terms.now) t.0 }
{
    let term = term_at(terms, t);
    (0..t.0).any(|j| same_atom(term, term_at(terms, TermNumber(j))))
}

// The place of the first term record that lists an atom again. Only a record whose atom's bit is set already is compared with those
// before it.
fn first_repeat(terms: &[TermRow]) -> Option<usize>
    ensures { result ≡ place_of (first_fault (repeat_fault_at (term_in terms.now)) 0 (length terms.now)) }
{
    let mut listed = [0u8; LISTED];
    for i in 0..terms.len() {
        let t = TermNumber(i);
        if !note_atom(&mut listed, term_at(terms, t)) && is_repeated(terms, t) {
            return Some(i);
        }
    }
    None
}

// The first refusal of the term records. At one place 9 and 4 come before 5.
pub(crate) fn check_terms(terms: &[TermRow]) -> Result<(), Fault>
    ensures { result ≡ acceptance (terms_fault (length terms.now) (term_in terms.now)) }
{
    let own = first_own_fault(terms);
    let Some(place) = first_repeat(terms) else {
        return own;
    };
    match own {
        Err(fault) if fault.place <= place => Err(fault),
        _ => Err(Refusal::AtomListedTwice.at(place)),
    }
}
