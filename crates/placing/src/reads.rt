// The places that dereferences read.
ghost use Rattle.std.specs.Prelude.{◌≡◌, ◌+◌, ◌<◌, ◌≤◌, length};
ghost use Rattle.integers.specs.Within.{Within};
ghost use Rattle.tables.specs.Limits.{most, offset_limit};
ghost use Rattle.tables.specs.Records.{deref_kind};
ghost use Rattle.tables.specs.Rows.{term_in};
ghost use Rattle.placing.specs.Filling.{ReadPlaces};
ghost use Rattle.placing.specs.Placed.{LabelledTerms, Near, ReadClass, ReadHeight};

use crate::heights::moved;
use tables::{TermRow, term_at};
use types::{DEREF, TermNumber, index};

// The class that stands for none: the number of terms, in 32 bits.
pub(crate) fn no_class(n: usize) -> u32
    requires { n ≤ most }
    ensures { result ≡ n }
{
    n as u32
}

// The class that term t reads, if it is a dereference.
fn read_class(terms: &[TermRow], reps: &[u32], t: TermNumber) -> u32
    requires t_in_bounds { (t.0 < length terms.now) × (length terms.now ≤ most) }
    requires t_in_bounds_2 { (term_in terms.now t.0).kind ≡ deref_kind → (term_in terms.now t.0).number < length reps.now }
    ensures { ReadClass (length terms.now) (term_in terms.now t.0) reps.now result }
{
    let r = term_at(terms, t);
    if r.kind != DEREF {
        return no_class(terms.len());
    }
    let inner = index(r.number);
    reps[inner]
}

// The height that it reads.
fn read_height(terms: &[TermRow], offs: &[i64], t: TermNumber) -> u64
    requires t_in_bounds { t.0 < length terms.now }
    requires within { (term_in terms.now t.0).kind ≡ deref_kind → Within offset_limit (term_in terms.now t.0).offset × Near offs.now (term_in terms.now t.0).number }
    ensures { ReadHeight (term_in terms.now t.0) offs.now result }
{
    let r = term_at(terms, t);
    if r.kind != DEREF {
        return 0;
    }
    let inner = index(r.number);
    moved(r.offset, offs[inner])
}

// The place that term t reads, after those of the terms before it.
fn fill_read(
    terms: &[TermRow],
    reps: &[u32],
    offs: &[i64],
    t: TermNumber,
    reads: &mut [u32],
    read_heights: &mut [u64],
)
    requires labelled_terms { LabelledTerms terms.now reps.now offs.now × (t.0 < length terms.now) }
    requires read_places { ReadPlaces (length terms.now) (term_in terms.now) reps.now offs.now t.0 reads.old read_heights.old }
    ensures { ReadPlaces (length terms.now) (term_in terms.now) reps.now offs.now (t.0 + 1) reads.new read_heights.new }
{
    let k = t.0;
    reads[k] = read_class(terms, reps, t);
    read_heights[k] = read_height(terms, offs, t);
}

// The places that the terms read. Public for the crate `columns`.
pub fn fill_reads(
    terms: &[TermRow],
    reps: &[u32],
    offs: &[i64],
    reads: &mut [u32],
    read_heights: &mut [u64],
)
    requires labelled_terms { LabelledTerms terms.now reps.now offs.now }
    requires reads_len { (length reads.old ≡ most) × (length read_heights.old ≡ most) }
    ensures { ReadPlaces (length terms.now) (term_in terms.now) reps.now offs.now (length terms.now) reads.new read_heights.new }
{
    for t in 0..terms.len() {
        fill_read(terms, reps, offs, TermNumber(t), reads, read_heights);
    }
}
