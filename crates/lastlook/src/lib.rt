// The last look of the congruence closure: two dereferences of one address with different labels, or the proof that there are none.
// The dereferences are sorted by class and address. How they are sorted is not relied on: a test of the order carries the proof, and
// if it should fail, all pairs are looked at. Loops go over the numbers of terms, by which labels are read.

#![tactic(auto)]

ghost use Rattle.std.specs.Prelude.{◌≡◌, ℕ, ◌*◌, ◌^◌, ◌≤◌, ◌<◌, eqb, true, false, pos, length, get_or, None, IfSome, IsTrue};
ghost use Rattle.labels.specs.View.{view};
ghost use Rattle.closure.specs.Facts.{comparison};
ghost use Rattle.closure.specs.Verdict.{holds};
ghost use Rattle.tables.specs.Limits.{most};
ghost use Rattle.tables.specs.Records.{deref_kind};
ghost use Rattle.tables.specs.Rows.{term_in};
ghost use Rattle.lastlook.specs.Addresses.{Labelled, address_of, Meeting, Unequal, Alike, Looked};
ghost use Rattle.lastlook.specs.Order.{key_of, word_of, reader_in, Tested, Follows, Ordered, Shown, Standing};

use offsets::{bits, is_same, sum};
use sorting::sort;
use tables::{TermRow, term_at};
use types::{DEREF, MOST, TermNumber};

type Words = [u64; MOST];

// A word is a key times this, and the number of a term, which is below it.
const NUMBERS: u64 = MOST as u64;

// Numbers of 32 bits.
const WORD: u64 = 0x1_0000_0000;

// Why a word does not follow the one before it: they are a pair of one address with different labels, or not in order.
#[derive(Clone, Copy)]
enum Disorder {
    Pair(TermNumber, TermNumber),
    Unordered,
}

// What is noted for a class: that no dereference reads it; one whose label all have that do; or that these have several labels.
#[derive(Clone, Copy)]
enum Reader {
    None,
    One(TermNumber),
    Many,
}

type Readers = [Reader; MOST];

// One number for a class and an address, which is within 2^42: equal for equal ones, and for no others. Its highest bits, by which words
// are sorted first, are spread by factors.
fn key(class: u32, address: i64) -> u64
    requires { class < most }
    ensures { (result ≡ key_of class address) × (result < 2 ^ 53) }
{
    let c = u64::from(class);
    let a = bits(address);
    let spread = (a % WORD * 2654435761 + c * 2246822519) % WORD;
    (spread * NUMBERS + c) * 4096 + a / WORD % 4096
}

// Notes the place of each of the words by the number of its term, in 16 bits: each look clears them.
fn note_places(words: &[u64], places: &mut [u16; MOST]) {
    for (i, word) in words.iter().enumerate() {
        places[(*word % NUMBERS) as usize] = (i % MOST) as u16;
    }
}

// Accepted terms and their labels: by term the representative of its class, and its offset from there.
#[derive(Clone, Copy)]
struct LabelledTerms<'a> {
    terms: &'a [TermRow],
    representatives: &'a [u32],
    offsets: &'a [i64],
    ghost labelled: { Labelled terms.now representatives.now offsets.now },
}

impl<'a> LabelledTerms<'a> {
    ghost use Rattle.lastlook.specs.Terms.{count, records, labels};

    fn is_deref(&self, x: TermNumber) -> bool
        requires { x.0 < count self.now }
        ensures { result ≡ eqb (records self.now x.0).kind deref_kind }
    {
        term_at(self.terms, x).kind == DEREF
    }

    // The class of the term inside the dereference x.
    fn class_of(&self, x: TermNumber) -> u32
        requires { (x.0 < count self.now) × ((records self.now x.0).kind ≡ deref_kind) }
        ensures class { result ≡ (labels self.now).block (records self.now x.0).number }
        ensures few { result < most }
    {
        self.representatives[term_at(self.terms, x).number as usize]
    }

    // The address that the dereference x reads, as an offset from the representative of the term inside.
    fn address_of(&self, x: TermNumber) -> i64
        requires { (x.0 < count self.now) × ((records self.now x.0).kind ≡ deref_kind) }
        ensures { result ≡ address_of (records self.now) (labels self.now) x.0 }
    {
        let r = term_at(self.terms, x);
        sum(r.offset, self.offsets[r.number as usize])
    }

    // Whether x and y have one label.
    fn same_label(&self, x: TermNumber, y: TermNumber) -> bool
        requires { (x.0 < count self.now) × (y.0 < count self.now) }
        ensures { result ≡ holds (labels self.now) (comparison x.0 (pos 0) y.0) }
    {
        if self.representatives[x.0] != self.representatives[y.0] {
            return false;
        }
        is_same(self.offsets[x.0], self.offsets[y.0])
    }

    // Whether x and y are dereferences of one address.
    fn same_address(&self, x: TermNumber, y: TermNumber) -> bool
        requires { (x.0 < count self.now) × (y.0 < count self.now) }
        ensures { Meeting (records self.now) (labels self.now) x.0 y.0 result }
    {
        if !self.is_deref(x) || !self.is_deref(y) {
            return false;
        }
        if self.class_of(x) != self.class_of(y) {
            return false;
        }
        is_same(self.address_of(x), self.address_of(y))
    }

    // Whether x and y are dereferences of one address with different labels.
    fn is_unequal(&self, x: TermNumber, y: TermNumber) -> bool
        requires { (x.0 < count self.now) × (y.0 < count self.now) }
        ensures { Unequal (records self.now) (labels self.now) x.0 y.0 result }
    {
        self.same_address(x, y) && !self.same_label(x, y)
    }

    // The word of the dereference x: its key, and x in the lowest 9 bits.
    fn word(&self, x: TermNumber) -> u64
        requires { (x.0 < count self.now) × ((records self.now x.0).kind ≡ deref_kind) }
        ensures { result ≡ word_of (records self.now) (labels self.now) x.0 }
    {
        let k = key(self.class_of(x), self.address_of(x));
        k * NUMBERS + x.0 as u64
    }

    // Whether x has the label of the reader that is noted.
    fn is_alike(&self, reader: Reader, x: TermNumber) -> bool
        requires { x.0 < count self.now }
        ensures { Alike (count self.now) (labels self.now) reader x.0 result }
    {
        match reader {
            Reader::None => false,
            Reader::One(r) => r.0 < self.terms.len() && self.same_label(r, x),
            Reader::Many => false,
        }
    }

    // What is noted for a class that x reads, too.
    fn note_reader(&self, reader: Reader, x: TermNumber) -> Reader
        requires { x.0 < count self.now }
    {
        if let Reader::None = reader {
            return Reader::One(x);
        }
        if self.is_alike(reader, x) {
            reader
        } else {
            Reader::Many
        }
    }

    // Notes the readers of each class, in lent notes: as a result they would be copied.
    fn note_readers(&self, readers: &mut Readers) {
        for t in 0..self.terms.len() {
            let x = TermNumber(t);
            if self.is_deref(x) {
                let class = self.class_of(x) as usize;
                readers[class] = self.note_reader(readers[class], x);
            }
        }
    }

    // What is noted for the class that the dereference x reads.
    fn reader_of(&self, readers: &Readers, x: TermNumber) -> Reader
        requires { (x.0 < count self.now) × ((records self.now x.0).kind ≡ deref_kind) }
        ensures { result ≡ reader_in (records self.now) (labels self.now) readers.now x.0 }
    {
        readers[self.class_of(x) as usize]
    }

    // Lists the words of the dereferences that read a class noted to have many labels, and returns how many there are.
    fn list_words(&self, readers: &Readers, words: &mut Words) -> usize
        ensures { result ≤ most }
    {
        let mut count = 0;
        for t in 0..self.terms.len() {
            let x = TermNumber(t);
            if self.is_deref(x) && matches!(self.reader_of(readers, x), Reader::Many) {
                words[count] = self.word(x);
                count += 1;
            }
        }
        count
    }

    // Whether the dereference x has the label of the reader noted for its class; or these are many, and its word stands at its noted place.
    fn stands(&self, readers: &Readers, words: &[u64], places: &[u16; MOST], x: TermNumber) -> bool
        requires { (x.0 < count self.now) × ((records self.now x.0).kind ≡ deref_kind) }
        ensures { IsTrue result → Shown (count self.now) (records self.now) (labels self.now) readers.now words.now (length words.now) x.0 }
    {
        let reader = self.reader_of(readers, x);
        if let Reader::Many = reader {
            let i = usize::from(places[x.0]);
            return i < words.len() && words[i] == self.word(x);
        }
        self.is_alike(reader, x)
    }

    // Whether each dereference stands so.
    fn all_stand(&self, readers: &Readers, words: &[u64], places: &[u16; MOST]) -> bool
        ensures { Standing (count self.now) (records self.now) (labels self.now) readers.now words.now (length words.now) result }
    {
        for t in 0..self.terms.len() {
            let x = TermNumber(t);
            if self.is_deref(x) && !self.stands(readers, words, places, x) {
                return false;
            }
        }
        true
    }

    // Tests whether word b follows word a.
    fn compare(&self, a: u64, b: u64) -> Result<(), Disorder>
        ensures { let P = labels self.now in Tested (count self.now) (records self.now) P (Follows P a b) result }
    {
        if a / NUMBERS < b / NUMBERS {
            return Ok(());
        }
        if b / NUMBERS < a / NUMBERS {
            return Err(Disorder::Unordered);
        }
        let x = TermNumber((a % NUMBERS) as usize);
        let y = TermNumber((b % NUMBERS) as usize);
        if self.terms.len() <= x.0 || self.terms.len() <= y.0 {
            return Err(Disorder::Unordered);
        }
        if self.same_label(x, y) {
            return Ok(());
        }
        if self.is_unequal(x, y) {
            return Err(Disorder::Pair(x, y));
        }
        Err(Disorder::Unordered)
    }

    // Tests whether each word follows the one before it. Both are read by their places; `windows` would be no plainer.
    fn compare_all(&self, words: &[u64]) -> Result<(), Disorder>
        ensures { let P = labels self.now in Tested (count self.now) (records self.now) P (Ordered P words.now (length words.now)) result }
    {
        for i in 1..words.len() {
            self.compare(words[i - 1], words[i])?;
        }
        Ok(())
    }

    // The first dereference of x's address with a different label.
    fn unequal_to(&self, x: TermNumber) -> Option<TermNumber>
        requires { x.0 < count self.now }
        ensures some { IfSome result (λ y. (y.0 < count self.now) × Unequal (records self.now) (labels self.now) x.0 y.0 true) }
        ensures none { result ≡ None → (y : ℕ) → y < count self.now → Unequal (records self.now) (labels self.now) x.0 y false }
    {
        for t in 0..self.terms.len() {
            let y = TermNumber(t);
            if self.is_unequal(x, y) {
                return Some(y);
            }
        }
        None
    }

    // Looks at all pairs.
    fn look_at_all(&self) -> Option<(TermNumber, TermNumber)>
        ensures { Looked (count self.now) (records self.now) (labels self.now) result }
    {
        for t in 0..self.terms.len() {
            let x = TermNumber(t);
            if let Some(y) = self.unequal_to(x) {
                return Some((x, y));
            }
        }
        None
    }

    // Looks at neighbours only, if the words are in order and hold each dereference that is not like the reader of its class.
    fn look_by_order(
        &self,
        readers: &Readers,
        words: &[u64],
        places: &[u16; MOST],
    ) -> Option<(TermNumber, TermNumber)>
        ensures { Looked (count self.now) (records self.now) (labels self.now) result }
    {
        match self.compare_all(words) {
            Err(Disorder::Pair(x, y)) => return Some((x, y)),
            Err(Disorder::Unordered) => return self.look_at_all(),
            Ok(()) => {}
        }
        if self.all_stand(readers, words, places) {
            return None;
        }
        self.look_at_all()
    }
}

// Two dereferences that read one address and have different labels, the first neighbours in an order of the dereferences by class and
// address. Public for the crate `congruence`.
pub fn unequal_pair(
    terms: &[TermRow],
    representatives: &[u32],
    offsets: &[i64],
) -> Option<(TermNumber, TermNumber)>
    requires { Labelled terms.now representatives.now offsets.now }
    ensures { Looked (length terms.now) (term_in terms.now) (view representatives.now offsets.now) result }
{
    let labelled = LabelledTerms {
        terms,
        representatives,
        offsets,
    };
    let mut buffer = [0u64; MOST];
    let mut spare = [0u64; MOST];
    let mut places = [0u16; MOST];
    let mut readers = [Reader::None; MOST];
    labelled.note_readers(&mut readers);
    let count = labelled.list_words(&readers, &mut buffer);
    let words = &mut buffer[..count];
    sort(words, &mut spare[..count]);
    note_places(words, &mut places);
    labelled.look_by_order(&readers, words, &places)
}
