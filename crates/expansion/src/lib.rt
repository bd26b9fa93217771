// The pair table of all terms, from the bits of their homes. Public for the crate `differences`.

#![tactic(auto)]

mod terms;

ghost use Rattle.std.specs.Prelude.{◌≡◌, true, ◌≢◌, ℕ, ◌*◌, ◌<◌, ◌≤◌, length};
ghost use Rattle.buckets.specs.Buckets.{Chains};
ghost use Rattle.tables.specs.Limits.{most};
ghost use Rattle.points.specs.Homes.{home, Homes};
ghost use Rattle.points.specs.Places.{class, class_slots, Terms};
ghost use Rattle.marking.specs.Rows.{OwnMask};
ghost use Rattle.marking.specs.Marks.{Adds, Inside, Room, Upto};
ghost use Rattle.expansion.specs.Expand.{AllOwn, ClassRows, ClassSet, CopyPair, Covered, Expanded, ExpandedIn, Full, GuestPair, GuestRows, HomeColumns, HomeRows, Hosts, Own, Row, Width, WordPair};
ghost use Rattle.expansion.specs.Rows.{RowWord};

use buckets::chain;
use marking::base::{mark_masked, own_homes};
use marking::bits::set_pair;
use points::chains::CLASSES;
use points::places::linked;
use terms::HomedTerms;
use types::{MOST, TermNumber};
use words::{common, next_one, or_word, put, rest, word_at};

// Whether each term is its own home.
fn all_own(n: usize, homes: &[u32]) -> bool
    requires { n ≤ length homes.now }
    ensures { result ≡ true → AllOwn n homes.now }
{
    for t in 0..n {
        if homes[t] as usize != t {
            return false;
        }
    }
    true
}

// A mask of the homes of other terms.
fn mark_hosts(n: usize, homes: &[u32], hosts: &mut [u64])
    requires { (n ≤ most) × (Own n homes.now × (length hosts.old ≡ 8)) }
    ensures { Hosts n homes.now hosts.new }
{
    for t in 0..n {
        let h = homes[t] as usize;
        if h == t {
            continue;
        }
        put(hosts, h);
    }
}

// Sets the bits of i with the terms whose home is v.
fn set_guests(terms: &HomedTerms, i: TermNumber, v: usize, table: &mut [u8])
    requires { let T = terms.now in Inside T.n i.0 v × Room T.n table.old }
    ensures { let T = terms.now in Adds T.n (Upto T.n (GuestPair T.homes.now i.0 v)) table.old table.new }
{
    let mut j = linked(terms.first, v);
    while j < terms.n {
        set_pair(terms.n, i, TermNumber(j), table);
        j = linked(terms.next, j);
    }
}

// How many columns of a row are in word w.
fn width(n: usize, w: usize) -> usize
    requires { 64 * w < n }
    ensures { Width n w result }
{
    let left = n - 64 * w;
    if left < 64 {
        return left;
    }
    64
}

// The pairs of i with the terms whose homes are in word w of a mask.
fn expand_word(terms: &HomedTerms, i: TermNumber, w: usize, word: u64, table: &mut [u8])
    requires { let T = terms.now in (Inside T.n i.0 (64 * w)) × Room T.n table.old }
    ensures { let T = terms.now in Adds T.n (WordPair T.homes.now i.0 w word) table.old table.new }
{
    let end = width(terms.n, w);
    let mut b = next_one(word, 0);
    while b < end {
        set_guests(terms, i, 64 * w + b, table);
        b = next_one(word, b + 1);
    }
}

// The pairs of home i with the terms whose homes are in the mask.
fn expand_others(terms: &HomedTerms, i: TermNumber, others: &[u64], table: &mut [u8])
    requires n_le_most { let T = terms.now in Covered T.n T.homes.now others.now i.0 table.old }
    requires i_lt_n { let T = terms.now in (i.0 < T.n) × ((home T.homes.now i.0 ≡ i.0) × Room T.n table.old) }
    ensures { let T = terms.now in ExpandedIn T.n T.homes.now (Row i.0) table.old table.new }
{
    let start = i.0 * terms.n;
    let mut w = 0;
    while 64 * w < terms.n {
        let word = common(start, table, others, 64 * w);
        expand_word(terms, i, w, word, table);
        w += 1;
    }
}

// The pairs of home i with all terms: those of its class, `own`, by words.
fn expand_row(terms: &HomedTerms, i: TermNumber, own: &[u64], table: &mut [u8])
    requires i_lt_n { let T = terms.now in (i.0 < T.n) × ((home T.homes.now i.0 ≡ i.0) × (OwnMask T.n T.classes.now (class T.classes.now i.0) own.now × Room T.n table.old)) }
    requires by_index { let T = terms.now in (((t : ℕ) → t < T.n → class T.classes.now (home T.homes.now t) ≡ class T.classes.now t)) × ClassSet T.n T.classes.now T.homes.now table.old }
    ensures { let T = terms.now in ExpandedIn T.n T.homes.now (Row i.0) table.old table.new }
{
    let mut same = [0u64; 8];
    let mut reach = [0u64; 8];
    let mut others = [0u64; 8];
    own_homes(
        terms.n,
        i.0,
        terms.homes,
        terms.first,
        terms.next,
        &mut same,
    );
    rest(own, &same, &mut reach);
    rest(terms.hosts, &reach, &mut others);
    mark_masked(terms.n, i, i.0, &reach, table);
    expand_others(terms, i, &others, table);
}

// The pairs of the homes of class a.
fn expand_members(
    terms: &HomedTerms,
    a: usize,
    class_first: &[u16],
    class_next: &[u16],
    own: &[u64],
    table: &mut [u8],
)
    requires a_lt_n { let T = terms.now in (a < T.n) × (Chains T.n class_slots T.classes.now class_first.now class_next.now × (OwnMask T.n T.classes.now a own.now × Room T.n table.old)) }
    requires by_index { let T = terms.now in (((t : ℕ) → t < T.n → class T.classes.now (home T.homes.now t) ≡ class T.classes.now t)) × ClassSet T.n T.classes.now T.homes.now table.old }
    ensures { let T = terms.now in ExpandedIn T.n T.homes.now (ClassRows T.classes.now T.homes.now a T.n) table.old table.new }
{
    let mut t = linked(class_first, a);
    while t < terms.n {
        let i = t;
        t = linked(class_next, i);
        if terms.homes[i] as usize != i {
            continue;
        }
        expand_row(terms, TermNumber(i), own, table);
    }
}

// The same, with a mask of the terms of the class.
fn expand_class(
    terms: &HomedTerms,
    a: usize,
    class_first: &[u16],
    class_next: &[u16],
    table: &mut [u8],
)
    requires a_lt_n { let T = terms.now in (a < T.n) × (Chains T.n class_slots T.classes.now class_first.now class_next.now × Room T.n table.old) }
    requires by_index { let T = terms.now in (((t : ℕ) → t < T.n → class T.classes.now (home T.homes.now t) ≡ class T.classes.now t)) × ClassSet T.n T.classes.now T.homes.now table.old }
    ensures { let T = terms.now in ExpandedIn T.n T.homes.now (ClassRows T.classes.now T.homes.now a T.n) table.old table.new }
{
    let mut own = [0u64; 8];
    own_homes(terms.n, a, terms.classes, class_first, class_next, &mut own);
    expand_members(terms, a, class_first, class_next, &own, table);
}

// The pairs of all homes.
fn expand_homes(terms: &HomedTerms, class_first: &[u16], class_next: &[u16], table: &mut [u8])
    requires by_index { let T = terms.now in (((t : ℕ) → t < T.n → class T.classes.now t < T.n)) × (Chains T.n class_slots T.classes.now class_first.now class_next.now × Room T.n table.old) }
    requires by_index_2 { let T = terms.now in (((t : ℕ) → t < T.n → class T.classes.now (home T.homes.now t) ≡ class T.classes.now t)) × ClassSet T.n T.classes.now T.homes.now table.old }
    ensures { let T = terms.now in ExpandedIn T.n T.homes.now (HomeRows T.homes.now T.n) table.old table.new }
{
    for a in 0..terms.n {
        expand_class(terms, a, class_first, class_next, table);
    }
}

// Word w of row h, without what is past the end of the row.
fn row_word(n: usize, h: TermNumber, w: usize, table: &[u8]) -> u64
    requires { (n ≤ most) × ((h.0 < n) × (64 * w < n)) }
    ensures { RowWord n h.0 w table.now result }
{
    let word = word_at(table, h.0 * n + 64 * w);
    let left = n - 64 * w;
    if 64 <= left {
        return word;
    }
    word & ((1u64 << left) - 1)
}

// The bits of row h into row i.
fn copy_row(n: usize, h: TermNumber, i: TermNumber, table: &mut [u8])
    requires { Inside n h.0 i.0 × ((i.0 ≢ h.0) × Room n table.old) }
    ensures { Adds n (CopyPair n h.0 i.0 table.old) table.old table.new }
{
    let mut w = 0;
    while 64 * w < n {
        let word = row_word(n, h, w, table);
        or_word(table, i.0 * n + 64 * w, word);
        w += 1;
    }
}

// The rows of the terms that are not their own homes, from those of their homes.
fn copy_rows(n: usize, homes: &[u32], table: &mut [u8])
    requires { (n ≤ most) × (Own n homes.now × (Full n homes.now table.old × Room n table.old)) }
    ensures { ExpandedIn n homes.now (GuestRows homes.now n) table.old table.new }
{
    for i in 0..n {
        let h = homes[i] as usize;
        if h == i {
            continue;
        }
        copy_row(n, TermNumber(h), TermNumber(i), table);
    }
}

// Sets the bit of each pair whose homes' bit is set. In place: the bit of a pair of homes is set only if it was.
pub fn expand(n: usize, classes: &[u32], heights: &[u64], homes: &[u32], table: &mut [u8])
    requires terms { Terms n classes.now heights.now × Homes n classes.now heights.now homes.now }
    requires class_set { ClassSet n classes.now homes.now table.old × (HomeColumns n homes.now table.old × Room n table.old) }
    ensures { Expanded n homes.now table.old table.new }
{
    if all_own(n, homes) {
        return;
    }
    let mut hosts = [0u64; 8];
    let mut first = [0u16; CLASSES];
    let mut next = [0u16; MOST];
    let mut class_first = [0u16; CLASSES];
    let mut class_next = [0u16; MOST];
    mark_hosts(n, homes, &mut hosts);
    chain(n, homes, &mut first, &mut next);
    chain(n, classes, &mut class_first, &mut class_next);
    let terms = HomedTerms {
        n,
        classes,
        homes,
        hosts: &hosts,
        first: &first,
        next: &next,
    };
    expand_homes(&terms, &class_first, &class_next, table);
    copy_rows(n, homes, table);
}
