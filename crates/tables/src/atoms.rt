// Records of atoms. Public for the crates `refusals` and `frames`.
ghost use Rattle.std.specs.Prelude.{◌≡◌, ◌||◌, eqb};
ghost use Rattle.tables.specs.Records.{variable_kind, auxiliary_kind, is_same_atom};

use types::{AUXILIARY, TermRecord, VARIABLE};

// Whether a kind is that of an atom.
pub fn is_atom(kind: u64) -> bool
    ensures { result ≡ (eqb kind variable_kind || eqb kind auxiliary_kind) }
{
    matches!(kind, VARIABLE | AUXILIARY)
}

// Whether two records are of one atom.
pub fn same_atom(a: TermRecord, b: TermRecord) -> bool
    ensures { result ≡ is_same_atom a b }
{
    is_atom(a.kind) && a.kind == b.kind && a.number == b.number
}
