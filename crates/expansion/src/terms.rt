// The terms and their homes.
ghost use Rattle.std.specs.Prelude.{ℕ, ◌≡◌, ◌<◌, ◌≤◌};
ghost use Rattle.buckets.specs.Buckets.{Chains};
ghost use Rattle.tables.specs.Limits.{most};
ghost use Rattle.points.specs.Homes.{home};
ghost use Rattle.points.specs.Places.{class, class_slots};
ghost use Rattle.expansion.specs.Expand.{Hosts, Own};

// The class and the home of each term, a mask of the homes of other terms, and the terms of each home in chains.
#[derive(Clone, Copy)]
pub(crate) struct HomedTerms<'a> {
    pub n: usize,
    pub classes: &'a [u32],
    pub homes: &'a [u32],
    pub hosts: &'a [u64],
    pub first: &'a [u16],
    pub next: &'a [u16],
    ghost few: { n ≤ most },
    ghost own: { Own n homes.now },
    ghost hosts_are: { Hosts n homes.now hosts.now },
    ghost chains: { Chains n class_slots homes.now first.now next.now },
    ghost class_same: { (t : ℕ) → t < n → class classes.now (home homes.now t) ≡ class classes.now t },
}
