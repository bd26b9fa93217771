// Leads by their homes.
ghost use Rattle.settling.specs.Keys.{Keyed, Led};

use points::places::linked;

// The home of each lead as its key. Other terms keep the key that stands for none.
pub(crate) fn fill_keys(n: usize, count: usize, leads: &[u16], homes: &[u32], keys: &mut [u32])
    requires { Led n count homes.now leads.now × Keyed n 0 homes.now leads.now keys.old }
    ensures { Keyed n count homes.now leads.now keys.new }
{
    for k in 0..count {
        let x = linked(leads, k);
        keys[x] = homes[x];
    }
}
