// The first fault among records.
ghost use Rattle.std.specs.Prelude.{ℕ, ◌<◌};
ghost use Rattle.refusals.specs.FirstFault.{FirstOf};

use types::Fault;

// Judges the records 0..n one after another, up to the first that has a fault.
pub(crate) fn judge_each<J: Fn(usize) -> Result<(), Fault>>(n: usize, judge: J) -> Result<(), Fault>
    requires { (i : ℕ) → i < n → J.pre judge i }
    ensures { FirstOf (J.post judge) n result }
{
    for i in 0..n {
        judge(i)?;
    }
    Ok(())
}
