// The count of the samples that a head has sewn since its load.

ghost use Rattle.std.specs.Prelude.{◌≡◌, ◌+◌, IfOk};
ghost use Rattle.filter_core.specs.Refusal.{number_in};
ghost use Rattle.heads.specs.Snapshot.{count_refusal};

use filter_core::Refusal;

// The count after a run over n samples, which may not go above what 32 bits hold.
pub(crate) fn raised(count: u32, n: usize) -> Result<u32, Refusal>
    ensures refusal { number_in result ≡ count_refusal count n }
    ensures value { IfOk result (λ after. after ≡ count + n) }
{
    u32::try_from(n)
        .ok()
        .and_then(|n| count.checked_add(n))
        .ok_or(Refusal::Count)
}
