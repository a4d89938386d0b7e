// The rota of the twelve heads (02 b): which of them the one worker feeds next, and with how many samples. Nothing is allocated, and a turn
// looks at twelve heads at most, whatever was told. A telling that is refused leaves the rota as it was, and so does a turn when no head waits.
#![tactic(auto)]

ghost use Rattle.std.specs.Prelude.{◌≡◌, ◌<◌, IfSome};
ghost use Rattle.filter_core.specs.Refusal.{number_in};
ghost use Rattle.rota.specs.Ring.{first_after};
ghost use Rattle.rota.specs.Call.{tell, turn};
ghost use Rattle.rota.specs.Rota.{has_some, head_refusal, waiting_refusal, samples_refusal, fresh_rota, waits_in, perform, plainly, granting};
ghost use Rattle.rota.specs.Follows.{RotaFollows};
ghost use Rattle.rota.specs.Rows.{RotaByRows};
ghost use Rattle.rota.specs.Fair.{Fair};

use filter_core::Refusal;

#[derive(Clone, Copy, Debug, PartialEq, Eq)]
pub struct Rota {
    // What each head has left to be granted. It waits while that is not 0.
    pub left: [u16; 12],
    // The head that was served last.
    pub last: usize,
}

// What a turn grants.
#[derive(Clone, Copy, Debug, PartialEq, Eq)]
pub struct Grant {
    pub head: usize,
    pub samples: u16,
}

// ---- the refusals

// There are twelve heads.
pub fn check_head(head: usize) -> Result<(), Refusal>
    ensures { number_in result ≡ head_refusal head }
{
    if head < 12 {
        Ok(())
    } else {
        Err(Refusal::Head)
    }
}

// A head that has some left waits already.
fn check_waiting(left: u16) -> Result<(), Refusal>
    ensures { number_in result ≡ waiting_refusal (has_some left) }
{
    if left == 0 {
        Ok(())
    } else {
        Err(Refusal::Waiting)
    }
}

fn check_samples(samples: u16) -> Result<(), Refusal>
    ensures { number_in result ≡ samples_refusal samples }
{
    if samples == 0 {
        Err(Refusal::Samples)
    } else {
        Ok(())
    }
}

// ---- the calls

impl Rota {
    // No head waits, and head 0 is the first in the ring.
    pub fn fresh() -> Rota
        ensures { result ≡ fresh_rota }
    {
        Rota {
            left: [0; 12],
            last: 11,
        }
    }

    // The next head that waits, in ring order after the one that was served last, which comes last itself. `last` counts modulo 12, since a
    // rota that was made by hand may have any number there.
    fn next(&self) -> Option<usize>
        ensures first { result ≡ first_after self.now.last (waits_in self.now) }
        ensures below { IfSome result (λ head. head < 12) }
    {
        (1..13)
            .map(|k| (self.last % 12 + k) % 12)
            .find(|&head| self.left[head] != 0)
    }

    // Has a head wait for so many samples.
    #[tactic(auto, unfolding(crate::specs::Rota::perform))]
    pub fn tell(&mut self, head: usize, samples: u16) -> Result<(), Refusal>
        ensures { plainly result self.new ≡ perform self.old (tell head samples) }
    {
        check_head(head)?;
        check_waiting(self.left[head])?;
        check_samples(samples)?;
        self.left[head] = samples;
        Ok(())
    }

    // Grants the next waiting head what it has left, 256 samples at most; none where no head waits.
    #[tactic(auto, unfolding(crate::specs::Rota::perform))]
    pub fn turn(&mut self) -> Option<Grant>
        ensures { granting result self.new ≡ perform self.old turn }
    {
        let head = self.next()?;
        let samples = self.left[head].min(256);
        self.left[head] -= samples;
        self.last = head;
        Some(Grant { head, samples })
    }
}

// ---- the theorems

// Each number is answered in its row's case, and in no other.
#[tactic(auto, using(crate::proofs::Rows::rota_by_rows))]
pub fn rota_by_rows()
    ensures { RotaByRows }
{}

// Each call replies what the calls before it say, and leaves the rota that they and it lead to.
#[tactic(auto, using(crate::proofs::Follows::rota_follows))]
pub fn rota_follows()
    ensures { RotaFollows }
{}

// Under every list of calls a rota is fair to every head.
#[tactic(auto, using(crate::proofs::Fairness::fair))]
pub fn fair()
    ensures { Fair }
{}
