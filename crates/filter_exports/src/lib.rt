// The filters for Rust and C to call: a function for each method of the six types, and with them samples in planes. filter_fields says how a
// filter is an array of floats and what the numbers of a mode and an approximation name. A function that can be refused answers 0 or the
// refusal's number, and a refused one changes nothing.
// C has no Result and no enum of ours: so the numbers, the arrays and the parameters one by one, which are the source's. Each function has
// its own name and clause, as filter_exports_c exports it; what those that are alike but for the type do stands once, below.
#![tactic(auto)]

ghost use Rattle.std.specs.Prelude.{◌≡◌, ◌≤◌, ◌<◌};
ghost use denote.Ref.{MutBor};
ghost use Rattle.filter_core.specs.Refusal.{number_in, unless_refused};
ghost use Rattle.filter_core.specs.Numbers.{last_mode, last_approximation, mode_of, approximation_of};
ghost use Rattle.std.specs.Fn.{FnOnceReturnsAtMut};

pub mod crossover_svf_calls;
pub mod dc_blocker_calls;
pub mod modified_svf_calls;
pub mod naive_svf_calls;
pub mod one_pole_calls;
pub mod planes_calls;
pub mod svf_calls;

use filter_core::{FilterMode, FrequencyApproximation, Refusal, number_in};

// The refusal of a number that names no mode, or no approximation. The refusal table of document 01 does not have it: there a mode is
// one of four.
pub(crate) const UNKNOWN: u8 = 100;

// ---- what a function does with the lent fields, once for every type of filter. A contract says what a call leaves behind its arguments and
// not what it leaves in a variable that it captured: so an output is an argument, and a function with two has a body of its own.

// The fields are read as a filter, which the call changes, and written back.
fn change<S, const N: usize, F: FnOnce(&mut S)>(state: &mut [f32; N], call: F)
where
    S: From<[f32; N]>,
    [f32; N]: From<S>,
    requires { F.IsAlwaysCallable call }
    ensures { (s t : S) × S.from_gives state.old s × FnOnceReturnsAtMut F.FnOnce call s tt t × ⟦<[f32; N] as From<S>>⟧.from_gives t state.new }
{
    let mut filter = S::from(*state);
    call(&mut filter);
    *state = filter.into();
}

// The fields become those made, unless the number is that of a refusal.
fn accept<const N: usize>(number: u8, state: &mut [f32; N], made: [f32; N])
    ensures { state.new ≡ unless_refused number state.old made.entry }
{
    if number == 0 {
        *state = made;
    }
}

// As change, for a call that takes an approximation and can be refused.
fn set<S, const N: usize, F: FnOnce(&mut S, FrequencyApproximation) -> Result<(), Refusal>>(
    state: &mut [f32; N],
    approximation: u32,
    call: F,
) -> u8
where
    S: From<[f32; N]>,
    [f32; N]: From<S>,
    requires { F.IsAlwaysCallable call }
    ensures named { approximation ≤ last_approximation → (a : _) × (a ≡ approximation_of approximation) × (p q : MutBor S) × (answer : _) × S.from_gives state.old p.now × F.post call p a answer q
        × (made : _) × ⟦<[f32; N] as From<S>>⟧.from_gives q.now made × (result ≡ number_in answer) × (state.new ≡ unless_refused result state.old made) }
    ensures unknown { last_approximation < approximation → (result ≡ 100) × (state.new ≡ state.old) }
{
    let Ok(approximation) = FrequencyApproximation::try_from(approximation) else {
        return UNKNOWN;
    };
    let mut filter = S::from(*state);
    let number = number_in(call(&mut filter, approximation));
    accept(number, state, filter.into());
    number
}

// As change, for a call that takes a mode and answers with one output.
fn filter_sample<S, const N: usize, F: FnOnce(&mut S, FilterMode) -> f32>(
    state: &mut [f32; N],
    mode: u32,
    out: &mut f32,
    call: F,
) -> u8
where
    S: From<[f32; N]>,
    [f32; N]: From<S>,
    requires { F.IsAlwaysCallable call }
    ensures named { mode ≤ last_mode → (m : _) × (m ≡ mode_of mode) × (p q : MutBor S) × S.from_gives state.old p.now × F.post call p m out.new q
        × (result ≡ 0) × ⟦<[f32; N] as From<S>>⟧.from_gives q.now state.new }
    ensures unknown { last_mode < mode → (result ≡ 100) × (state.new ≡ state.old) × (out.new ≡ out.old) }
{
    let Ok(mode) = FilterMode::try_from(mode) else {
        return UNKNOWN;
    };
    let mut filter = S::from(*state);
    *out = call(&mut filter, mode);
    *state = filter.into();
    0
}

// As change, for a call that takes a mode and a buffer to write into, and can be refused.
fn filter_buffer<
    S,
    const N: usize,
    F: FnOnce(&mut S, FilterMode, &mut [f32]) -> Result<(), Refusal>,
>(state: &mut [f32; N], mode: u32, out: &mut [f32], call: F) -> u8
where
    S: From<[f32; N]>,
    [f32; N]: From<S>,
    requires { F.IsAlwaysCallable call }
    ensures named { mode ≤ last_mode → (m : _) × (m ≡ mode_of mode) × (p q : MutBor S) × (o z : _) × (answer : _) × S.from_gives state.old p.now × (o.now ≡ out.old) × (z.now ≡ out.new) × F.post call p m o answer q z
        × (made : _) × ⟦<[f32; N] as From<S>>⟧.from_gives q.now made × (result ≡ number_in answer) × (state.new ≡ unless_refused result state.old made) }
    ensures unknown { last_mode < mode → (result ≡ 100) × (state.new ≡ state.old) × (out.new ≡ out.old) }
{
    let Ok(mode) = FilterMode::try_from(mode) else {
        return UNKNOWN;
    };
    let mut filter = S::from(*state);
    let number = number_in(call(&mut filter, mode, out));
    accept(number, state, filter.into());
    number
}
