// Zero-delay-feedback one-pole filter, and the tangent that it shares with the state-variable filter.
#![tactic(auto)]

ghost use Rattle.std.specs.Prelude.{◌≡◌, IfOk};
ghost use Rattle.filter_core.specs.Refusal.{number_in, frequency_refusal, unless_refused};
ghost use Rattle.one_pole.specs.Fields.{one_pole_from, one_pole_fields};
ghost use Rattle.one_pole.specs.Tangent.{tan_series, tangent, tan_exact, tan_mirrored, tan_dirty, tan_fast, tan_accurate, tan_by_series, tan_of, TangentIsOdd};
ghost use Rattle.one_pole.specs.OnePole.{one_pole_new, one_pole_init, one_pole_reset, one_pole_set_g, one_pole_set_f, one_pole_next, one_pole_out};

use filter_core::{FilterMode, Form, FrequencyApproximation, Refusal};

#[derive(Clone, Copy, Default)]
pub struct OnePole {
    pub g: f32,
    pub gi: f32,
    pub state: f32,
}

impl OnePole {
    pub const PI: f32 = 3.1415927;

    pub const PI_POW_2: f32 = Self::PI * Self::PI;

    pub const PI_POW_3: f32 = Self::PI_POW_2 * Self::PI;

    pub const PI_POW_5: f32 = Self::PI_POW_3 * Self::PI_POW_2;

    pub const PI_POW_7: f32 = Self::PI_POW_5 * Self::PI_POW_2;

    pub const PI_POW_9: f32 = Self::PI_POW_7 * Self::PI_POW_2;

    pub const PI_POW_11: f32 = Self::PI_POW_9 * Self::PI_POW_2;

    // The coefficients of the three polynomials, by powers of f * f.
    const DIRTY_A: f32 = 0.3736 * Self::PI_POW_3;

    const FAST_A: f32 = 0.3260 * Self::PI_POW_3;

    const FAST_B: f32 = 0.1823 * Self::PI_POW_5;

    const ACCURATE_A: f32 = 0.3333314036 * Self::PI_POW_3;

    const ACCURATE_B: f32 = 0.1333923995 * Self::PI_POW_5;

    const ACCURATE_C: f32 = 0.0533740603 * Self::PI_POW_7;

    const ACCURATE_D: f32 = 0.0029005250 * Self::PI_POW_9;

    const ACCURATE_E: f32 = 0.0095168091 * Self::PI_POW_11;

    // Exact clips here, which keeps its tangent at about 100.
    pub const EXACT_CLIP: f32 = 0.497;

    // Abramowitz and Stegun 4.3.101: tan x / x by powers of x * x.
    const TANGENT_ROW: [f32; 7] = [
        1.0,
        0.3333314036,
        0.1333923995,
        0.0533740603,
        0.0245650893,
        0.0029005250,
        0.0095168091,
    ];

    pub fn new() -> Self
        ensures { result ≡ one_pole_new }
    {
        Self::default()
    }

    pub fn init(&mut self)
        ensures { self.new ≡ one_pole_init self.old }
    {
        self.set_g(Self::tan_value(0.01, FrequencyApproximation::Dirty));
        self.reset();
    }

    pub fn reset(&mut self)
        ensures { self.new ≡ one_pole_reset self.old }
    {
        self.state = 0.0;
    }

    // 01's T: tan x for x up to an eighth turn, and a polynomial beyond.
    fn tan_series(x: f32) -> f32
        ensures { result ≡ tan_series x }
    {
        let row = Self::TANGENT_ROW;
        x * filter_core::series(x * x, &row)
    }

    // Above an eighth turn the tangent is one over that of the rest of the quarter.
    fn tan_clipped(f: f32) -> f32
        ensures { result ≡ tangent f }
    {
        if f <= 0.25 {
            Self::tan_series(Self::PI * f)
        } else {
            1.0 / Self::tan_series(Self::PI * (0.5 - f))
        }
    }

    fn tan_exact(f: f32) -> f32
        ensures { result ≡ tan_exact f }
    {
        Self::tan_clipped(filter_core::clip_at(Self::EXACT_CLIP, f))
    }

    // The same from 0 up, and mirrored below. One function lent the tangent or NaiveSvf's sine would be no shorter than the two.
    fn tan_mirrored(f: f32) -> f32
        ensures { result ≡ tan_mirrored f }
    {
        if f < 0.0 {
            -Self::tan_exact(-f)
        } else {
            Self::tan_exact(f)
        }
    }

    #[tactic(auto, using(crate::proofs::Constants::dirty))]
    fn tan_dirty(f: f32) -> f32
        ensures { result ≡ tan_dirty f }
    {
        f * (Self::PI + Self::DIRTY_A * f * f)
    }

    #[tactic(auto, using(crate::proofs::Constants::fast))]
    fn tan_fast(f: f32) -> f32
        ensures { result ≡ tan_fast f }
    {
        let f2 = f * f;
        f * (Self::PI + f2 * (Self::FAST_A + Self::FAST_B * f2))
    }

    // The series above without its fourth coefficient, as the source has it.
    #[tactic(auto, using(crate::proofs::Constants::accurate))]
    fn tan_accurate(f: f32) -> f32
        ensures { result ≡ tan_accurate f }
    {
        let f2 = f * f;
        f * (Self::PI
            + f2 * (Self::ACCURATE_A
                + f2 * (Self::ACCURATE_B
                    + f2 * (Self::ACCURATE_C + f2 * (Self::ACCURATE_D + f2 * Self::ACCURATE_E)))))
    }

    // The whole series at every f.
    fn tan_by_series(f: f32) -> f32
        ensures { result ≡ tan_by_series f }
    {
        let x = Self::PI * f;
        Self::tan_series(x)
    }

    // The value alone, refused or not. By the approximation's own cases, each a formula.
    pub fn tan_value(f: f32, approximation: FrequencyApproximation) -> f32
        ensures { result ≡ tan_of f approximation }
    {
        match approximation {
            FrequencyApproximation::Exact => Self::tan_mirrored(f),
            FrequencyApproximation::Accurate => Self::tan_accurate(f),
            FrequencyApproximation::Fast => Self::tan_fast(f),
            FrequencyApproximation::Dirty => Self::tan_dirty(f),
            FrequencyApproximation::Series => Self::tan_by_series(f),
        }
    }

    // A frequency that the approximation does not take is refused.
    pub fn tan(f: f32, approximation: FrequencyApproximation) -> Result<f32, Refusal>
        ensures refusal { number_in result ≡ frequency_refusal f approximation }
        ensures value { IfOk result (λ value. value ≡ tan_of f approximation) }
    {
        filter_core::check_frequency(f, approximation)?;
        Ok(Self::tan_value(f, approximation))
    }

    // The filter at the tangent g.
    fn set_g(&mut self, g: f32)
        ensures { self.new ≡ one_pole_set_g self.old g }
    {
        self.g = g;
        self.gi = 1.0 / (1.0 + g);
    }

    // Refused as `tan` is.
    pub fn set_f(&mut self, f: f32, approximation: FrequencyApproximation) -> Result<(), Refusal>
        ensures refusal { number_in result ≡ frequency_refusal f approximation }
        ensures filter { self.new ≡ unless_refused (frequency_refusal f approximation) self.old (one_pole_set_f self.old f approximation) }
    {
        self.set_g(Self::tan(f, approximation)?);
        Ok(())
    }

    // Both band-pass modes answer 0.0 while the state moves on, as the source does.
    pub fn process(&mut self, in_: f32, mode: FilterMode) -> f32
        ensures after { self.new ≡ one_pole_next self.old in_ }
        ensures value { result ≡ one_pole_out mode self.old in_ }
    {
        let lp = (self.g * in_ + self.state) * self.gi;
        self.state = self.g * (in_ - lp) + lp;
        filter_core::by_mode(mode, lp, 0.0, 0.0, in_ - lp)
    }
}

// Every sample gives the mode's tap.
impl Form<OnePole> for FilterMode {
    ghost next = { λ mode s x. one_pole_next s x };

    ghost out = { λ mode s x. one_pole_out mode s x };

    fn step(&self, filter: &mut OnePole, x: f32) -> f32 {
        filter.process(x, *self)
    }
}

// ---- a filter as the array of its fields

impl From<[f32; 3]> for OnePole {
    ghost from_gives = { λ fields s. s ≡ one_pole_from fields };

    fn from(fields: [f32; 3]) -> OnePole {
        let [g, gi, state] = fields;
        OnePole { g, gi, state }
    }
}

impl From<OnePole> for [f32; 3] {
    ghost from_gives = { λ s fields. fields ≡ one_pole_fields s };

    fn from(s: OnePole) -> [f32; 3] {
        [s.g, s.gi, s.state]
    }
}

// Exact's tangent is 01's from 0 up, and below 0 the negative of its value at -f.
pub fn tangent_is_odd()
    ensures { TangentIsOdd }
{}
