// Zero-delay-feedback state-variable filter.
#![tactic(auto)]

ghost use Rattle.std.specs.Prelude.{◌≡◌, ◌<◌};
ghost use Rattle.filter_core.specs.Buffer.{Filtered, within, each, puts, each_due, puts_due};
ghost use Rattle.filter_core.specs.Refusal.{Answered, number_in, frequency_refusal, unless_refused};
ghost use Rattle.svf.specs.Fields.{svf_from, svf_fields};
ghost use Rattle.svf.specs.Svf.{svf_new, svf_reset, svf_set, svf_set_g_r_h, svf_set_g_r, svf_set_g_q, svf_set_f_q, svf_init};
ghost use Rattle.svf.specs.Svf.{svf_high, svf_band, svf_low, svf_next, svf_out, svf_gained};
ghost use Rattle.svf.specs.Svf.{svf_mixed, svf_multimode};

use filter_core::{FilterMode, Form, FrequencyApproximation, PairForm, Refusal};
use one_pole::OnePole;

#[derive(Clone, Copy, Default)]
pub struct Svf {
    pub g: f32,
    pub r: f32,
    pub h: f32,
    pub state_1: f32,
    pub state_2: f32,
}

// The three taps of a sample. `Mix` has three numbers as well, but gains.
#[derive(Clone, Copy)]
struct Taps {
    high: f32,
    band: f32,
    low: f32,
}

impl Svf {
    pub fn new() -> Self
        ensures { result ≡ svf_new }
    {
        Self::default()
    }

    pub fn init(&mut self)
        ensures { self.new ≡ svf_init self.old }
    {
        self.set_g_q(
            OnePole::tan_value(0.01, FrequencyApproximation::Dirty),
            100.0,
        );
        self.reset();
    }

    pub fn reset(&mut self)
        ensures { self.new ≡ svf_reset self.old }
    {
        self.state_1 = 0.0;
        self.state_2 = 0.0;
    }

    // The settings of another filter.
    pub fn set(&mut self, f: &Svf)
        ensures { self.new ≡ svf_set self.old f.now }
    {
        self.set_g_r_h(f.g, f.r, f.h);
    }

    pub fn set_g_r_h(&mut self, g: f32, r: f32, h: f32)
        ensures { self.new ≡ svf_set_g_r_h self.old g r h }
    {
        self.g = g;
        self.r = r;
        self.h = h;
    }

    pub fn set_g_r(&mut self, g: f32, r: f32)
        ensures { self.new ≡ svf_set_g_r self.old g r }
    {
        self.set_g_r_h(g, r, 1.0 / (1.0 + r * g + g * g));
    }

    pub fn set_g_q(&mut self, g: f32, resonance: f32)
        ensures { self.new ≡ svf_set_g_q self.old g resonance }
    {
        self.set_g_r(g, 1.0 / resonance);
    }

    // A frequency that the approximation does not take is refused.
    pub fn set_f_q(
        &mut self,
        f: f32,
        resonance: f32,
        approximation: FrequencyApproximation,
    ) -> Result<(), Refusal>
        ensures refusal { number_in result ≡ frequency_refusal f approximation }
        ensures filter { self.new ≡ unless_refused (frequency_refusal f approximation) self.old (svf_set_f_q self.old f resonance approximation) }
    {
        self.set_g_q(OnePole::tan(f, approximation)?, resonance);
        Ok(())
    }

    pub fn g(&self) -> f32
        ensures { result ≡ self.now.g }
    {
        self.g
    }

    pub fn r(&self) -> f32
        ensures { result ≡ self.now.r }
    {
        self.r
    }

    pub fn h(&self) -> f32
        ensures { result ≡ self.now.h }
    {
        self.h
    }

    #[tactic(auto, unfolding(crate::specs::Svf::svf_next))]
    fn taps(&mut self, in_: f32) -> Taps
        ensures after { self.new ≡ svf_next self.old in_ }
        ensures taps { (result.high ≡ svf_high self.old in_) × (result.band ≡ svf_band self.old in_) × (result.low ≡ svf_low self.old in_) }
    {
        let g = self.g;
        let high = (in_ - self.r * self.state_1 - g * self.state_1 - self.state_2) * self.h;
        let band = g * high + self.state_1;
        let low = g * band + self.state_2;
        self.state_1 = g * high + band;
        self.state_2 = g * band + low;
        Taps { high, band, low }
    }

    #[tactic(auto, unfolding(crate::specs::Svf::svf_out, crate::specs::Svf::svf_next))]
    pub fn process(&mut self, in_: f32, mode: FilterMode) -> f32
        ensures after { self.new ≡ svf_next self.old in_ }
        ensures value { result ≡ svf_out mode self.old in_ }
    {
        let t = self.taps(in_);
        filter_core::by_mode(mode, t.low, t.band, t.band * self.r, t.high)
    }

    #[tactic(auto, unfolding(crate::specs::Svf::svf_out, crate::specs::Svf::svf_next))]
    pub fn process_dual(
        &mut self,
        in_: f32,
        out_1: &mut f32,
        out_2: &mut f32,
        mode_1: FilterMode,
        mode_2: FilterMode,
    )
        ensures after { self.new ≡ svf_next self.old in_ }
        ensures first { out_1.new ≡ svf_out mode_1 self.old in_ }
        ensures second { out_2.new ≡ svf_out mode_2 self.old in_ }
    {
        let t = self.taps(in_);
        let normalized = t.band * self.r;
        *out_1 = filter_core::by_mode(mode_1, t.low, t.band, normalized, t.high);
        *out_2 = filter_core::by_mode(mode_2, t.low, t.band, normalized, t.high);
    }

    pub fn process_buffer(&mut self, in_: &[f32], out: &mut [f32], mode: FilterMode)
        ensures { Filtered (each svf_next) (puts (svf_out mode)) self.old (within in_.now out.old) out.old self.new out.new }
    {
        filter_core::filter_each_held(&mode, self, in_, out);
    }

    // The output is overwritten with the gained sample, and nothing is added, as the source does.
    pub fn process_add_buffer(&mut self, in_: &[f32], out: &mut [f32], gain: f32, mode: FilterMode)
        ensures { Filtered (each svf_next) (puts (svf_gained mode gain)) self.old (within in_.now out.old) out.old self.new out.new }
    {
        filter_core::filter_each_held(&Gain { mode, gain }, self, in_, out);
    }

    // Filters and writes the places 0, stride, 2 stride .. only. A stride of 0 is refused.
    pub fn process_stride_buffer(
        &mut self,
        in_: &[f32],
        out: &mut [f32],
        stride: usize,
        mode: FilterMode,
    ) -> Result<(), Refusal>
        ensures { Answered stride (each_due stride svf_next) (puts_due stride (svf_out mode)) self.old (within in_.now out.old)
            out.old (number_in result) self.new out.new }
    {
        filter_core::check_step(stride)?;
        self.stride_buffer(in_, out, stride, mode);
        Ok(())
    }

    fn stride_buffer(&mut self, in_: &[f32], out: &mut [f32], stride: usize, mode: FilterMode)
        requires { 0 < stride }
        ensures { Filtered (each_due stride svf_next) (puts_due stride (svf_out mode)) self.old (within in_.now out.old) out.old self.new out.new }
    {
        let n = in_.len().min(out.len());
        // A filter of its own, as in `filter_each_held`.
        let mut filter = *self;
        // A counted loop, as 01 asks.
        for i in (0..n).step_by(stride) {
            out[i] = filter.process(in_[i], mode);
        }
        *self = filter;
    }

    pub fn process_multimode_buffer(&mut self, in_: &[f32], out: &mut [f32], mode: f32)
        ensures { Filtered (each svf_next) (puts (svf_multimode mode)) self.old (within in_.now out.old) out.old self.new out.new }
    {
        let mix = Mix {
            high: multimode::high_gain(mode),
            band: multimode::band_gain(mode),
            low: multimode::low_gain(mode),
        };
        filter_core::filter_each_held(&mix, self, in_, out);
    }

    pub fn process_add_dual_buffer(
        &mut self,
        in_: &[f32],
        out_1: &mut [f32],
        out_2: &mut [f32],
        gain_1: f32,
        gain_2: f32,
        mode: FilterMode,
    )
        ensures first { Filtered (each svf_next) (puts (svf_gained mode gain_1)) self.old
            (within (within in_.now out_1.old) out_2.old) out_1.old self.new out_1.new }
        ensures second { Filtered (each svf_next) (puts (svf_gained mode gain_2)) self.old
            (within (within in_.now out_1.old) out_2.old) out_2.old self.new out_2.new }
    {
        let gains = Gains {
            mode,
            first: gain_1,
            second: gain_2,
        };
        filter_core::filter_pair_held(&gains, self, in_, out_1, out_2);
    }
}

// ---- how each form takes a sample

impl Form<Svf> for FilterMode {
    ghost next = { λ mode s x. svf_next s x };

    ghost out = { λ mode s x. svf_out mode s x };

    fn step(&self, filter: &mut Svf, x: f32) -> f32 {
        filter.process(x, *self)
    }
}

// The output times a gain.
#[derive(Clone, Copy)]
struct Gain {
    mode: FilterMode,
    gain: f32,
}

impl Form<Svf> for Gain {
    ghost next = { λ form s x. svf_next s x };

    ghost out = { λ form s x. svf_gained form.mode form.gain s x };

    fn step(&self, filter: &mut Svf, x: f32) -> f32 {
        filter.process(x, self.mode) * self.gain
    }
}

// The sum of the three taps, each with a gain of its own: gains, so that no sample's taps are taken for them.
#[derive(Clone, Copy)]
struct Mix {
    high: f32,
    band: f32,
    low: f32,
}

impl Form<Svf> for Mix {
    ghost next = { λ form s x. svf_next s x };

    ghost out = { λ form s x. svf_mixed form.high form.band form.low s x };

    #[tactic(auto, unfolding(crate::specs::Svf::svf_mixed))]
    fn step(&self, filter: &mut Svf, x: f32) -> f32 {
        let t = filter.taps(x);
        self.high * t.high + self.band * t.band + self.low * t.low
    }
}

// The output times two gains.
#[derive(Clone, Copy)]
struct Gains {
    mode: FilterMode,
    first: f32,
    second: f32,
}

impl PairForm<Svf> for Gains {
    ghost next = { λ form s x. svf_next s x };

    ghost first = { λ form s x. svf_gained form.mode form.first s x };

    ghost second = { λ form s x. svf_gained form.mode form.second s x };

    fn step(&self, filter: &mut Svf, x: f32) -> (f32, f32) {
        let y = filter.process(x, self.mode);
        (y * self.first, y * self.second)
    }
}

// The outputs of two modes.
#[derive(Clone, Copy)]
pub struct Pair {
    pub first: FilterMode,
    pub second: FilterMode,
}

impl PairForm<Svf> for Pair {
    ghost next = { λ form s x. svf_next s x };

    ghost first = { λ form s x. svf_out form.first s x };

    ghost second = { λ form s x. svf_out form.second s x };

    fn step(&self, filter: &mut Svf, x: f32) -> (f32, f32) {
        let mut y = 0.0;
        let mut z = 0.0;
        filter.process_dual(x, &mut y, &mut z, self.first, self.second);
        (y, z)
    }
}

// ---- a filter as the array of its fields

impl From<[f32; 5]> for Svf {
    ghost from_gives = { λ fields s. s ≡ svf_from fields };

    fn from(fields: [f32; 5]) -> Svf {
        let [g, r, h, state_1, state_2] = fields;
        Svf {
            g,
            r,
            h,
            state_1,
            state_2,
        }
    }
}

impl From<Svf> for [f32; 5] {
    ghost from_gives = { λ s fields. fields ≡ svf_fields s };

    fn from(s: Svf) -> [f32; 5] {
        [s.g, s.r, s.h, s.state_1, s.state_2]
    }
}
