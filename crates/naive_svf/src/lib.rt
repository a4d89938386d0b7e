// Naive Chamberlin state-variable filter.
#![tactic(auto)]

ghost use Rattle.std.specs.Prelude.{◌≡◌, ◌<◌};
ghost use Rattle.filter_core.specs.Buffer.{Filtered, within, each, puts, puts_due};
ghost use Rattle.filter_core.specs.Refusal.{Answered, number_in, frequency_refusal, unless_refused};
ghost use Rattle.naive_svf.specs.Fields.{naive_from, naive_fields};
ghost use Rattle.naive_svf.specs.Sine.{sine_series, sine_exact, sine_mirrored, naive_exact, naive_linear, naive_frequency, SineIsOdd};
ghost use Rattle.naive_svf.specs.NaiveSvf.{naive_new, naive_reset, naive_set, naive_set_f_q, naive_init};
ghost use Rattle.naive_svf.specs.NaiveSvf.{naive_normalized, naive_low, naive_band, naive_high, naive_next, naive_out};

use filter_core::{FilterMode, Form, FrequencyApproximation, PairForm, Refusal};

#[derive(Clone, Copy, Default)]
pub struct NaiveSvf {
    pub f: f32,
    pub damp: f32,
    pub lp: f32,
    pub bp: f32,
}

// The two taps of a sample that the filter does not keep.
#[derive(Clone, Copy)]
struct Taps {
    normalized: f32,
    high: f32,
}

impl NaiveSvf {
    pub const PI: f32 = 3.1415927;

    // Where Exact clips, and where the others do, which take the sine for its argument.
    pub const EXACT_CLIP: f32 = 0.497;

    pub const LINEAR_CLIP: f32 = 0.158;

    // Abramowitz and Stegun 4.3.97: sin x / x by powers of x * x.
    const SINE_ROW: [f32; 6] = [
        1.0,
        -0.1666666664,
        0.0083333315,
        -0.0001984090,
        0.0000027526,
        -0.0000000239,
    ];

    pub fn new() -> Self
        ensures { result ≡ naive_new }
    {
        Self::default()
    }

    pub fn init(&mut self)
        ensures { self.new ≡ naive_init self.old }
    {
        self.set(Self::frequency(0.01, FrequencyApproximation::Dirty), 100.0);
        self.reset();
    }

    pub fn reset(&mut self)
        ensures { self.new ≡ naive_reset self.old }
    {
        self.lp = 0.0;
        self.bp = 0.0;
    }

    // sin x by the series.
    fn sine_series(x: f32) -> f32
        ensures { result ≡ sine_series x }
    {
        let row = Self::SINE_ROW;
        x * filter_core::series(x * x, &row)
    }

    fn sine_exact(f: f32) -> f32
        ensures { result ≡ sine_exact f }
    {
        Self::sine_series(Self::PI * filter_core::clip_at(Self::EXACT_CLIP, f))
    }

    // The same from 0 up, and mirrored below, as OnePole has the tangent.
    fn sine_mirrored(f: f32) -> f32
        ensures { result ≡ sine_mirrored f }
    {
        if f < 0.0 {
            -Self::sine_exact(-f)
        } else {
            Self::sine_exact(f)
        }
    }

    fn exact_frequency(f: f32) -> f32
        ensures { result ≡ naive_exact f }
    {
        2.0 * Self::sine_mirrored(f)
    }

    fn linear_frequency(f: f32) -> f32
        ensures { result ≡ naive_linear f }
    {
        2.0 * Self::PI * filter_core::clip_at(Self::LINEAR_CLIP, f)
    }

    fn frequency(f: f32, approximation: FrequencyApproximation) -> f32
        ensures { result ≡ naive_frequency f approximation }
    {
        match approximation {
            FrequencyApproximation::Exact => Self::exact_frequency(f),
            _ => Self::linear_frequency(f),
        }
    }

    // The filter at the coefficient f.
    fn set(&mut self, f: f32, resonance: f32)
        ensures { self.new ≡ naive_set self.old f resonance }
    {
        self.f = f;
        self.damp = 1.0 / resonance;
    }

    // A frequency that the approximation does not take is refused.
    pub fn set_f_q(
        &mut self,
        f: f32,
        resonance: f32,
        approximation: FrequencyApproximation,
    ) -> Result<(), Refusal>
        ensures refusal { number_in result ≡ frequency_refusal f approximation }
        ensures filter { self.new ≡ unless_refused (frequency_refusal f approximation) self.old (naive_set_f_q self.old f resonance approximation) }
    {
        filter_core::check_frequency(f, approximation)?;
        self.set(Self::frequency(f, approximation), resonance);
        Ok(())
    }

    pub fn lp(&self) -> f32
        ensures { result ≡ self.now.lp }
    {
        self.lp
    }

    pub fn bp(&self) -> f32
        ensures { result ≡ self.now.bp }
    {
        self.bp
    }

    #[tactic(auto, unfolding(crate::specs::NaiveSvf::naive_low, crate::specs::NaiveSvf::naive_high, crate::specs::NaiveSvf::naive_next))]
    fn taps(&mut self, in_: f32) -> Taps
        ensures after { self.new ≡ naive_next self.old in_ }
        ensures kept { (self.new.lp ≡ naive_low self.old in_) × (self.new.bp ≡ naive_band self.old in_) }
        ensures taps { (result.normalized ≡ naive_normalized self.old) × (result.high ≡ naive_high self.old in_) }
    {
        let normalized = self.bp * self.damp;
        let notch = in_ - normalized;
        self.lp += self.f * self.bp;
        let high = notch - self.lp;
        self.bp += self.f * high;
        Taps { normalized, high }
    }

    #[tactic(auto, unfolding(crate::specs::NaiveSvf::naive_out))]
    pub fn process(&mut self, in_: f32, mode: FilterMode) -> f32
        ensures after { self.new ≡ naive_next self.old in_ }
        ensures value { result ≡ naive_out mode self.old in_ }
    {
        let t = self.taps(in_);
        filter_core::by_mode(mode, self.lp, self.bp, t.normalized, t.high)
    }

    pub fn process_buffer(&mut self, in_: &[f32], out: &mut [f32], mode: FilterMode)
        ensures { Filtered (each naive_next) (puts (naive_out mode)) self.old (within in_.now out.old) out.old self.new out.new }
    {
        filter_core::filter_each_held(&mode, self, in_, out);
    }

    pub fn split(&mut self, in_: &[f32], low: &mut [f32], high: &mut [f32])
        ensures lows { Filtered (each naive_next) (puts naive_low) self.old (within (within in_.now low.old) high.old)
            low.old self.new low.new }
        ensures highs { Filtered (each naive_next) (puts naive_high) self.old (within (within in_.now low.old) high.old)
            high.old self.new high.new }
    {
        filter_core::filter_pair_held(&Split, self, in_, low, high);
    }

    // Filters every sample and writes the places 0, decimate, 2 decimate .. only, each at its own place. A decimation of 0 is refused.
    pub fn process_decimate(
        &mut self,
        in_: &[f32],
        out: &mut [f32],
        decimate: usize,
        mode: FilterMode,
    ) -> Result<(), Refusal>
        ensures { Answered decimate (each naive_next) (puts_due decimate (naive_out mode)) self.old (within in_.now out.old)
            out.old (number_in result) self.new out.new }
    {
        filter_core::check_step(decimate)?;
        self.decimate_buffer(in_, out, decimate, mode);
        Ok(())
    }

    fn decimate_buffer(&mut self, in_: &[f32], out: &mut [f32], decimate: usize, mode: FilterMode)
        requires { 0 < decimate }
        ensures { Filtered (each naive_next) (puts_due decimate (naive_out mode)) self.old (within in_.now out.old) out.old self.new out.new }
    {
        let n = in_.len().min(out.len());
        // A filter of its own, as in `filter_each_held`.
        let mut filter = *self;
        // The phase begins anew at each call. It is counted down, so that no sample has a division. Tried with chunks:
        // after a loop over `chunks(..).zip(chunks_mut(..))` a proof knows the length of `out`, and nothing of what was written.
        let mut left = 0;
        for i in 0..n {
            let y = filter.process(in_[i], mode);
            let waits = left > 0;
            if waits {
                left -= 1;
                continue;
            }
            out[i] = y;
            left = decimate - 1;
        }
        *self = filter;
    }
}

// ---- how each form takes a sample

impl Form<NaiveSvf> for FilterMode {
    ghost next = { λ mode s x. naive_next s x };

    ghost out = { λ mode s x. naive_out mode s x };

    fn step(&self, filter: &mut NaiveSvf, x: f32) -> f32 {
        filter.process(x, *self)
    }
}

// The low-pass and the high-pass.
#[derive(Clone, Copy)]
struct Split;

impl PairForm<NaiveSvf> for Split {
    ghost next = { λ form s x. naive_next s x };

    ghost first = { λ form s x. naive_low s x };

    ghost second = { λ form s x. naive_high s x };

    fn step(&self, filter: &mut NaiveSvf, x: f32) -> (f32, f32) {
        let t = filter.taps(x);
        (filter.lp, t.high)
    }
}

// ---- a filter as the array of its fields

impl From<[f32; 4]> for NaiveSvf {
    ghost from_gives = { λ fields s. s ≡ naive_from fields };

    fn from(fields: [f32; 4]) -> NaiveSvf {
        let [f, damp, lp, bp] = fields;
        NaiveSvf { f, damp, lp, bp }
    }
}

impl From<NaiveSvf> for [f32; 4] {
    ghost from_gives = { λ s fields. fields ≡ naive_fields s };

    fn from(s: NaiveSvf) -> [f32; 4] {
        [s.f, s.damp, s.lp, s.bp]
    }
}

// Exact's coefficient is twice 01's sine from 0 up, and below 0 the negative of its value at -f.
pub fn sine_is_odd()
    ensures { SineIsOdd }
{}
