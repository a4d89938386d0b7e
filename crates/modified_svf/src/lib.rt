// Modified Chamberlin state-variable filter (Duane K. Wise).
#![tactic(auto)]

ghost use Rattle.std.specs.Prelude.{◌≡◌};
ghost use Rattle.filter_core.specs.Buffer.{Filtered, within, each, puts};
ghost use Rattle.modified_svf.specs.Fields.{modified_from, modified_fields};
ghost use Rattle.modified_svf.specs.ModifiedSvf.{modified_new, modified_init, modified_reset, modified_set_f_fq, modified_next, modified_out};

use filter_core::{FilterMode, Form};

#[derive(Clone, Copy, Default)]
pub struct ModifiedSvf {
    pub f: f32,
    pub fq: f32,
    pub x: f32,
    pub lp: f32,
    pub bp: f32,
}

impl ModifiedSvf {
    pub fn new() -> Self
        ensures { result ≡ modified_new }
    {
        Self::default()
    }

    pub fn init(&mut self)
        ensures { self.new ≡ modified_init self.old }
    {
        self.reset();
    }

    // The last sample x stays, as in the source.
    pub fn reset(&mut self)
        ensures { self.new ≡ modified_reset self.old }
    {
        self.lp = 0.0;
        self.bp = 0.0;
    }

    pub fn set_f_fq(&mut self, f: f32, fq: f32)
        ensures { self.new ≡ modified_set_f_fq self.old f fq }
    {
        self.f = f;
        self.fq = fq;
        self.x = 0.0;
    }

    // One sample. The crossover filter is two of these in series.
    #[tactic(auto, unfolding(crate::specs::ModifiedSvf::modified_next, crate::specs::ModifiedSvf::modified_out))]
    pub fn process_sample(&mut self, in_: f32, mode: FilterMode) -> f32
        ensures after { self.new ≡ modified_next mode self.old in_ }
        ensures value { result ≡ modified_out mode self.old in_ }
    {
        let f = self.f;
        let fq = self.fq;
        let lp = self.lp + f * self.bp;
        let plain = self.bp + (-fq * self.bp - f * lp + in_);
        let summed = plain + self.x;
        let bp = filter_core::by_mode(mode, plain, summed, summed, plain);
        self.x = in_;
        self.lp = lp;
        self.bp = bp;
        filter_core::by_mode(mode, lp * f, bp * f, bp * fq, in_ - lp * f - bp * fq)
    }

    pub fn process(&mut self, in_: &[f32], out: &mut [f32], mode: FilterMode)
        ensures { Filtered (each (modified_next mode)) (puts (modified_out mode)) self.old (within in_.now out.old) out.old self.new out.new }
    {
        filter_core::filter_each_held(&mode, self, in_, out);
    }
}

// Every sample gives the mode's tap.
impl Form<ModifiedSvf> for FilterMode {
    ghost next = { λ mode s x. modified_next mode s x };

    ghost out = { λ mode s x. modified_out mode s x };

    fn step(&self, filter: &mut ModifiedSvf, x: f32) -> f32 {
        filter.process_sample(x, *self)
    }
}

// ---- a filter as the array of its fields

impl From<[f32; 5]> for ModifiedSvf {
    ghost from_gives = { λ fields s. s ≡ modified_from fields };

    fn from(fields: [f32; 5]) -> ModifiedSvf {
        let [f, fq, x, lp, bp] = fields;
        ModifiedSvf { f, fq, x, lp, bp }
    }
}

impl From<ModifiedSvf> for [f32; 5] {
    ghost from_gives = { λ s fields. fields ≡ modified_fields s };

    fn from(s: ModifiedSvf) -> [f32; 5] {
        [s.f, s.fq, s.x, s.lp, s.bp]
    }
}
