// Two passes of the modified state-variable filter with the same coefficients, for Linkwitz-Riley crossovers.
#![tactic(auto)]

ghost use Rattle.std.specs.Prelude.{◌≡◌, ◌<◌};
ghost use Rattle.filter_core.specs.Buffer.{Filtered, within, each, puts};
ghost use Rattle.crossover_svf.specs.Fields.{crossover_from, crossover_fields};
ghost use Rattle.crossover_svf.specs.CrossoverSvf.{crossover_new, crossover_init, crossover_reset, crossover_set_f_fq, pass, joined, crossover_next, crossover_out};

use filter_core::{FilterMode, Form};
use modified_svf::ModifiedSvf;

// The members of x, lp and bp are those of the first and of the second pass. By field, as the source has them: two ModifiedSvf would hold
// the settings twice.
#[derive(Clone, Copy, Default)]
pub struct CrossoverSvf {
    pub f: f32,
    pub fq: f32,
    pub x: [f32; 2],
    pub lp: [f32; 2],
    pub bp: [f32; 2],
}

impl CrossoverSvf {
    pub fn new() -> Self
        ensures { result ≡ crossover_new }
    {
        Self::default()
    }

    pub fn init(&mut self)
        ensures { self.new ≡ crossover_init self.old }
    {
        self.reset();
    }

    pub fn reset(&mut self)
        ensures { self.new ≡ crossover_reset self.old }
    {
        self.x = [0.0; 2];
        self.lp = [0.0; 2];
        self.bp = [0.0; 2];
    }

    // The last samples x stay, as in the source. Two parameters, as the source's call has them.
    pub fn set_f_fq(&mut self, f: f32, fq: f32)
        ensures { self.new ≡ crossover_set_f_fq self.old f fq }
    {
        self.f = f;
        self.fq = fq;
    }

    // The pass k as a filter of its own, field by field: its settings are the crossover's, its samples those of place k.
    fn pass(&self, k: usize) -> ModifiedSvf
        requires { k < 2 }
        ensures { result ≡ pass k self.now }
    {
        ModifiedSvf {
            f: self.f,
            fq: self.fq,
            x: self.x[k],
            lp: self.lp[k],
            bp: self.bp[k],
        }
    }

    // Takes the states of the two passes back.
    fn join(&mut self, a: ModifiedSvf, b: ModifiedSvf)
        ensures { self.new ≡ joined self.old a b }
    {
        self.x = [a.x, b.x];
        self.lp = [a.lp, b.lp];
        self.bp = [a.bp, b.bp];
    }

    // One sample, through both passes.
    #[tactic(auto, unfolding(crate::specs::CrossoverSvf::crossover_next, crate::specs::CrossoverSvf::crossover_out))]
    fn process_sample(&mut self, in_: f32, mode: FilterMode) -> f32
        ensures after { self.new ≡ crossover_next mode self.old in_ }
        ensures value { result ≡ crossover_out mode self.old in_ }
    {
        let mut a = self.pass(0);
        let mut b = self.pass(1);
        let between = a.process_sample(in_, mode);
        let out = b.process_sample(between, mode);
        self.join(a, b);
        out
    }

    // With the source's parameters: why they are no struct is said at `filter_each`.
    pub fn process(&mut self, in_: &[f32], out: &mut [f32], mode: FilterMode)
        ensures { Filtered (each (crossover_next mode)) (puts (crossover_out mode)) self.old (within in_.now out.old) out.old self.new out.new }
    {
        filter_core::filter_each_held(&mode, self, in_, out);
    }
}

// Every sample gives the mode's tap.
impl Form<CrossoverSvf> for FilterMode {
    ghost next = { λ mode s x. crossover_next mode s x };

    ghost out = { λ mode s x. crossover_out mode s x };

    fn step(&self, filter: &mut CrossoverSvf, x: f32) -> f32 {
        filter.process_sample(x, *self)
    }
}

// ---- a filter as the array of its fields

impl From<[f32; 8]> for CrossoverSvf {
    ghost from_gives = { λ fields s. s ≡ crossover_from fields };

    fn from(fields: [f32; 8]) -> CrossoverSvf {
        let [f, fq, x_0, x_1, lp_0, lp_1, bp_0, bp_1] = fields;
        CrossoverSvf {
            f,
            fq,
            x: [x_0, x_1],
            lp: [lp_0, lp_1],
            bp: [bp_0, bp_1],
        }
    }
}

impl From<CrossoverSvf> for [f32; 8] {
    ghost from_gives = { λ s fields. fields ≡ crossover_fields s };

    fn from(s: CrossoverSvf) -> [f32; 8] {
        [
            s.f, s.fq, s.x[0], s.x[1], s.lp[0], s.lp[1], s.bp[0], s.bp[1],
        ]
    }
}
