// Blocks what is constant in a signal, in place.
#![tactic(auto)]

ghost use Rattle.std.specs.Prelude.{◌≡◌};
ghost use Rattle.filter_core.specs.Buffer.{Filtered, each, puts};
ghost use Rattle.dc_blocker.specs.DcBlocker.{dc_new, dc_init, dc_next, dc_out};
ghost use Rattle.dc_blocker.specs.Fields.{dc_from, dc_fields};

use filter_core::{FilterMode, Form};

#[derive(Clone, Copy, Default)]
pub struct DcBlocker {
    pub pole: f32,
    pub x: f32,
    pub y: f32,
}

impl DcBlocker {
    pub fn new() -> Self
        ensures { result ≡ dc_new }
    {
        Self::default()
    }

    pub fn init(&mut self, pole: f32)
        ensures { self.new ≡ dc_init self.old pole }
    {
        self.pole = pole;
        self.x = 0.0;
        self.y = 0.0;
    }

    // One sample: the new y is the output.
    fn next(&mut self, x: f32) -> f32
        ensures after { self.new ≡ dc_next self.old x }
        ensures value { result ≡ dc_out self.old x }
    {
        self.y = self.y * self.pole + x - self.x;
        self.x = x;
        self.y
    }

    pub fn process(&mut self, in_out: &mut [f32])
        ensures { Filtered (each dc_next) (puts dc_out) self.old in_out.old in_out.old self.new in_out.new }
    {
        // A filter of its own, as in `filter_each_held`.
        let mut filter = *self;
        for x in in_out.iter_mut() {
            *x = filter.next(*x);
        }
        *self = filter;
    }
}

// From one buffer to another, by any mode: it has one output.
impl Form<DcBlocker> for FilterMode {
    ghost next = { λ mode s x. dc_next s x };

    ghost out = { λ mode s x. dc_out s x };

    fn step(&self, filter: &mut DcBlocker, x: f32) -> f32 {
        filter.next(x)
    }
}

// ---- a filter as the array of its fields

impl From<[f32; 3]> for DcBlocker {
    ghost from_gives = { λ fields s. s ≡ dc_from fields };

    fn from(fields: [f32; 3]) -> DcBlocker {
        let [pole, x, y] = fields;
        DcBlocker { pole, x, y }
    }
}

impl From<DcBlocker> for [f32; 3] {
    ghost from_gives = { λ s fields. fields ≡ dc_fields s };

    fn from(s: DcBlocker) -> [f32; 3] {
        [s.pole, s.x, s.y]
    }
}
