// The loops of the buffer forms, once for every filter and every way to take a sample through it.

ghost use Rattle.std.specs.Prelude.{◌≡◌, Float};
ghost use Rattle.filter_core.specs.Buffer.{Filtered, within, each, puts};

// How a form takes a sample through a filter of type S, and what it puts out: its tap, with what gain.
pub trait Form<S> {
    ghost next: { Self → S → Float → S };

    ghost out: { Self → S → Float → Float };

    fn step(&self, filter: &mut S, x: f32) -> f32
        ensures after { filter.new ≡ next self.now filter.old x }
        ensures value { result ≡ out self.now filter.old x };
}

// The same with two outputs.
pub trait PairForm<S> {
    ghost next: { Self → S → Float → S };

    ghost first: { Self → S → Float → Float };

    ghost second: { Self → S → Float → Float };

    fn step(&self, filter: &mut S, x: f32) -> (f32, f32)
        ensures after { filter.new ≡ next self.now filter.old x }
        ensures first_value { result.0 ≡ first self.now filter.old x }
        ensures second_value { result.1 ≡ second self.now filter.old x };
}

// Every sample within the shorter length is filtered, and its place written, by a counted loop, as 01 asks. Input and output are parameters
// of their own, here and in every form, as in the source: of a struct of both the one half would be lent and the other lent to be changed.
pub fn filter_each<S, F: Form<S>>(form: &F, filter: &mut S, input: &[f32], output: &mut [f32])
    ensures { Filtered (each (F.next form.now)) (puts (F.out form.now)) filter.old (within input.now output.old)
        output.old filter.new output.new }
{
    let n = input.len().min(output.len());
    for i in 0..n {
        output[i] = form.step(filter, input[i]);
    }
}

// The same into two outputs.
pub fn filter_pair<S, F: PairForm<S>>(
    form: &F,
    filter: &mut S,
    input: &[f32],
    first: &mut [f32],
    second: &mut [f32],
)
    ensures firsts { Filtered (each (F.next form.now)) (puts (F.first form.now)) filter.old
        (within (within input.now first.old) second.old) first.old filter.new first.new }
    ensures seconds { Filtered (each (F.next form.now)) (puts (F.second form.now)) filter.old
        (within (within input.now first.old) second.old) second.old filter.new second.new }
{
    let n = input.len().min(first.len().min(second.len()));
    for i in 0..n {
        (first[i], second[i]) = form.step(filter, input[i]);
    }
}

// ---- the same with the filter in a variable of its own, which stays in registers: behind the reference, each sample's state would be stored
// before the next one reads it, and a filter's time is that of the chain from state to state

pub fn filter_each_held<S: Copy, F: Form<S>>(
    form: &F,
    filter: &mut S,
    input: &[f32],
    output: &mut [f32],
)
    ensures { Filtered (each (F.next form.now)) (puts (F.out form.now)) filter.old (within input.now output.old)
        output.old filter.new output.new }
{
    let mut held = *filter;
    filter_each(form, &mut held, input, output);
    *filter = held;
}

pub fn filter_pair_held<S: Copy, F: PairForm<S>>(
    form: &F,
    filter: &mut S,
    input: &[f32],
    first: &mut [f32],
    second: &mut [f32],
)
    ensures firsts { Filtered (each (F.next form.now)) (puts (F.first form.now)) filter.old
        (within (within input.now first.old) second.old) first.old filter.new first.new }
    ensures seconds { Filtered (each (F.next form.now)) (puts (F.second form.now)) filter.old
        (within (within input.now first.old) second.old) second.old filter.new second.new }
{
    let mut held = *filter;
    filter_pair(form, &mut held, input, first, second);
    *filter = held;
}
