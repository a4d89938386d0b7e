// The filter that an entry of a library becomes in a head.
#![tactic(auto)]

ghost use Rattle.std.specs.Prelude.{◌≡◌};
ghost use Rattle.loads.specs.Load.{filter_for, filter_of};
ghost use Rattle.loads.specs.Rest.{LoadsAtRest};
ghost use Rattle.loads.specs.Set.{LoadsAreSet};
ghost use Rattle.loads.specs.Editions.{LoadsInBothEditions};

use any_filter::Filter;
use crossover_svf::CrossoverSvf;
use dc_blocker::DcBlocker;
use modified_svf::ModifiedSvf;
use naive_svf::NaiveSvf;
use one_pole::OnePole;
use sheets::{Entry, Setter};
use svf::Svf;

// New of the setter's type, and then the setter, which takes as many of the three numbers as it has parameters. One that is refused leaves
// the new filter; no entry of a sheet is. The numbers are those of an entry's fields, which are public and have 01's names, so no array
// holds the three.
#[tactic(auto, unfolding(crate::specs::Load::filter_for))]
fn filter_for(setter: Setter, a: f32, b: f32, c: f32) -> Filter
    ensures { result ≡ filter_for setter a b c }
{
    // By the setter's own cases.
    match setter {
        Setter::DcBlocker => {
            let mut filter = DcBlocker::new();
            filter.init(a);
            Filter::DcBlocker(filter)
        }
        Setter::OnePole(approximation) => {
            let mut filter = OnePole::new();
            let _ = filter.set_f(a, approximation);
            Filter::OnePole(filter)
        }
        Setter::SvfFrequency(approximation) => {
            let mut filter = Svf::new();
            let _ = filter.set_f_q(a, b, approximation);
            Filter::Svf(filter)
        }
        Setter::SvfCoefficients => {
            let mut filter = Svf::new();
            filter.set_g_r_h(a, b, c);
            Filter::Svf(filter)
        }
        Setter::NaiveSvf(approximation) => {
            let mut filter = NaiveSvf::new();
            let _ = filter.set_f_q(a, b, approximation);
            Filter::NaiveSvf(filter)
        }
        Setter::ModifiedSvf => {
            let mut filter = ModifiedSvf::new();
            filter.set_f_fq(a, b);
            Filter::ModifiedSvf(filter)
        }
        Setter::CrossoverSvf => {
            let mut filter = CrossoverSvf::new();
            filter.set_f_fq(a, b);
            Filter::CrossoverSvf(filter.into())
        }
    }
}

// The settings are copied: a library opened later alters nothing here.
pub fn filter_of(entry: Entry) -> Filter
    ensures { result ≡ filter_of entry }
{
    let a = words::word_to_f32(entry.a);
    let b = words::word_to_f32(entry.b);
    let c = words::word_to_f32(entry.c);
    // A kind byte that names no setter, which no sheet has, is read as a DC blocker's.
    let setter = sheets::setter_of(entry.kind).unwrap_or(Setter::DcBlocker);
    filter_for(setter, a, b, c)
}

// What a load makes is at rest already.
#[tactic(auto, using(crate::proofs::Rest::loads_at_rest))]
pub fn loads_at_rest()
    ensures { LoadsAtRest }
{}

// What a load makes of an entry that the check takes is what the setter makes: no setter refuses it.
#[tactic(auto, using(crate::proofs::Set::loads_are_set))]
pub fn loads_are_set()
    ensures { LoadsAreSet }
{}

// A load asks for no edition: an entry makes the filter that its own edition gives it, and a sheet of edition 1 makes what a reader of
// edition 1 finds in it.
#[tactic(auto, using(crate::proofs::Editions::loads_in_both_editions))]
pub fn loads_in_both_editions()
    ensures { LoadsInBothEditions }
{}
