// The six filters as one enum: what a head holds. Rest, and a filter as a row of eight numbers and back.
#![tactic(auto)]

ghost use Rattle.std.specs.Prelude.{◌≡◌, ◌≤◌};
ghost use Rattle.any_filter.specs.Cases.{passes_of, crossover_from, type_of, rested};
ghost use Rattle.any_filter.specs.Fields.{type_number, type_numbered, field_count, padded, fields_of, filter_from, FieldsReturn};
ghost use Rattle.any_filter.specs.Words.{words_of, filter_of_words, FilterWordsReturn};
ghost use Rattle.any_filter.specs.Rest.{RestClears};

use crossover_svf::CrossoverSvf;
use dc_blocker::DcBlocker;
use modified_svf::ModifiedSvf;
use naive_svf::NaiveSvf;
use one_pole::OnePole;
use svf::Svf;

// A crossover filter with the members of its arrays singly. In a theorem an array may have any length, and a filter that holds arrays would
// not come back from its fields; held singly it does, whatever they are.
#[derive(Clone, Copy)]
pub struct Passes {
    pub f: f32,
    pub fq: f32,
    pub x_0: f32,
    pub x_1: f32,
    pub lp_0: f32,
    pub lp_1: f32,
    pub bp_0: f32,
    pub bp_1: f32,
}

impl From<CrossoverSvf> for Passes {
    ghost from_gives = { λ s passes. passes ≡ passes_of s };

    fn from(s: CrossoverSvf) -> Passes {
        Passes {
            f: s.f,
            fq: s.fq,
            x_0: s.x[0],
            x_1: s.x[1],
            lp_0: s.lp[0],
            lp_1: s.lp[1],
            bp_0: s.bp[0],
            bp_1: s.bp[1],
        }
    }
}

impl From<Passes> for CrossoverSvf {
    ghost from_gives = { λ passes s. s ≡ crossover_from passes };

    fn from(p: Passes) -> CrossoverSvf {
        CrossoverSvf {
            f: p.f,
            fq: p.fq,
            x: [p.x_0, p.x_1],
            lp: [p.lp_0, p.lp_1],
            bp: [p.bp_0, p.bp_1],
        }
    }
}

// A filter of any of the six types.
#[derive(Clone, Copy)]
pub enum Filter {
    DcBlocker(DcBlocker),
    OnePole(OnePole),
    Svf(Svf),
    NaiveSvf(NaiveSvf),
    ModifiedSvf(ModifiedSvf),
    CrossoverSvf(Passes),
}

// In document 01's order of the six. A type's number is its variant's.
#[derive(Clone, Copy, Debug, PartialEq, Eq)]
pub enum FilterType {
    DcBlocker = 1,
    OnePole = 2,
    Svf = 3,
    NaiveSvf = 4,
    ModifiedSvf = 5,
    CrossoverSvf = 6,
}

impl From<FilterType> for u8 {
    ghost from_gives = { λ filter n. n ≡ type_number filter };

    fn from(filter: FilterType) -> u8 {
        filter as u8
    }
}

impl FilterType {
    // The type with a number; 0 and those above 6 are no type's.
    pub fn of_number(n: u8) -> Option<FilterType>
        ensures { result ≡ type_numbered n }
    {
        match n {
            1 => Some(FilterType::DcBlocker),
            2 => Some(FilterType::OnePole),
            3 => Some(FilterType::Svf),
            4 => Some(FilterType::NaiveSvf),
            5 => Some(FilterType::ModifiedSvf),
            6 => Some(FilterType::CrossoverSvf),
            _ => None,
        }
    }

    // How many fields the type has; eight at most.
    pub fn field_count(self) -> usize
        ensures { result ≡ field_count self }
    {
        match self {
            FilterType::DcBlocker | FilterType::OnePole => 3,
            FilterType::NaiveSvf => 4,
            FilterType::Svf | FilterType::ModifiedSvf => 5,
            FilterType::CrossoverSvf => 8,
        }
    }
}

// So many numbers, with zeros behind.
fn padded<const N: usize>(fields: [f32; N]) -> [f32; 8]
    requires { N ≤ 8 }
    ensures { result ≡ padded N fields.entry }
{
    let mut row = [0.0; 8];
    row[..N].copy_from_slice(&fields);
    row
}

impl Filter {
    pub fn filter_type(&self) -> FilterType
        ensures { result ≡ type_of self.now }
    {
        match self {
            Filter::DcBlocker(_) => FilterType::DcBlocker,
            Filter::OnePole(_) => FilterType::OnePole,
            Filter::Svf(_) => FilterType::Svf,
            Filter::NaiveSvf(_) => FilterType::NaiveSvf,
            Filter::ModifiedSvf(_) => FilterType::ModifiedSvf,
            Filter::CrossoverSvf(_) => FilterType::CrossoverSvf,
        }
    }

    // The fields in the order of their declaration, an array's members one after the other, and zeros behind.
    pub fn fields(&self) -> [f32; 8]
        ensures { result ≡ fields_of self.now }
    {
        match *self {
            Filter::DcBlocker(s) => padded(s.into()),
            Filter::OnePole(s) => padded(s.into()),
            Filter::Svf(s) => padded(s.into()),
            Filter::NaiveSvf(s) => padded(s.into()),
            Filter::ModifiedSvf(s) => padded(s.into()),
            Filter::CrossoverSvf(p) => CrossoverSvf::from(p).into(),
        }
    }

    // The filter of a type with these fields. Those behind the type's last do not count. By the type's own cases: each has other fields.
    pub fn of_fields(filter: FilterType, v: [f32; 8]) -> Filter
        ensures { result ≡ filter_from filter v }
    {
        match filter {
            FilterType::DcBlocker => Filter::DcBlocker([v[0], v[1], v[2]].into()),
            FilterType::OnePole => Filter::OnePole([v[0], v[1], v[2]].into()),
            FilterType::Svf => Filter::Svf([v[0], v[1], v[2], v[3], v[4]].into()),
            FilterType::NaiveSvf => Filter::NaiveSvf([v[0], v[1], v[2], v[3]].into()),
            FilterType::ModifiedSvf => Filter::ModifiedSvf([v[0], v[1], v[2], v[3], v[4]].into()),
            FilterType::CrossoverSvf => Filter::CrossoverSvf(CrossoverSvf::from(v).into()),
        }
    }

    // The fields as words of binary32: what is saved of a filter, and shown of it.
    pub fn words(&self) -> [u32; 8]
        ensures { result ≡ words_of self.now }
    {
        self.fields().map(words::f32_to_word)
    }

    // The filter of a type with these words.
    pub fn of_words(filter: FilterType, w: [u32; 8]) -> Filter
        ensures { result ≡ filter_of_words filter w }
    {
        Filter::of_fields(filter, w.map(words::word_to_f32))
    }

    // Clears what the filter retains of past samples: the type's own reset; of the DC blocker, which has none, x and y become 0; of the
    // modified filter, whose reset leaves the last sample, x becomes 0 too. A match and not a dyn filter: that would want a heap, and a mark
    // could not keep it as a value.
    pub fn rest(&mut self)
        ensures { self.new ≡ rested self.old }
    {
        match self {
            Filter::DcBlocker(s) => s.init(s.pole),
            Filter::OnePole(s) => s.reset(),
            Filter::Svf(s) => s.reset(),
            Filter::NaiveSvf(s) => s.reset(),
            Filter::ModifiedSvf(s) => {
                s.reset();
                s.x = 0.0;
            }
            Filter::CrossoverSvf(p) => {
                let mut s = CrossoverSvf::from(*p);
                s.reset();
                *p = s.into();
            }
        }
    }
}

// A filter comes back from its type and its fields.
#[tactic(auto, using(crate::proofs::Laws::comes_back))]
pub fn fields_return()
    ensures { FieldsReturn }
{}

// A filter comes back from its words, and words from the filter that they make.
#[tactic(auto, using(crate::proofs::Words::filter_words_return))]
pub fn filter_words_return()
    ensures { FilterWordsReturn }
{}

// A rest keeps the coefficients and clears all else.
#[tactic(auto, using(crate::proofs::Laws::clears))]
pub fn rest_clears()
    ensures { RestClears }
{}
