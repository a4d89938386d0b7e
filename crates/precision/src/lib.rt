// How true the tangent's polynomials are (02 g), the source's three and Series: a theorem, and no code.
#![tactic(auto)]

ghost use Rattle.precision.specs.Precision.{Precision};

// For every binary32 f from 2^-20 to 0.5, word by word too, what `OnePole::tan_value` answers is within so many units of the exact value of
// the same polynomial, a unit being 2^-24 of that value: 5 in Dirty, 8 in Fast, 17 in Accurate, 33 in Series, and up to 0.25 33 in Exact.
pub fn precision()
    ensures { Precision }
{}
