// The gains of multimode, which goes from low-pass at 0 by the inverted high-pass at 0.5 to band-pass at 1.
#![tactic(auto)]

ghost use Rattle.std.specs.Prelude.{◌≡◌};
ghost use Rattle.multimode.specs.Multimode.{high_gain, band_gain, low_gain};

pub fn high_gain(mode: f32) -> f32
    ensures { result ≡ high_gain mode }
{
    if mode < 0.5 {
        -mode * 2.0
    } else {
        -2.0 + mode * 2.0
    }
}

pub fn band_gain(mode: f32) -> f32
    ensures { result ≡ band_gain mode }
{
    if mode < 0.5 { 0.0 } else { mode * 2.0 - 1.0 }
}

pub fn low_gain(mode: f32) -> f32
    ensures { result ≡ low_gain mode }
{
    if mode < 0.5 { 1.0 - mode * 2.0 } else { 0.0 }
}
