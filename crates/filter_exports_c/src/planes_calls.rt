// Samples in planes, to store a trace. An accepted call has written as many bytes as its input has.

ghost use Rattle.std.specs.Prelude.{◌≡◌};
ghost use Rattle.planes.specs.Planes.{planes_of, samples_of, arrange_number, arranged};

#[unsafe(no_mangle)]
pub extern "C" fn samples_to_planes(samples: &[u8], output: &mut [u8]) -> u8
    ensures value { result ≡ arrange_number samples.now output.old }
    ensures output_after { output.new ≡ arranged planes_of samples.now output.old }
{
    filter_exports::planes_calls::samples_to_planes(samples, output)
}

#[unsafe(no_mangle)]
pub extern "C" fn planes_to_samples(planes: &[u8], output: &mut [u8]) -> u8
    ensures value { result ≡ arrange_number planes.now output.old }
    ensures output_after { output.new ≡ arranged samples_of planes.now output.old }
{
    filter_exports::planes_calls::planes_to_samples(planes, output)
}
