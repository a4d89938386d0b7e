// A buffer or a sheet in a line: hexadecimal digits, or `-` for none.

ghost use Rattle.std.specs.Prelude.{◌≡◌, option_copied};
ghost use Rattle.call_text.specs.Buffer.{hex_run, units_field};

use digits::Unit;

fn hex_run(s: &[u8]) -> bool
    ensures { result ≡ hex_run s.now }
{
    !s.is_empty() && s.len() <= 8192 && digits::all_hex(s)
}

// The field, if it has whole units in at most 8,192 hexadecimal digits, so 4,096 bytes or 1,024 samples; `-` for none.
pub(crate) fn units_field<T: Unit>(s: &[u8]) -> Option<&[u8]>
    ensures { option_copied result ≡ units_field T.DIGITS s.now }
{
    if s == b"-".as_slice() || s.len() % T::DIGITS == 0 && hex_run(s) {
        return Some(s);
    }
    None
}
