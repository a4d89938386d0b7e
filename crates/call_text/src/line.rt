// A whole line.

ghost use Rattle.std.specs.Prelude.{◌≡◌, option_map, option_copied};
ghost use Rattle.form_text.specs.Field.{fields_left};
ghost use Rattle.call_text.specs.Line.{small_number, one_number, two_numbers, one_buffer, buffer_and_number, two_buffers, tell_call, convert_call, run_call, two_call, alone_call, head_call, head_number_call, buffer_call, buffer_number_call, two_buffers_call, call_for, answer_for, is_silent, call_of, text_pair, text_buffers, text_call, text_answer};

use crate::bad_line::BadLine;
use crate::buffer::units_field;
use crate::edition::edition_of;
use crate::keyword::{
    Alone, Keyword, OfBuffer, OfBufferNumber, OfHead, OfHeadNumber, OfTwoBuffers, keyword_of,
};
use digits::number_of;
use form_text::{Fields, form_of};
use runs::RunForm;
use sheets::Edition;

// What a line asks for. A buffer or a sheet, of the type B, is the field that has its text: `digits::units` reads it.
// No Copy: nothing copies a call, and of all that is proved here a derived Clone of so many cases would cost the most.
#[derive(Drop)]
pub enum Call<B> {
    Open(B),
    Load {
        head: usize,
        entry: usize,
    },
    Run {
        head: usize,
        form: RunForm,
        input: B,
        output: B,
    },
    Two {
        head: usize,
        form: RunForm,
        input: B,
        first: B,
        second: B,
    },
    Rest(usize),
    Mark(usize),
    Back {
        head: usize,
        mark: usize,
    },
    Drop {
        head: usize,
        mark: usize,
    },
    Write(B),
    Check {
        sheet: B,
        entry: usize,
    },
    Lookup {
        sheet: B,
        entry: usize,
    },
    Head(usize),
    Check1 {
        sheet: B,
        entry: usize,
    },
    Lookup1 {
        sheet: B,
        entry: usize,
    },
    Convert {
        wanted: Edition,
        sheet: B,
        output: B,
    },
    Count(usize),
    Begin,
    Take(B),
    Tell {
        head: usize,
        samples: u16,
    },
    Turn,
    Save(B),
    Restore(B),
    Planes {
        samples: B,
        output: B,
    },
    Samples {
        planes: B,
        output: B,
    },
    // the place of a trial routine (02 l)
    Trial(usize),
}

// A NUMBER, if 16 bits hold it. A greater one is not cut to what they hold: its line is bad.
fn small_number(s: &[u8]) -> Option<u16>
    ensures { result ≡ small_number s.now }
{
    u16::try_from(number_of(s)?).ok()
}

// Each reader below is of other words: one for any two words would be told how each is read, and be no shorter.

// HEAD, or the NUMBER of `trial`
fn one_number(fields: Fields<'_>) -> Option<usize>
    ensures { result ≡ one_number (fields_left fields.entry) }
{
    number_of(fields.one()?)
}

// HEAD ENTRY, HEAD MARK
fn two_numbers(fields: Fields<'_>) -> Option<(usize, usize)>
    ensures { result ≡ two_numbers (fields_left fields.entry) }
{
    let (head, n) = fields.two()?;
    Some((number_of(head)?, number_of(n)?))
}

// HEAD NUMBER, of which the second has 16 bits
fn tell_call<'a>(fields: Fields<'a>) -> Option<Call<&'a [u8]>>
    ensures { option_map text_call result ≡ tell_call (fields_left fields.entry) }
{
    let (head, samples) = fields.two()?;
    Some(Call::Tell {
        head: number_of(head)?,
        samples: small_number(samples)?,
    })
}

// BYTES
fn one_buffer<'a>(fields: Fields<'a>) -> Option<&'a [u8]>
    ensures { option_copied result ≡ one_buffer (fields_left fields.entry) }
{
    units_field::<u8>(fields.one()?)
}

// BYTES ENTRY
fn buffer_and_number<'a>(fields: Fields<'a>) -> Option<(&'a [u8], usize)>
    ensures { option_map text_pair result ≡ buffer_and_number (fields_left fields.entry) }
{
    let (b, n) = fields.two()?;
    Some((units_field::<u8>(b)?, number_of(n)?))
}

// BYTES BYTES
fn two_buffers<'a>(fields: Fields<'a>) -> Option<(&'a [u8], &'a [u8])>
    ensures { option_map text_buffers result ≡ two_buffers (fields_left fields.entry) }
{
    let (input, output) = fields.two()?;
    Some((units_field::<u8>(input)?, units_field::<u8>(output)?))
}

// EDITION BYTES BYTES
fn convert_call<'a>(fields: Fields<'a>) -> Option<Call<&'a [u8]>>
    ensures { option_map text_call result ≡ convert_call (fields_left fields.entry) }
{
    let (wanted, sheet, target) = fields.three()?;
    Some(Call::Convert {
        wanted: edition_of(wanted)?,
        sheet: units_field::<u8>(sheet)?,
        output: units_field::<u8>(target)?,
    })
}

// HEAD FORM IN OUT
fn run_call<'a>(mut fields: Fields<'a>) -> Option<Call<&'a [u8]>>
    ensures { option_map text_call result ≡ run_call (fields_left fields.entry) }
{
    let head = fields.next()?;
    let (form, input, output) = fields.three()?;
    Some(Call::Run {
        head: number_of(head)?,
        form: form_of(form)?,
        input: units_field::<f32>(input)?,
        output: units_field::<f32>(output)?,
    })
}

// HEAD FORM IN OUT1 OUT2
fn two_call<'a>(mut fields: Fields<'a>) -> Option<Call<&'a [u8]>>
    ensures { option_map text_call result ≡ two_call (fields_left fields.entry) }
{
    let head = fields.next()?;
    let form = fields.next()?;
    let (input, first, second) = fields.three()?;
    Some(Call::Two {
        head: number_of(head)?,
        form: form_of(form)?,
        input: units_field::<f32>(input)?,
        first: units_field::<f32>(first)?,
        second: units_field::<f32>(second)?,
    })
}

// The calls of the keywords behind which the same words stand.

fn alone_call<'a>(keyword: Alone, fields: Fields<'a>) -> Option<Call<&'a [u8]>>
    ensures { option_map text_call result ≡ alone_call keyword (fields_left fields.entry) }
{
    fields.end()?;
    match keyword {
        Alone::Begin => Some(Call::Begin),
        Alone::Turn => Some(Call::Turn),
    }
}

fn head_call<'a>(keyword: OfHead, head: usize) -> Call<&'a [u8]>
    ensures { text_call result ≡ head_call keyword head }
{
    match keyword {
        OfHead::Rest => Call::Rest(head),
        OfHead::Mark => Call::Mark(head),
        OfHead::Head => Call::Head(head),
        OfHead::Count => Call::Count(head),
    }
}

fn head_number_call<'a>(keyword: OfHeadNumber, head: usize, n: usize) -> Call<&'a [u8]>
    ensures { text_call result ≡ head_number_call keyword head n }
{
    match keyword {
        OfHeadNumber::Load => Call::Load { head, entry: n },
        OfHeadNumber::Back => Call::Back { head, mark: n },
        OfHeadNumber::Drop => Call::Drop { head, mark: n },
    }
}

fn buffer_call<'a>(keyword: OfBuffer, bytes: &'a [u8]) -> Call<&'a [u8]>
    ensures { text_call result ≡ buffer_call keyword bytes.now }
{
    match keyword {
        OfBuffer::Open => Call::Open(bytes),
        OfBuffer::Write => Call::Write(bytes),
        OfBuffer::Take => Call::Take(bytes),
        OfBuffer::Save => Call::Save(bytes),
        OfBuffer::Restore => Call::Restore(bytes),
    }
}

fn buffer_number_call<'a>(keyword: OfBufferNumber, sheet: &'a [u8], entry: usize) -> Call<&'a [u8]>
    ensures { text_call result ≡ buffer_number_call keyword sheet.now entry }
{
    match keyword {
        OfBufferNumber::Check => Call::Check { sheet, entry },
        OfBufferNumber::Lookup => Call::Lookup { sheet, entry },
        OfBufferNumber::Check1 => Call::Check1 { sheet, entry },
        OfBufferNumber::Lookup1 => Call::Lookup1 { sheet, entry },
    }
}

fn two_buffers_call<'a>(keyword: OfTwoBuffers, input: &'a [u8], output: &'a [u8]) -> Call<&'a [u8]>
    ensures { text_call result ≡ two_buffers_call keyword input.now output.now }
{
    match keyword {
        OfTwoBuffers::Planes => Call::Planes {
            samples: input,
            output,
        },
        OfTwoBuffers::Samples => Call::Samples {
            planes: input,
            output,
        },
    }
}

fn call_for<'a>(keyword: Keyword, fields: Fields<'a>) -> Option<Call<&'a [u8]>>
    ensures { option_map text_call result ≡ call_for keyword (fields_left fields.entry) }
{
    match keyword {
        Keyword::Alone(keyword) => alone_call(keyword, fields),
        Keyword::OfHead(keyword) => Some(head_call(keyword, one_number(fields)?)),
        Keyword::OfHeadNumber(keyword) => {
            let (head, n) = two_numbers(fields)?;
            Some(head_number_call(keyword, head, n))
        }
        Keyword::OfBuffer(keyword) => Some(buffer_call(keyword, one_buffer(fields)?)),
        Keyword::OfBufferNumber(keyword) => {
            let (sheet, entry) = buffer_and_number(fields)?;
            Some(buffer_number_call(keyword, sheet, entry))
        }
        Keyword::OfTwoBuffers(keyword) => {
            let (input, output) = two_buffers(fields)?;
            Some(two_buffers_call(keyword, input, output))
        }
        Keyword::Run => run_call(fields),
        Keyword::Two => two_call(fields),
        Keyword::Tell => tell_call(fields),
        Keyword::Convert => convert_call(fields),
        Keyword::Trial => Some(Call::Trial(one_number(fields)?)),
    }
}

fn answer_for<'a>(keyword: Keyword, fields: Fields<'a>) -> Result<Option<Call<&'a [u8]>>, BadLine>
    ensures { text_answer result ≡ answer_for keyword (fields_left fields.entry) }
{
    let call = call_for(keyword, fields).ok_or(BadLine::Words)?;
    Ok(Some(call))
}

// An empty line or a comment.
fn is_silent(line: &[u8]) -> bool
    ensures { result ≡ is_silent line.now }
{
    line.is_empty() || line[0] == b'#'
}

pub fn call_of(line: &[u8]) -> Result<Option<Call<&[u8]>>, BadLine>
    ensures { text_answer result ≡ call_of line.now }
{
    if is_silent(line) {
        return Ok(None);
    }
    let mut fields = Fields::of(line, b' ');
    let word = fields.next().ok_or(BadLine::NoCall)?;
    answer_for(keyword_of(word)?, fields)
}
