// The keywords, each of which is a line's first word. Those behind which the same words stand share an enum: what stands behind is read
// for all of them at one place.

ghost use Rattle.std.specs.Prelude.{◌≡◌};
ghost use Rattle.form_text.specs.Name.{look_up};
ghost use Rattle.call_text.specs.Keyword.{keyword_of, texts};

use crate::bad_line::BadLine;

// Nothing stands behind it.
#[derive(Clone, Copy)]
pub(crate) enum Alone {
    Begin,
    Turn,
}

// HEAD
#[derive(Clone, Copy)]
pub(crate) enum OfHead {
    Rest,
    Mark,
    Head,
    Count,
}

// HEAD ENTRY, HEAD MARK
#[derive(Clone, Copy)]
pub(crate) enum OfHeadNumber {
    Load,
    Back,
    Drop,
}

// BYTES
#[derive(Clone, Copy)]
pub(crate) enum OfBuffer {
    Open,
    Write,
    Take,
    Save,
    Restore,
}

// BYTES ENTRY
#[derive(Clone, Copy)]
pub(crate) enum OfBufferNumber {
    Check,
    Lookup,
    // The reader of edition 1 only.
    Check1,
    Lookup1,
}

// BYTES BYTES
#[derive(Clone, Copy)]
pub(crate) enum OfTwoBuffers {
    Planes,
    Samples,
}

#[derive(Clone, Copy)]
pub(crate) enum Keyword {
    Alone(Alone),
    OfHead(OfHead),
    OfHeadNumber(OfHeadNumber),
    OfBuffer(OfBuffer),
    OfBufferNumber(OfBufferNumber),
    OfTwoBuffers(OfTwoBuffers),
    // The rest have words of their own.
    Run,
    Two,
    Tell,
    Convert,
    Trial,
}

// They are tried in this order: first those that a job makes for each block of samples.
const KEYWORDS: [(&[u8], Keyword); 25] = [
    (b"run", Keyword::Run),
    (b"two", Keyword::Two),
    (b"turn", Keyword::Alone(Alone::Turn)),
    (b"tell", Keyword::Tell),
    (b"load", Keyword::OfHeadNumber(OfHeadNumber::Load)),
    (b"rest", Keyword::OfHead(OfHead::Rest)),
    (b"mark", Keyword::OfHead(OfHead::Mark)),
    (b"back", Keyword::OfHeadNumber(OfHeadNumber::Back)),
    (b"drop", Keyword::OfHeadNumber(OfHeadNumber::Drop)),
    (b"open", Keyword::OfBuffer(OfBuffer::Open)),
    (b"write", Keyword::OfBuffer(OfBuffer::Write)),
    (b"begin", Keyword::Alone(Alone::Begin)),
    (b"take", Keyword::OfBuffer(OfBuffer::Take)),
    (b"save", Keyword::OfBuffer(OfBuffer::Save)),
    (b"restore", Keyword::OfBuffer(OfBuffer::Restore)),
    (b"head", Keyword::OfHead(OfHead::Head)),
    (b"count", Keyword::OfHead(OfHead::Count)),
    (b"check", Keyword::OfBufferNumber(OfBufferNumber::Check)),
    (b"lookup", Keyword::OfBufferNumber(OfBufferNumber::Lookup)),
    (b"check1", Keyword::OfBufferNumber(OfBufferNumber::Check1)),
    (b"lookup1", Keyword::OfBufferNumber(OfBufferNumber::Lookup1)),
    (b"convert", Keyword::Convert),
    (b"planes", Keyword::OfTwoBuffers(OfTwoBuffers::Planes)),
    (b"samples", Keyword::OfTwoBuffers(OfTwoBuffers::Samples)),
    (b"trial", Keyword::Trial),
];

// What stands beside a name in a table.
fn keyword_in(mut table: &[(&[u8], Keyword)], s: &[u8]) -> Option<Keyword>
    ensures { result ≡ look_up s.now (texts table.entry.now) }
{
    while let [row, rest @ ..] = table {
        if s == row.0 {
            return Some(row.1);
        }
        table = rest;
    }
    None
}

pub(crate) fn keyword_of(s: &[u8]) -> Result<Keyword, BadLine>
    ensures { result ≡ keyword_of s.now }
{
    keyword_in(&KEYWORDS, s).ok_or(BadLine::NoCall)
}
