// A saved frame (02 k): twelve heads with their marks as bytes, and the heads that bytes say.
// Bytes are accepted where the heads that they say are saved as the same bytes. That enforces every rule but three, which `grow` keeps: a head
// has four marks at most, a mark is never empty, and an empty head has none.
#![tactic(auto)]

ghost use Rattle.std.specs.Prelude.{◌≡◌, ◌+◌, ◌≤◌, ◌++◌, length, replicate, bytes_eq, IfOk};
ghost use Rattle.std.specs.Int.{w32, to_le_bytes};
ghost use Rattle.std.specs.List.{flat_map};
ghost use Rattle.filter_core.specs.Refusal.{number_in};
ghost use Rattle.lists.specs.Over.{over, Puts};
ghost use Rattle.heads.specs.Head.{empty_head};
ghost use Rattle.saved_heads.specs.Row.{row_of, snapshot_in};
ghost use Rattle.saved_heads.specs.Bytes.{tag_bytes, record_bytes, rows_bytes, rows_said, row_at, head_rows, rows_from, bytes_of, grown_head, with_row, heads_in};
ghost use Rattle.saved_heads.specs.Saved.{save_number, saved_length, saved_in, restore_refusal};
ghost use Rattle.saved_heads.specs.RoundTrip.{HeadsReturn};
ghost use Rattle.saved_heads.specs.Rows.{SavedHeadsByRows};

use any_filter::{Filter, FilterType};
use arrayvec::ArrayVec;
use filter_core::Refusal;
use heads::{Head, Snapshot};
use std::array;

// A tag and its record: of which head it is, the number of its filter's type with 0 for none, the filter's eight words, and the count.
#[derive(Clone, Copy, Debug, Default)]
pub struct Row {
    pub head: u8,
    pub filter: u8,
    pub words: [u32; 8],
    pub count: u32,
}

// ---- a row and its snapshot

#[tactic(auto, unfolding(crate::specs::Row::row_of))]
fn row_of(head: u8, snapshot: Snapshot) -> Row
    ensures { result ≡ row_of head snapshot }
{
    let (filter, words) = match snapshot.filter {
        None => (0, [0; 8]),
        Some(filter) => (filter.filter_type().into(), filter.words()),
    };
    Row {
        head,
        filter,
        words,
        count: snapshot.count,
    }
}

#[tactic(auto, unfolding(crate::specs::Row::snapshot_in))]
fn snapshot_in(row: &Row) -> Snapshot
    ensures { result ≡ snapshot_in row.now }
{
    match FilterType::of_number(row.filter) {
        None => Snapshot::default(),
        Some(filter) => Snapshot {
            filter: Some(Filter::of_words(filter, row.words)),
            count: row.count,
        },
    }
}

// ---- saving

// The rows of a head: what it holds, and then its marks.
fn push_head(rows: &mut ArrayVec<Row, 60>, h: u8, head: &Head)
    requires { length rows.old.items + 5 ≤ 60 }
    ensures rows { rows.new.items ≡ rows.old.items ++ head_rows h head.entry.now }
    ensures most { length rows.new.items ≤ length rows.old.items + 5 }
{
    rows.push(row_of(h, head.now));
    for mark in head.marks.as_slice() {
        rows.push(row_of(h, *mark));
    }
}

// The rows of all heads; no head has more than five.
#[tactic(auto, using(crate::proofs::RowsOf::rows_none, crate::proofs::RowsOf::rows_more))]
fn rows_of(heads: &[Head; 12]) -> ArrayVec<Row, 60>
    ensures { result.items ≡ rows_from 0 heads.now }
{
    let mut rows = ArrayVec::new();
    for h in 0..12 {
        push_head(&mut rows, h as u8, &heads[h]);
    }
    rows
}

#[tactic(auto, using(lists::proofs::Over::over_none, std::proofs::lemmas::List::take_all))]
fn put_tags(rows: &[Row], output: &mut [u8], from: usize) -> usize
    ensures { Puts from (flat_map tag_bytes rows.now) output.old result output.new }
{
    let mut at = from;
    for row in rows {
        at = lists::put(&[row.head, row.filter], output, at);
    }
    at
}

#[tactic(auto, using(lists::proofs::Over::over_none, std::proofs::lemmas::List::take_all))]
fn put_words(words: &[u32], output: &mut [u8], from: usize) -> usize
    ensures { Puts from (flat_map (to_le_bytes w32) words.now) output.old result output.new }
{
    let mut at = from;
    for word in words {
        at = lists::put(&word.to_le_bytes(), output, at);
    }
    at
}

fn put_record(row: &Row, output: &mut [u8], from: usize) -> usize
    ensures { Puts from (record_bytes row.now) output.old result output.new }
{
    let at = put_words(&row.words, output, from);
    lists::put(&row.count.to_le_bytes(), output, at)
}

#[tactic(auto, using(lists::proofs::Over::over_none, std::proofs::lemmas::List::take_all))]
fn put_records(rows: &[Row], output: &mut [u8], from: usize) -> usize
    ensures { Puts from (flat_map record_bytes rows.now) output.old result output.new }
{
    let mut at = from;
    for row in rows {
        at = put_record(row, output, at);
    }
    at
}

// The saved form, from the first place on; the place behind it is its length, where there is room.
fn put_rows(rows: &[Row], output: &mut [u8]) -> usize
    requires { length rows.now ≤ 60 }
    ensures { Puts 0 (rows_bytes rows.now) output.old result output.new }
{
    let tags = lists::put(&(rows.len() as u16).to_le_bytes(), output, 0);
    let records = put_tags(rows, output, tags);
    put_records(rows, output, records)
}

// Writes the saved form of the heads, and answers its length. Places behind it keep their contents; a refused save leaves every byte.
pub fn save(heads: &[Head; 12], output: &mut [u8]) -> Result<usize, Refusal>
    ensures refusal { number_in result ≡ save_number heads.now output.old }
    ensures length { IfOk result (λ length. length ≡ saved_length heads.now) }
    ensures output_after { output.new ≡ saved_in heads.now output.old }
{
    let rows = rows_of(heads);
    let length = 2 + 38 * rows.len();
    lists::check_room(length, output.len())?;
    put_rows(rows.as_slice(), output);
    Ok(length)
}

// ---- restoring

// How many rows the first two bytes announce; bytes past the end count as 0.
fn rows_said(bytes: &[u8]) -> usize
    ensures said { result ≡ rows_said bytes.now }
    ensures most { result ≤ 65535 }
{
    let low = words::byte_at(bytes, 0, 0);
    let high = words::byte_at(bytes, 1, 0);
    usize::from(u16::from_le_bytes([low, high]))
}

// Row i of as many as are said.
#[tactic(auto, unfolding(crate::specs::Bytes::row_at, lists::specs::Table::table))]
fn row_at(bytes: &[u8], said: usize, i: usize) -> Row
    requires { (said ≡ rows_said bytes.now) × (said ≤ 65535) × (i ≤ 65535) }
    ensures { result ≡ row_at bytes.now i }
{
    let record = 2 + 2 * said + 36 * i;
    Row {
        head: words::byte_at(bytes, 2 + 2 * i, 0),
        filter: words::byte_at(bytes, 2 + 2 * i, 1),
        words: array::from_fn(|j| words::word_at(bytes, record + 4 * j)),
        count: words::word_at(bytes, record + 32),
    }
}

// Takes a row into its head: as what it holds if it is empty, else as its next mark. A row that fits neither is left out; the bytes are then
// refused.
fn grow(head: &mut Head, snapshot: Snapshot)
    ensures { head.new ≡ grown_head head.old snapshot }
{
    if head.now.filter.is_none() {
        head.now = snapshot;
    } else if snapshot.filter.is_some() && head.marks.len() < 4 {
        head.marks.push(snapshot);
    }
}

#[tactic(auto, unfolding(crate::specs::Bytes::with_row))]
fn take_row(heads: &mut [Head; 12], row: &Row)
    ensures { heads.new ≡ with_row heads.old row.now }
{
    if row.head < 12 {
        grow(&mut heads[usize::from(row.head)], snapshot_in(row));
    }
}

fn empty_heads() -> [Head; 12]
    ensures { result ≡ replicate 12 empty_head }
{
    array::from_fn(|_| Head::empty())
}

// The heads that any bytes say. There are 60 rows at most, whatever the bytes say.
#[tactic(auto, using(lists::proofs::Tables::table_none, lists::proofs::Tables::table_more, std::proofs::lemmas::List::Sums::fold_push))]
fn heads_in(bytes: &[u8]) -> [Head; 12]
    ensures { result ≡ heads_in bytes.now }
{
    let said = rows_said(bytes);
    let mut heads = empty_heads();
    for i in 0..said.min(60) {
        take_row(&mut heads, &row_at(bytes, said, i));
    }
    heads
}

// Whether saving the heads gives these bytes. The longest saved frame has 2,282.
fn are_saved_as(heads: &[Head; 12], bytes: &[u8]) -> bool
    ensures { result ≡ bytes_eq (bytes_of heads.now) bytes.now }
{
    let rows = rows_of(heads);
    let mut saved = [0; 2282];
    let length = put_rows(rows.as_slice(), &mut saved);
    &saved[..length] == bytes
}

// The heads of a saved frame. What is none is refused.
pub fn restore(bytes: &[u8]) -> Result<[Head; 12], Refusal>
    ensures refusal { number_in result ≡ restore_refusal bytes.now }
    ensures heads { IfOk result (λ heads. heads ≡ heads_in bytes.now) }
{
    let heads = heads_in(bytes);
    if are_saved_as(&heads, bytes) {
        Ok(heads)
    } else {
        Err(Refusal::Frame)
    }
}

// ---- the theorems

// Each number is answered in its row's case, and in no other: 20 where a rule of a saved frame is broken.
#[tactic(auto, using(crate::proofs::Rows::saved_heads_by_rows))]
pub fn saved_heads_by_rows()
    ensures { SavedHeadsByRows }
{}

// Heads and their saved form come back from each other.
#[tactic(auto, using(crate::proofs::RoundTrip::heads_return))]
pub fn heads_return()
    ensures { HeadsReturn }
{}
