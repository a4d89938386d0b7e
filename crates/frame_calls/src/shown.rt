// A head as text: the type of its filter and the retained numbers in the source's declared order, with colons between.

use crate::text::Output;
use any_filter::{Filter, FilterType};
use digits::{Unit, put};
use heads::{Head, Snapshot};

fn name(filter: FilterType) -> &'static [u8] {
    match filter {
        FilterType::DcBlocker => b"dc",
        FilterType::OnePole => b"onepole",
        FilterType::Svf => b"svf",
        FilterType::NaiveSvf => b"naive",
        FilterType::ModifiedSvf => b"modified",
        FilterType::CrossoverSvf => b"crossover",
    }
}

// The numbers are put as samples are: by a `Display`, with `write!` and its width, such a line takes longer.
fn put_filter(out: &mut Output, filter: &Filter) {
    let filter_type = filter.filter_type();
    put(out, name(filter_type));
    for field in filter.fields().iter().take(filter_type.field_count()) {
        put(out, b":");
        put(out, field.text().as_slice());
    }
}

// What a head or a mark holds.
fn put_snapshot(out: &mut Output, snapshot: &Snapshot) {
    put(out, b" ");
    match &snapshot.filter {
        Some(filter) => put_filter(out, filter),
        None => put(out, b"empty"),
    }
}

// What the head holds, then its marks, oldest first.
pub(crate) fn put_head(out: &mut Output, head: &Head) {
    put_snapshot(out, &head.now);
    for mark in head.marks.as_slice() {
        put_snapshot(out, mark);
    }
}
