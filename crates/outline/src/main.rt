// Smooths the outline of a motif. Each coordinate goes through a low-pass filter of its own; a line is printed for each point, as it was
// drawn, as it became and how far it moved, in thousandths.

#![tactic(auto)]

use arrayvec::ArrayVec;
use filter_core::{FilterMode, FrequencyApproximation, Refusal};
use std::fmt::{Display, Formatter};
use std::io::{Write, writer};
use std::time::Clock;
use std::{fmt, io, num};
use svf::Svf;

// A jagged leaf, whose last point is followed by its first. No plainer as points: a filter takes the coordinates of one axis.
const LEAF_X: [f32; 16] = [
    0.0, 1.0, 2.0, 3.0, 4.0, 5.0, 6.0, 7.0, 8.0, 7.0, 6.0, 5.0, 4.0, 3.0, 2.0, 1.0,
];

const LEAF_Y: [f32; 16] = [
    0.0, 1.0, 0.5, 1.75, 1.25, 2.5, 1.5, 1.25, 0.0, -1.25, -1.5, -2.5, -1.25, -1.75, -0.5, -1.0,
];

type Text = ArrayVec<u8, 2048>;

// A point of the outline.
#[derive(Clone, Copy)]
struct Point {
    x: f32,
    y: f32,
}

// The nearest number of thousandths.
fn thousandths(v: f32) -> i64 {
    num::saturating_f32_to_i64((v * 1000.0).round())
}

// In thousandths, each coordinate in nine places.
impl Display for Point {
    fn fmt<W: fmt::Write>(&self, f: &mut Formatter<W>) -> fmt::Result {
        let x = thousandths(self.x);
        let y = thousandths(self.y);
        write!(f, "{x:>9}{y:>9}")
    }
}

fn main(rt: HostRuntime) {
    let mut smooth_x = [0.0f32; 16];
    let mut smooth_y = [0.0f32; 16];
    // Exact takes every frequency from -0.497 on.
    let _ = smooth(&LEAF_X, &mut smooth_x);
    let _ = smooth(&LEAF_Y, &mut smooth_y);
    // It has room for every line.
    let mut text = Text::new();
    let _ = put_lines(&mut text, &smooth_x, &smooth_y);
    print(&rt, text.as_slice());
}

// The text goes out by one write, or standard error says why it does not.
fn print<R: Print + Eprint + Clock>(rt: &R, text: &[u8]) {
    if let Err(unwritten) = streams::write(&mut writer(rt), rt, text) {
        let error = unwritten.error;
        let _ = eprintln!(rt; "outline: cannot write the points: {error}");
    }
}

// The filter goes round the outline twice, and what it answers in the second round counts: the outline has no start at which it could be
// at rest.
fn smooth(line: &[f32; 16], out: &mut [f32; 16]) -> Result<(), Refusal> {
    let mut filter = Svf::new();
    filter.set_f_q(0.15, 0.7, FrequencyApproximation::Exact)?;
    for _ in 0..2 {
        filter.process_buffer(line, out, FilterMode::LowPass);
    }
    Ok(())
}

fn put_lines(text: &mut Text, smooth_x: &[f32; 16], smooth_y: &[f32; 16]) -> io::Result<()> {
    writeln!(
        text,
        "A leaf as drawn and as smoothed, in thousandths of a stitch unit. A low-pass filter"
    )?;
    writeln!(
        text,
        "for each coordinate takes the jags out; it knows only the points before, so that the"
    )?;
    writeln!(
        text,
        "smoothed outline lags a point or two behind: that is why every point moved."
    )?;
    writeln!(text)?;
    writeln!(
        text,
        "    point  drawn x        y smooth x        y  moved x        y"
    )?;
    for i in 0..16 {
        let drawn = Point {
            x: LEAF_X[i],
            y: LEAF_Y[i],
        };
        let smoothed = Point {
            x: smooth_x[i],
            y: smooth_y[i],
        };
        let moved = Point {
            x: smoothed.x - drawn.x,
            y: smoothed.y - drawn.y,
        };
        writeln!(text, "{i:>9}{drawn}{smoothed}{moved}")?;
    }
    Ok(())
}
