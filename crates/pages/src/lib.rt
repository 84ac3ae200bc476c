// The review sheet of a plan, or its refusal, as text (document 02, L5 and L7): the numbers of the plain listing on pages of 72 columns and 60 lines.
#![tactic(auto)]

ghost use Rattle.std.specs.Prelude.{◌≡◌, ◌+◌, ◌*◌, ◌≤◌, ◌<◌, length, get_or, replicate};
ghost use mathlib.Core.List.{[], flatten};
ghost use Rattle.std.proofs.lemmas.List.Edits.{sets};
ghost use Rattle.text.specs.Spelling.{decimal};
ghost use Rattle.print.specs.Printed.{Printed};
ghost use Rattle.table.specs.Reading.{verdict};
ghost use Rattle.pages.specs.Sheet.{right_aligned, sheet_line, point_widths, point_lines, page, page_count, pages_to, outcome_sheet};

use listing::{FIELDS, collect};
use print::{put_bytes, put_number, refused_plan_line};
use reader::RefusedAt;
use rows::MAX_LEAVES;

// How many columns a line has.
const COLUMNS: u64 = 72;

// How many points a page has lines for: three of its 60 lines are headings.
const PAGE_POINTS: usize = 57;

// The widths of the fields of a heading line: the total, the max-load total, D, T and in edition 2 U; of the page number the first.
const HEADING_WIDTHS: [u64; 5] = [14, 14, 14, 14, 14];

// The widths of the fields of a point's line: its number, its level, its tail and its stretch.
const POINT_WIDTHS: [u64; 4] = [6, 4, 14, 14];

// How many bytes the largest sheet has: nine pages of 60 lines, each of 72 bytes and a line feed.
pub const SHEET: usize = 39420;

// Gives how many digits a number has.
fn digit_count(n: u64) -> u64
    ensures { result ≡ length (decimal n) }
{
    u64::from(n.max(1).ilog10()) + 1
}

// Writes so many blanks at a place, and gives the place after them.
fn put_blanks(out: &mut [u8], at: usize, count: u64) -> usize
    ensures { Printed out.old at (replicate count 32) out.new result }
{
    let mut end = at;
    for _i in 0..count {
        end = put_bytes(out, end, b" ");
    }
    end
}

// Writes a number at the right end of a field, and gives the place after it.
fn put_aligned(out: &mut [u8], at: usize, width: u64, n: u64) -> usize
    ensures { Printed out.old at (right_aligned width n) out.new result }
{
    let first = put_blanks(out, at, width.saturating_sub(digit_count(n)));
    put_number(out, first, n)
}

// Writes a line, numbers in fields of these widths and blanks behind them, and gives the place after it.
fn put_line(out: &mut [u8], at: usize, widths: &[u64], numbers: &[u64]) -> usize
    ensures { Printed out.old at (sheet_line widths.now numbers.now) out.new result }
{
    let mut end = at;
    let mut left = COLUMNS;
    for (width, n) in widths.iter().zip(numbers) {
        end = put_aligned(out, end, *width, *n);
        left = left.saturating_sub(*width);
    }
    let last = put_blanks(out, end, left);
    put_bytes(out, last, b"\n")
}

// Writes the line of the point at a place of the list, a blank one past its end, and gives the place after it.
fn put_point(out: &mut [u8], at: usize, points: &[[u64; FIELDS]], i: usize) -> usize
    ensures { Printed out.old at (sheet_line point_widths (get_or points.now i [])) out.new result }
{
    match points.get(i) {
        Some(point) => put_line(out, at, &POINT_WIDTHS, point),
        None => put_line(out, at, &POINT_WIDTHS, &[]),
    }
}

// Writes a page's lines of points, from a place of the list on, and gives the place after them.
fn put_points(out: &mut [u8], at: usize, points: &[[u64; FIELDS]], first: usize) -> usize
    requires { first ≤ 512 }
    ensures { Printed out.old at (flatten (point_lines points.now first 57)) out.new result }
{
    let mut end = at;
    for j in 0..PAGE_POINTS {
        end = put_point(out, end, points, first + j);
    }
    end
}

// Writes a page, counted from 0, and gives the place after it. Its number, which is printed, counts from 1.
fn put_page(out: &mut [u8], at: usize, task: &[u64], points: &[[u64; FIELDS]], k: usize) -> usize
    requires { k < 9 }
    ensures { Printed out.old at (flatten (page task.now points.now k)) out.new result }
{
    let number = [k as u64 + 1];
    let second = put_line(out, at, &HEADING_WIDTHS, task);
    let third = put_line(out, second, &HEADING_WIDTHS, &number);
    let fourth = put_line(out, third, &HEADING_WIDTHS, &[]);
    put_points(out, fourth, points, k * PAGE_POINTS)
}

// Gives how many pages so many points need, at least one.
fn page_count(count: usize) -> usize
    ensures { result ≡ page_count count }
{
    count.div_ceil(PAGE_POINTS).max(1)
}

// Writes all pages from the start, and gives the place after them.
fn put_pages(out: &mut [u8], task: &[u64], points: &[[u64; FIELDS]]) -> usize
    requires { length points.now ≤ 512 }
    ensures { Printed out.old 0 (flatten (pages_to task.now points.now (page_count (length points.now))))
        out.new result }
{
    let mut end = 0;
    for k in 0..page_count(points.len()) {
        end = put_page(out, end, task, points, k);
    }
    end
}

// Reads a plan text and writes the review sheet of the plan, or the refusal, and gives its length.
pub fn sheet_text(out: &mut [u8; SHEET], text: &[u8]) -> usize
    ensures lines { out.new ≡ sets out.old 0 (outcome_sheet (verdict 512 text.now)) }
    ensures size { result ≡ length (outcome_sheet (verdict 512 text.now)) }
    ensures fits { result ≤ 39420 }
{
    let mut points = [[0; FIELDS]; MAX_LEAVES];
    match collect(&mut points, text) {
        Err(RefusedAt { refusal, line }) => {
            refused_plan_line(out, 0, u64::from(refusal), line as u64)
        }
        Ok(summary) => put_pages(
            out,
            &summary.task[..summary.task_count],
            &points[..summary.count],
        ),
    }
}
