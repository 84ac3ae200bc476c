// The listing of a plan, or its refusal, as text (document 01, 'Plans worked through'; document 02, L7): the numbers that are listed, for this listing and
// for the review sheet, and their lines.
#![tactic(auto)]

ghost use Rattle.std.specs.Prelude.{◌≡◌, ◌+◌, ◌*◌, ◌≤◌, ◌<◌, length, take};
ghost use Rattle.std.proofs.Math.Option.{some};
ghost use mathlib.Core.List.{flat_map, map};
ghost use Rattle.std.proofs.lemmas.List.Edits.{sets};
ghost use Rattle.model.specs.Plan.{Plan, all_leaves};
ghost use Rattle.model.specs.Acceptance.{sizes};
ghost use Rattle.model.specs.Stretch.{stretch_of};
ghost use Rattle.print.specs.Lines.{point_line};
ghost use Rattle.print.specs.Printed.{PrintedWithin};
ghost use Rattle.table.specs.Table.{plan_of};
ghost use Rattle.table.specs.Lent.{table_with};
ghost use Rattle.table.specs.Reading.{verdict};
ghost use Rattle.listing.specs.PlanListing.{resume_numbers, outcome_points, outcome_listing};
ghost use Rattle.listing.specs.Summary.{summary_of};
ghost use Rattle.listing.specs.Private.{leaves_points, Collected};

use model::Edition;
use print::{numbers_line, refused_plan_line};
use reader::RefusedAt;
use rows::{Cost, Leaf, MAX_LEAVES, PricedCode};
use table::{Head, read};

// How many numbers are listed of a point: its number, its level, its tail and its stretch. They stand in an array, as a line of either listing has them: a
// line is printed from a list of numbers.
pub const FIELDS: usize = 4;

// How many numbers are listed of the task of an edition 2 plan: the total, the max-load total, D, T and U.
const TASK: usize = 5;

// How many bytes a listing has room for: a line for the task and one for each leaf.
pub const LISTING: usize = 65664;

// What is listed of a plan beside its points: the numbers of the task and how many these are, those in unused places being 0, and how many points there are.
// (Numbers: a slice of the points would keep them lent.)
#[derive(Clone, Copy)]
pub struct Summary {
    pub task: [u64; TASK],
    pub task_count: usize,
    pub count: usize,
}

// The stretches of the leaves of the plan whose table this row and this head hold: of each point the largest over all its visits.
fn stretch_column(row: &[Leaf], head: &Head) -> [u64; MAX_LEAVES]
    requires { (p : Plan) × (plan_of (table_with row.now head.now) ≡ some p) }
    ensures { (p : Plan) → plan_of (table_with row.now head.now) ≡ some p
        → take (sizes p.functions) result ≡ map (stretch_of p) (all_leaves p.functions) }
{
    let priced = PricedCode {
        code: head.code(row),
        cost: Cost::MaxLoad,
        totals: &head.max_load_totals,
    };
    let mut stretch = [0; MAX_LEAVES];
    stretches::stretches(&priced, &mut stretch);
    stretch
}

// Stores what is listed of these leaves, the first of which is number 0 and whose stretches stand in a column, and gives how many points there are among them.
fn collect_leaves(
    points: &mut [[u64; FIELDS]; MAX_LEAVES],
    leaves: &[Leaf],
    stretch: &[u64; MAX_LEAVES],
) -> usize
    requires { length leaves.now ≤ 512 }
    ensures { Collected points.old (leaves_points stretch.now 0 leaves.now) points.new result }
{
    let mut count = 0;
    for (i, leaf) in leaves.iter().enumerate() {
        if leaf.point == 1 {
            points[count] = [i as u64, leaf.level, leaf.tail, stretch[i]];
            count += 1;
        }
    }
    count
}

// Gives how many numbers are listed of the task of a plan of this edition: in edition 1 U is none of them.
fn task_count(edition: Edition) -> usize
    ensures { result ≡ 4 + length (resume_numbers edition) }
{
    match edition {
        Edition::First => TASK - 1,
        Edition::Second(_) => TASK,
    }
}

// Reads a plan text, stores the numbers that are listed of its points, one point behind the other, and gives what else is listed. Of a refused text nothing
// is stored.
pub fn collect(points: &mut [[u64; FIELDS]; MAX_LEAVES], text: &[u8]) -> Result<Summary, RefusedAt>
    ensures summary { result ≡ summary_of (verdict 512 text.now) }
    ensures numbers { points.new ≡ sets points.old 0 (outcome_points (verdict 512 text.now)) }
{
    let mut row = [Leaf::default(); MAX_LEAVES];
    let head = read(text, &mut row)?;
    let stretch = stretch_column(&row, &head);
    let count = collect_leaves(points, &row[..head.leaves], &stretch);
    Ok(Summary {
        task: [
            head.total,
            head.max_load_total,
            head.deadline,
            head.switch,
            head.resume,
        ],
        task_count: task_count(head.edition()),
        count,
    })
}

// Writes the lines of points from a place on, and gives the place after them.
fn put_points(out: &mut [u8; LISTING], at: usize, points: &[[u64; FIELDS]]) -> usize
    ensures { PrintedWithin (length points.now * 90) out.old at (flat_map point_line points.now) out.new result }
{
    let mut end = at;
    for point in points {
        end = numbers_line(out, end, b"point", point);
    }
    end
}

// Reads a plan text and writes the listing of the plan, or the refusal, and gives its length.
pub fn list_text(out: &mut [u8; LISTING], text: &[u8]) -> usize
    ensures lines { out.new ≡ sets out.old 0 (outcome_listing (verdict 512 text.now)) }
    ensures size { result ≡ length (outcome_listing (verdict 512 text.now)) }
    ensures fits { result ≤ 65664 }
{
    let mut points = [[0; FIELDS]; MAX_LEAVES];
    match collect(&mut points, text) {
        Err(RefusedAt { refusal, line }) => {
            refused_plan_line(out, 0, u64::from(refusal), line as u64)
        }
        Ok(summary) => {
            let first = numbers_line(out, 0, b"task", &summary.task[..summary.task_count]);
            put_points(out, first, &points[..summary.count])
        }
    }
}
