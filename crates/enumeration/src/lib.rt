// Every run of a plan with at most 64 visits, a line each (document 02, L10), handed one after the other to what shows it.
#![tactic(auto)]

ghost use Rattle.std.specs.Prelude.{◌≡◌, [], ◌∷◌, map};
ghost use Rattle.std.proofs.Math.Option.{some};
ghost use Rattle.model.specs.Refusals.{number_of};
ghost use Rattle.model.specs.Plan.{Plan};
ghost use Rattle.model.specs.Runs.{sum};
ghost use Rattle.rows.specs.Rows.{block_at};
ghost use Rattle.rows.specs.Leaves.{numbers};
ghost use Rattle.rows.specs.Costs.{cost_in};
ghost use Rattle.table.specs.Table.{plan_of};
ghost use Rattle.table.specs.Lent.{table_with};
ghost use Rattle.print.specs.Lines.{refused_plan_line};
ghost use Rattle.print.specs.Printed.{PrintedWithin};
ghost use Rattle.enumeration.specs.Enumeration.{run_line, plan_lines, enumeration};
ghost use Rattle.enumeration.specs.Showing.{ShownInTurn};
ghost use Rattle.enumeration.specs.Private.{run_of, LeavesLow, RunHeld, FieldsOf, Enumerates};

use least_visits::{MOST_VISITS, least_visits};
use print::{SIZE, plain_line, refused_plan_line};
use reader::RefusedAt;
use rows::{Code, Cost, Leaf, MAX_LEAVES};
use table::{Head, read};
use trail::{Trail, first, next};

// How many numbers the line of a run has at most: its leaf numbers, and the sums of C and of M.
const FIELDS: usize = MOST_VISITS + 2;

// How many bytes the line of a run has room for: 20 digits for its first number, a space and as many for each other, and the line feed.
const LINE: usize = FIELDS * 21;

// The sum of these leaves at a cost.
fn sum(row: &[Leaf], cost: Cost, leaves: &[usize]) -> u64
    requires { LeavesLow row.now leaves.now }
    ensures { result ≡ sum (cost_in cost) (map (block_at (numbers row.now)) leaves.now) }
{
    let mut sum = 0;
    for leaf in leaves {
        sum += cost.of(row, *leaf);
    }
    sum
}

// The numbers of a run's line: its leaf numbers, and the sums of C and of M behind them.
fn fields(row: &[Leaf], leaves: &[usize]) -> [u64; FIELDS]
    requires { LeavesLow row.now leaves.now }
    ensures { FieldsOf row.now leaves.now result }
{
    let mut fields = [0; FIELDS];
    for k in 0..leaves.len() {
        fields[k] = leaves[k] as u64;
    }
    fields[leaves.len()] = sum(row, Cost::Isolated, leaves);
    fields[leaves.len() + 1] = sum(row, Cost::MaxLoad, leaves);
    fields
}

// Writes the line of the trail's run at the start of the buffer, and gives its length.
fn put_run(out: &mut [u8; LINE], row: &[Leaf], trail: &Trail) -> usize
    requires { RunHeld row.now trail.now }
    ensures { PrintedWithin 1386 out.old 0 (run_line (run_of row.now trail.now)) out.new result }
{
    let fields = fields(row, &trail.leaves[..trail.len]);
    plain_line(out, 0, fields[0], &fields[1..trail.len + 2])
}

// Shows the line of the trail's run and of all behind it, one after the other, until a call answers false.
fn show_from<F: FnMut(&[u8]) -> bool>(
    mut show: F,
    code: &Code,
    leasts: &[u64; MAX_LEAVES],
    start: Trail,
) -> F
    requires callable { F.IsAlwaysCallable show }
    requires stands { Enumerates code.now leasts.now start }
    ensures { (q : Enumerates code.now leasts.now start)
        → ShownInTurn (λ f line said g. (x : _) × (x.now ≡ line) × F.step f x said g) show (map run_line q.runs) result }
{
    let mut trail = start;
    let mut out = [0; LINE];
    loop {
        let n = put_run(&mut out, code.row, &trail);
        if !show(&out[..n]) || !next(code, leasts, &mut trail) {
            return show;
        }
    }
}

// Shows the lines of the plan whose table this row and this head hold.
fn show_plan<F: FnMut(&[u8]) -> bool>(show: F, row: &[Leaf], head: &Head) -> F
    requires callable { F.IsAlwaysCallable show }
    requires table { (p : Plan) × (plan_of (table_with row.now head.now) ≡ some p) }
    ensures { (p : Plan) → plan_of (table_with row.now head.now) ≡ some p
        → ShownInTurn (λ f line said g. (x : _) × (x.now ≡ line) × F.step f x said g) show (plan_lines p) result }
{
    let code = head.code(row);
    let leasts = least_visits(&code);
    match first(&code, &leasts) {
        Some(trail) => show_from(show, &code, &leasts, trail),
        None => show,
    }
}

// Shows the line of a refused plan.
fn show_refusal<F: FnMut(&[u8]) -> bool>(mut show: F, refused: RefusedAt) -> F
    requires { F.IsAlwaysCallable show }
    ensures { ShownInTurn (λ f line said g. (x : _) × (x.now ≡ line) × F.step f x said g) show
        (refused_plan_line (number_of refused.refusal) refused.line ∷ []) result }
{
    let mut out = [0; SIZE];
    let number = u64::from(refused.refusal);
    let n = refused_plan_line(&mut out, 0, number, refused.line as u64);
    show(&out[..n]);
    show
}

// Reads a plan text and shows the line of each of its short runs, one after the other, until a call answers false; of a refused text, the
// line of its refusal. Gives back what shows a line, as the calls left it: so nothing else is shown.
pub fn enumerate<F: FnMut(&[u8]) -> bool>(show: F, text: &[u8]) -> F
    requires { F.IsAlwaysCallable show }
    ensures { ShownInTurn (λ f line said g. (x : _) × (x.now ≡ line) × F.step f x said g) show (enumeration text.now) result }
{
    let mut row = [Leaf::default(); MAX_LEAVES];
    match read(text, &mut row) {
        Ok(head) => show_plan(show, &row, &head),
        Err(refused) => show_refusal(show, refused),
    }
}
