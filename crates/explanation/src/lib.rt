// What held the others back at the last report of a flight log (document 02, L9): the log comes in pieces, and its last report is explained at its end.
#![tactic(auto)]

ghost use Rattle.std.specs.Prelude.{◌≡◌, ℕ, ◌+◌, ◌*◌, ◌^◌, ◌≤◌, ◌<◌, length, take};
ghost use Rattle.model.specs.Plan.{Plan};
ghost use Rattle.model.specs.Cause.{remaining_weighed, taken};
ghost use Rattle.rows.specs.Leaves.{numbers};
ghost use Rattle.table.specs.Table.{head_of, good};
ghost use Rattle.table.specs.Lent.{table_with};
ghost use Rattle.print.specs.Printed.{PrintedWithin};
ghost use Rattle.explanation.specs.Explanation.{next_asked, next_seen, last_line, decision_told};
ghost use Rattle.explanation.specs.Pieces.{seen_so_far, at_start, after_piece, Explains};
ghost use Rattle.explanation.specs.Private.{leaf_told, leaves_told, others_before, decides, GoodAtPoint};

use control::{OpenRelease, State, call, checked_call};
use flight_log::{HELD, PIECE, hold, read_entry};
use model::{Answer, Call, Others, Outlook};
use outlook::at_report;
use print::{answer_line, plain_line};
use rows::{Leaf, MAX_LEAVES};
use table::{Head, check};

// A report that is asked of a state: its point and its reading.
#[derive(Clone, Copy)]
pub struct Asked {
    pub state: State,
    pub point: u64,
    pub reading: u64,
}

// What was seen of the lines so far: the controller's state, and the last report.
#[derive(Clone, Copy)]
pub struct Seen {
    pub state: State,
    pub asked: Option<Asked>,
}

// What is carried from piece to piece: the first bytes of the line being read and how many they are, and what was seen of the lines before it.
#[derive(Clone, Copy)]
pub struct Followed {
    pub line: [u8; HELD],
    pub held: usize,
    pub seen: Seen,
}

// How many bytes are printed of a leaf at most, and of the last line.
const LEAF: usize = 42;

const LAST: usize = 84;

// How many bytes the explanation of a report has room for.
pub const EXPLANATION: usize = MAX_LEAVES * LEAF + LAST;

// Before the first byte of a log.
pub fn start() -> Followed
    ensures { seen_so_far result ≡ at_start }
{
    Followed {
        line: [0; HELD],
        held: 0,
        seen: Seen {
            state: State::Idle,
            asked: None,
        },
    }
}

// The last report behind a line that says this call.
fn next_asked(seen: Seen, said: Call) -> Option<Asked>
    ensures { result ≡ next_asked seen (Some said) }
{
    match said {
        Call::Report(point, reading) => Some(Asked {
            state: seen.state,
            point,
            reading,
        }),
        Call::Release | Call::End(_) => seen.asked,
    }
}

// What is seen behind a line more. It is known whether the table is that of an accepted plan. A line of another form changes nothing.
fn next_seen(checked: bool, row: &[Leaf], head: &Head, seen: Seen, entry: Option<Call>) -> Seen
    requires { checked ≡ good (table_with row.now head.now) }
    ensures { result ≡ next_seen (table_with row.now head.now) seen entry }
{
    match entry {
        Some(said) => Seen {
            state: checked_call(checked, row, head, seen.state, said).state,
            asked: next_asked(seen, said),
        },
        None => seen,
    }
}

// Takes a piece of the log, of which it uses at most 4,096 bytes, and gives what is carried on. The table is checked once for all lines of the piece.
pub fn follow(piece: &[u8], row: &[Leaf], head: &Head, so_far: Followed) -> Followed
    ensures { seen_so_far result ≡ after_piece (table_with row.now head.now) (seen_so_far so_far) (take 4096 piece.now) }
{
    let checked = check(row, head);
    let mut line = so_far.line;
    let mut held = so_far.held;
    let mut seen = so_far.seen;
    for &b in &piece[..piece.len().min(PIECE)] {
        held = hold(&mut line, held, b);
        if b == b'\n' {
            let entry = read_entry(&line[..held]);
            seen = next_seen(checked, row, head, seen, entry);
            held = 0;
        }
    }
    Followed { line, held, seen }
}

// Writes the line of a leaf at a place: its number, and how often it is visited; nothing where its M or its visits are 0.
fn put_leaf(
    out: &mut [u8; EXPLANATION],
    at: usize,
    leaf: usize,
    max_load: u64,
    visits: u64,
) -> usize
    ensures { PrintedWithin 42 out.old at (leaf_told leaf max_load visits) out.new result }
{
    if max_load == 0 || visits == 0 {
        at
    } else {
        plain_line(out, at, leaf as u64, &[visits])
    }
}

// Writes the lines of all leaves at the start of the buffer, and gives the place after them.
fn put_leaves(out: &mut [u8; EXPLANATION], row: &[Leaf], visits: &[u64; MAX_LEAVES]) -> usize
    requires { length row.now ≤ 512 }
    ensures { PrintedWithin (length row.now * 42) out.old 0 (leaves_told (numbers row.now) visits.now (length row.now)) out.new result }
{
    let mut end = 0;
    for i in 0..row.len() {
        end = put_leaf(out, end, i, rows::max_load(row, i), visits[i]);
    }
    end
}

// The remaining time as it counts: nothing where no further point can come.
fn remaining_weighed(outlook: Outlook) -> u64
    ensures { result ≡ remaining_weighed outlook }
{
    if outlook.last { 0 } else { outlook.remaining }
}

// What is taken off besides: T where a further point can come, and U where the others are suspended. (In edition 1, U is 0.)
fn taken(head: &Head, outlook: Outlook, others: Others) -> u64
    requires { head.now.switch + head.now.resume < 2 ^ 64 }
    ensures { (p : Plan) → head.now ≡ head_of p → result ≡ taken p outlook others }
{
    let switch = if outlook.last { 0 } else { head.switch };
    match others {
        Others::Running => switch,
        Others::Suspended => switch + head.resume,
    }
}

// Writes the last line at a place, and gives the place after it.
fn put_last(
    out: &mut [u8; EXPLANATION],
    at: usize,
    head: &Head,
    outlook: Outlook,
    reading: u64,
    others: Others,
) -> usize
    requires { head.now.switch + head.now.resume < 2 ^ 64 }
    ensures { (p : Plan) → head.now ≡ head_of p → PrintedWithin 84 out.old at (last_line p outlook reading others) out.new result }
{
    let remaining = remaining_weighed(outlook);
    let taken = taken(head, outlook, others);
    plain_line(out, at, head.deadline, &[reading, remaining, taken])
}

// What the others do in a state. Where no release is open they run.
fn others_before(state: State) -> Others
    ensures { result ≡ others_before state }
{
    match state {
        State::Idle => Others::Running,
        State::Open(release) => release.others,
    }
}

// Whether an answer is that of a decision.
fn is_decision(answer: Answer) -> bool
    ensures { result ≡ decides answer }
{
    matches!(answer, Answer::Decided(_, _, _, _))
}

// Writes the lines of a decision at the start of the buffer, where this release stands at its report and the others did this before it.
fn explain_decision(
    out: &mut [u8; EXPLANATION],
    row: &[Leaf],
    head: &Head,
    before: Others,
    release: &OpenRelease,
) -> usize
    requires { GoodAtPoint row.now head.now release.now }
    ensures { (q : GoodAtPoint row.now head.now release.now) (n : ℕ)
        → PrintedWithin 21588 out.old 0 (decision_told q.plan n q.levels release.now.reading before) out.new result }
{
    let code = head.code(row);
    let priced = head.at_max_load(code);
    let visits = stretch_visits::leaf_counts(&priced, &release.place);
    let ahead = at_report(&priced, &release.place);
    let outlook = Outlook {
        remaining: release.times[release.place.level],
        stretch: ahead.stretch,
        last: ahead.last,
    };
    let end = put_leaves(out, code.row, &visits);
    put_last(out, end, head, outlook, release.reading, before)
}

// Explains a report that is asked of a state: writes its refusal, or the lines of its decision, at the start of the buffer.
fn explain_report(out: &mut [u8; EXPLANATION], row: &[Leaf], head: &Head, asked: Asked) -> usize
    ensures { Explains out.old (table_with row.now head.now) (Some asked) out.new result }
{
    let step = call(
        row,
        head,
        asked.state,
        Call::Report(asked.point, asked.reading),
    );
    if !is_decision(step.answer) {
        return answer_line(out, 0, step.answer);
    }
    match step.state {
        State::Open(release) => explain_decision(
            out,
            row,
            head,
            others_before(asked.state),
            &release,
        ),
        State::Idle => 0,
    }
}

// Explains the last report of the log: writes what is printed of it at the start of the buffer, and gives its length. Of a log without a report nothing is
// written.
pub fn explain(out: &mut [u8; EXPLANATION], row: &[Leaf], head: &Head, followed: &Followed) -> usize
    ensures { Explains out.old (table_with row.now head.now) followed.now.seen.asked out.new result }
{
    match followed.seen.asked {
        Some(asked) => explain_report(out, row, head, asked),
        None => 0,
    }
}
