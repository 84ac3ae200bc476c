// The controller's state, and its calls on a table.
#![tactic(auto)]

ghost use Rattle.std.specs.Prelude.{◌≡◌, ◌+◌, ◌-◌, ◌*◌, ◌^◌, ◌≤◌, ◌<◌, length};
ghost use Rattle.std.proofs.Math.Option.{some};
ghost use Rattle.std.specs.Int.Signed.{non_neg};
ghost use Rattle.model.specs.Forms.{main};
ghost use Rattle.model.specs.Stack.{Levels};
ghost use Rattle.model.specs.declared.Call.TheVariants.{Release, Report, End};
ghost use Rattle.model.specs.Calls.{others_by_word};
ghost use Rattle.model.specs.Decisions.{reserve, way_back, margin, word};
ghost use Rattle.model.specs.Controller.{idle, next_levels, can_close};
ghost use Rattle.rows.specs.Rows.{point_at};
ghost use Rattle.rows.specs.Leaves.{numbers};
ghost use Rattle.rows.specs.Answers.{Says};
ghost use Rattle.place.specs.Lent.{NextPlace};
ghost use Rattle.table.specs.Table.{good};
ghost use Rattle.table.specs.Lent.{table_with, Coded};
ghost use Rattle.control.specs.declared.State.TheVariants.{Idle, Open};
ghost use Rattle.control.specs.State.{standing};
ghost use Rattle.control.specs.Calls.{place_of, running_at, read_state, reply, on_state, call_on, as_step, call_of};
ghost use Rattle.control.specs.Private.{terms, rule_met, weighing, opened, arrived, stepped, closing, Headed, Costed, WholeTable};
ghost use Rattle.control.specs.Private.{GoodState, GoodOnCode, GoodOnTable, Arriving, moved_to};

use model::{Answer, Call, Edition, Ending, Others, Outlook, Refusal, Word};
use outlook::{at_release, at_report};
use place::{ByLevel, Place, advance, begin, keep_time, place_ok, times_ok, zero_above};
use rows::{Code, Leaf};
use table::{Head, check};

// An open release: what the others do, the last accepted reading, the place of the last point, and the remaining time kept for each level.
#[derive(Clone, Copy)]
pub struct OpenRelease {
    pub others: Others,
    pub reading: u64,
    // At level 0 where no point was reported, and no `None`: any state may be lent, and the first report keeps entry 0 of both arrays, which are stored with it.
    pub place: Place,
    pub times: ByLevel,
}

// The running state: no release is open, or one is.
#[derive(Clone, Copy)]
pub enum State {
    Idle,
    Open(OpenRelease),
}

// The answer of a call, and the state afterwards.
#[derive(Clone, Copy)]
pub struct Step {
    pub answer: Answer,
    pub state: State,
}

// The table of an accepted plan in lent memory: its code, and the head beside it.
#[derive(Clone, Copy)]
struct LentPlan<'a> {
    code: Code<'a>,
    head: &'a Head,
}

// A decision: its answer, and what the others do then.
#[derive(Clone, Copy)]
struct Weighing {
    answer: Answer,
    others: Others,
}

// 2^62: a margin is held at its negative.
const FLOOR: u64 = 1 << 62;

// What is left of `left` behind what is kept free: remaining and switch cost, or nothing where no further point can come.
fn less_reserve(left: u64, switch: u64, outlook: Outlook) -> u64
    ensures { result ≡ left - reserve (terms 0 switch 0) outlook }
{
    if outlook.last {
        left
    } else {
        left.saturating_sub(outlook.remaining)
            .saturating_sub(switch)
    }
}

// What is kept free besides, for the way back: U where the others are suspended, else nothing. (In edition 1, U is 0.)
fn way_back(resume: u64, others: Others) -> u64
    ensures { result ≡ way_back (terms 0 0 resume) others }
{
    match others {
        Others::Running => 0,
        Others::Suspended => resume,
    }
}

// The margin, held at -2^62: what is left of D and 2^62 together, less 2^62.
fn margin_of(head: &Head, outlook: Outlook, reading: u64, others: Others) -> i64
    requires { head.now.deadline ≤ 2 ^ 40 }
    ensures { result ≡ margin (terms head.now.deadline head.now.switch head.now.resume) outlook reading others }
{
    let free = less_reserve(head.deadline + FLOOR, head.switch, outlook);
    let left = free
        .saturating_sub(outlook.stretch)
        .saturating_sub(way_back(head.resume, others))
        .saturating_sub(reading);
    left as i64 - FLOOR as i64
}

// The word of a decision. Where the others run: suspend where the margin is below 0, else go. Where they are suspended: in edition 2 resume where the margin is
// 0 or more, else stay.
fn word_of(edition: Edition, margin: i64, others: Others) -> Word
    ensures { result ≡ word (rule_met edition (non_neg margin) others) others }
{
    match others {
        Others::Running if margin < 0 => Word::Suspend,
        Others::Running => Word::Go,
        Others::Suspended if 0 <= margin && matches!(edition, Edition::Second(_)) => Word::Resume,
        Others::Suspended => Word::Stay,
    }
}

// What the others do behind a decision with this word.
fn others_by(word: Word, others: Others) -> Others
    ensures { result ≡ others_by_word word others }
{
    match word {
        Word::Suspend => Others::Suspended,
        Word::Resume => Others::Running,
        Word::Go | Word::Stay => others,
    }
}

// A decision: its answer, and what the others do then.
fn weigh(head: &Head, outlook: Outlook, reading: u64, others: Others) -> Weighing
    requires { Headed head.now }
    ensures { (q : Headed head.now) → result ≡ weighing q.plan outlook reading others }
{
    let margin = margin_of(head, outlook, reading, others);
    let word = word_of(head.edition(), margin, others);
    Weighing {
        answer: Answer::Decided(word, outlook.remaining, margin, head.deadline < reading),
        others: others_by(word, others),
    }
}

// The release that is accepted, where `total` remains: no point was reported yet.
fn opened(total: u64, others: Others) -> OpenRelease
    ensures { result ≡ opened total others }
{
    let mut times = [0; 33];
    times[0] = total;
    OpenRelease {
        others,
        reading: 0,
        place: Place {
            level: 0,
            leaves: [0; 33],
            earlier: [0; 33],
        },
        times,
    }
}

// A release where none is open: unfit, or the decision.
fn start(plan: &LentPlan, state: &mut State) -> Result<Answer, Refusal>
    requires { WholeTable plan.now }
    ensures { (q : WholeTable plan.now) → stepped result state.new ≡ as_step (reply q.costed.rowed.head.plan state.old idle Release) }
{
    let head = plan.head;
    if head.deadline < head.total + head.switch {
        return Err(Refusal::Unfit);
    }
    let ahead = at_release(&plan.head.at_max_load(plan.code));
    let outlook = Outlook {
        remaining: head.total,
        stretch: ahead.stretch,
        last: ahead.last,
    };
    let weighing = weigh(head, outlook, 0, Others::Running);
    *state = State::Open(opened(head.total, weighing.others));
    Ok(weighing.answer)
}

// Whether an open release is good: some run stands at its place, and its remaining times are those of that place.
fn stands(plan: &LentPlan, release: &OpenRelease) -> bool
    requires { Costed plan.now }
    ensures { (q : Costed plan.now) → Says result (GoodState q.rowed.head.plan release.now) }
{
    if release.place.level == 0 {
        return release.times[0] == plan.head.total && zero_above(&release.times, 0);
    }
    place_ok(&plan.code, &release.place)
        && zero_above(&release.times, release.place.level)
        && times_ok(
            &plan.code,
            &plan.head.totals,
            &release.place,
            &release.times,
        )
}

// Whether the record of this number is there and is a point's.
fn is_point(row: &[Leaf], number: u64) -> bool
    ensures { Says result ((number < length row.now) × (point_at (numbers row.now) number ≡ 1)) }
{
    let x = number as usize;
    x < row.len() && rows::point(row, x) == 1
}

// Moves the place of a good release on to the report of the point x, the next one, and says whether it did: where x cannot come next it stays as it was.
#[tactic(auto, using(crate::proofs::Lending::table_here, crate::proofs::Reporting::first_found, crate::proofs::Reporting::later_found))]
fn proceed(code: &Code, release: &mut OpenRelease, x: usize) -> bool
    requires x_value { point_at (numbers code.now.row.now) x ≡ 1 }
    requires good_on_code { GoodOnCode code.now release.old }
    ensures next { (q : Coded code.now) (ls : Levels) → standing q.plan release.old ≡ some ls
        → NextPlace code.now (main q.plan) (next_levels q.plan (place_of release.old ls) x) release.old.place x result release.new.place }
    ensures rest { release.new ≡ moved_to release.old release.new.place }
{
    if release.place.level == 0 {
        begin(code, &mut release.place, x)
    } else {
        advance(code, &mut release.place, x)
    }
}

// The decision at the report of the point that a good release has come to, and its remaining times there.
fn arrive(plan: &LentPlan, release: &mut OpenRelease, reading: u64) -> Answer
    requires { Arriving plan.now release.old }
    ensures { (k : Arriving plan.now release.old)
        → record { answer = result; state = Open release.new } ≡ as_step (arrived k.whole.costed.rowed.head.plan k.before k.point k.new.levels reading) }
{
    keep_time(
        plan.code.row,
        &plan.head.totals,
        &release.place,
        &mut release.times,
    );
    let ahead = at_report(&plan.head.at_max_load(plan.code), &release.place);
    let outlook = Outlook {
        remaining: release.times[release.place.level],
        stretch: ahead.stretch,
        last: ahead.last,
    };
    let weighing = weigh(plan.head, outlook, reading, release.others);
    release.others = weighing.others;
    release.reading = reading;
    weighing.answer
}

// A report to a good release: stranger, backward, astray, or the decision.
fn reported_at(
    plan: &LentPlan,
    release: &mut OpenRelease,
    point: u64,
    reading: u64,
) -> Result<Answer, Refusal>
    requires { GoodOnTable plan.now release.old }
    ensures { (q : WholeTable plan.now) (ls : Levels) → standing q.costed.rowed.head.plan release.old ≡ some ls
        → stepped result (Open release.new)
        ≡ as_step (reply q.costed.rowed.head.plan (Open release.old) (running_at release.old ls) (Report point reading)) }
{
    if !is_point(plan.code.row, point) {
        return Err(Refusal::Stranger);
    }
    if reading < release.reading {
        return Err(Refusal::Backward);
    }
    if !proceed(&plan.code, release, point as usize) {
        return Err(Refusal::Astray);
    }
    Ok(arrive(plan, release, reading))
}

// Whether the run of a good release can end here.
fn may_close(plan: &LentPlan, release: &OpenRelease) -> bool
    requires { GoodOnTable plan.now release.now }
    ensures { (q : WholeTable plan.now) (ls : Levels) → standing q.costed.rowed.head.plan release.now ≡ some ls
        → result ≡ can_close q.costed.rowed.head.plan (place_of release.now ls) }
{
    let code = plan.head.at_max_load(plan.code);
    if release.place.level == 0 {
        at_release(&code).ends
    } else {
        at_report(&code, &release.place).ends
    }
}

// The end of a good release: backward, astray, or resume or ended, and then no release is open.
fn closed_at(plan: &LentPlan, release: &OpenRelease, reading: u64) -> Result<Answer, Refusal>
    requires { GoodOnTable plan.now release.now }
    ensures { (q : WholeTable plan.now) (ls : Levels) → standing q.costed.rowed.head.plan release.now ≡ some ls
        → closing (Open release.now) result
        ≡ as_step (reply q.costed.rowed.head.plan (Open release.now) (running_at release.now ls) (End reading)) }
{
    if reading < release.reading {
        return Err(Refusal::Backward);
    }
    if !may_close(plan, release) {
        return Err(Refusal::Astray);
    }
    let late = plan.head.deadline < reading;
    Ok(Answer::Closed(Ending::from(release.others), late))
}

// A call where no release is open: a release starts one; a report or an end is idle.
#[tactic(auto, unfolding(model::specs::Controller::respond))]
fn idle_call(plan: &LentPlan, state: &mut State, call: Call) -> Result<Answer, Refusal>
    requires { WholeTable plan.now }
    ensures { (q : WholeTable plan.now) → stepped result state.new ≡ as_step (reply q.costed.rowed.head.plan state.old idle call) }
{
    match call {
        Call::Release => start(plan, state),
        Call::Report(_, _) | Call::End(_) => Err(Refusal::Idle),
    }
}

// A call on the table of an accepted plan, by the state: broken where an open release is not good.
fn good_call(plan: &LentPlan, state: &mut State, call: Call) -> Result<Answer, Refusal>
    requires { WholeTable plan.now }
    ensures { (q : WholeTable plan.now) → stepped result state.new
        ≡ as_step (on_state q.costed.rowed.head.plan state.old call (read_state q.costed.rowed.head.plan state.old)) }
{
    match state {
        State::Idle => idle_call(plan, state, call),
        State::Open(release) if stands(plan, release) => match call {
            Call::Release => Err(Refusal::Busy),
            Call::Report(point, reading) => reported_at(plan, release, point, reading),
            Call::End(reading) => {
                let answer = closed_at(plan, release, reading)?;
                *state = State::Idle;
                Ok(answer)
            }
        },
        State::Open(_) => Err(Refusal::Broken),
    }
}

// Answers a call on a table of which it is known whether it is that of an accepted plan, and moves the state on: broken where it is not.
fn answer_to(checked: bool, row: &[Leaf], head: &Head, state: &mut State, call: Call) -> Answer
    requires { checked ≡ good (table_with row.now head.now) }
    ensures { record { answer = result; state = state.new } ≡ as_step (call_on (table_with row.now head.now) state.old call) }
{
    if !checked {
        return Answer::Refused(Refusal::Broken);
    }
    let code = head.code(row);
    match good_call(&LentPlan { code, head }, state, call) {
        Ok(answer) => answer,
        Err(refusal) => Answer::Refused(refusal),
    }
}

// A call on a table of which it is known whether it is that of an accepted plan: broken where it is not. Release: broken, busy, unfit, or the decision.
// Report: broken, idle, stranger, backward, astray, or the decision. End: broken, idle, backward, astray, or resume or ended. A refused call keeps the state.
// `checked` goes beside row and head: both lie in the caller's memory, where they may change before the next piece of a log, so no type can say it of them.
pub fn checked_call(checked: bool, row: &[Leaf], head: &Head, mut state: State, call: Call) -> Step
    requires { checked ≡ good (table_with row.now head.now) }
    ensures { result ≡ as_step (call_on (table_with row.now head.now) state call) }
{
    let answer = answer_to(checked, row, head, &mut state, call);
    Step { answer, state }
}

// A call on a table.
pub fn call(row: &[Leaf], head: &Head, mut state: State, call: Call) -> Step
    ensures { result ≡ as_step (call_on (table_with row.now head.now) state call) }
{
    let answer = answer_to(check(row, head), row, head, &mut state, call);
    Step { answer, state }
}

// The calls by number, for callers that hold them as numbers.
pub const RELEASE: u64 = 0;

pub const REPORT: u64 = 1;

pub const END: u64 = 2;

// The call of a number: a release, a report of a point with a reading, or else an end with a reading.
pub fn call_from(kind: u64, point: u64, reading: u64) -> Call
    ensures { result ≡ call_of kind point reading }
{
    match kind {
        RELEASE => Call::Release,
        REPORT => Call::Report(point, reading),
        _ => Call::End(reading),
    }
}
