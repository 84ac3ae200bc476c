// The delivered calls: the caller lends a row of leaf records, a head and a state.
#![tactic(auto)]

ghost use Rattle.std.specs.Prelude.{◌≡◌, min, length, take};
ghost use Rattle.model.specs.declared.Call.TheVariants.{Release, Report, End};
ghost use Rattle.table.specs.Reading.{verdict, head_after};
ghost use Rattle.table.specs.Lent.{row_after};
ghost use Rattle.rolsipay.specs.Calling.{zeros, state_of, lent, called};
ghost use Rattle.rolsipay.specs.Face.{ruling_of, accepted, reply_from};
ghost use Rattle.rolsipay.specs.Reading.{answer_of};

use control::OpenRelease;
use model::{Answer, Call, Others};
use place::Place;
use reader::RefusedAt;
pub use rows::Leaf;
use rows::MAX_LEAVES;
use table::Head;

// The running state in the caller's memory, numbers alone, as the C interface takes it: whether a release is open and whether the others are suspended (0
// says no, any other number yes), the last accepted reading, the level of the last point (0: none was reported), for each level the leaf reported last there
// and its earlier visits, and the remaining time kept for each level. A fresh state is all zeros.
#[repr(C)]
#[derive(Clone, Copy)]
pub struct State {
    pub running: u64,
    pub suspended: u64,
    pub reading: u64,
    pub level: u64,
    pub leaves: [u64; 33],
    pub earlier: [u64; 33],
    pub times: [u64; 33],
}

// A fresh state. By hand (deriving it was tried at `Head`): a derived `default` promises a zero in each field, one by one, and not this state.
impl Default for State {
    fn default() -> State
        ensures { result ≡ zeros }
    {
        State {
            running: 0,
            suspended: 0,
            reading: 0,
            level: 0,
            leaves: [0; 33],
            earlier: [0; 33],
            times: [0; 33],
        }
    }
}

// What reading a plan answers, as numbers, for the C interface: 0 where it is accepted, else the refusal's number and line.
#[repr(C)]
#[derive(Clone, Copy)]
pub struct Ruling {
    pub number: u64,
    pub line: u64,
}

// What a call answers, as numbers, for the C interface: the word (0 refused, 1 go, 2 suspend, 3 stay, 4 resume, of a report as of an end, 5 ended), a refusal's
// number, remaining, margin and late mark.
#[repr(C)]
#[derive(Clone, Copy)]
pub struct Reply {
    pub word: u64,
    pub number: u64,
    pub remaining: u64,
    pub margin: i64,
    pub late: u64,
}

// Reads a plan: its leaves go to the beginning of the lent row and its head is written, and the records past its last leaf keep their values; or it is
// refused, by a number and a line, and row and head are as they were.
pub fn read(text: &[u8], row: &mut [Leaf], head: &mut Head) -> Result<(), RefusedAt>
    ensures { (result ≡ answer_of (verdict (length row.old) text.now))
        × (row.new ≡ row_after (verdict (length row.old) text.now) row.old)
        × (head.new ≡ head_after (verdict (length row.old) text.now) head.old) }
{
    *head = table::read(text, row)?;
    Ok(())
}

impl From<State> for control::State {
    ghost from_gives = { λ state read. read ≡ state_of state };

    // Gives the controller's state of a lent one.
    fn from(state: State) -> control::State {
        let State {
            running,
            suspended,
            reading,
            level,
            leaves,
            earlier,
            times,
        } = state;
        if running == 0 {
            return control::State::Idle;
        }
        let others = if suspended == 0 {
            Others::Running
        } else {
            Others::Suspended
        };
        let place = Place {
            level: level as usize,
            leaves,
            earlier,
        };
        control::State::Open(OpenRelease {
            others,
            reading,
            place,
            times,
        })
    }
}

impl From<control::State> for State {
    ghost from_gives = { λ state written. written ≡ lent state };

    // Gives the lent state of a controller's.
    fn from(state: control::State) -> State {
        let control::State::Open(release) = state else {
            return State::default();
        };
        let OpenRelease {
            others,
            reading,
            place,
            times,
        } = release;
        let Place {
            level,
            leaves,
            earlier,
        } = place;
        State {
            running: 1,
            suspended: u64::from(matches!(others, Others::Suspended)),
            reading,
            level: level as u64,
            leaves,
            earlier,
            times,
        }
    }
}

impl From<Result<(), RefusedAt>> for Ruling {
    ghost from_gives = { λ answer ruling. ruling ≡ ruling_of answer };

    // Gives what reading a plan answers, as numbers.
    fn from(answer: Result<(), RefusedAt>) -> Ruling {
        match answer {
            Ok(()) => Ruling { number: 0, line: 0 },
            Err(refused) => Ruling {
                number: u64::from(refused.refusal),
                line: refused.line as u64,
            },
        }
    }
}

impl From<Answer> for Reply {
    ghost from_gives = { λ answer reply. reply ≡ reply_from answer };

    // Gives what a call answers, as numbers.
    fn from(answer: Answer) -> Reply {
        match answer {
            Answer::Refused(refusal) => Reply {
                word: 0,
                number: u64::from(refusal),
                remaining: 0,
                margin: 0,
                late: 0,
            },
            Answer::Decided(word, remaining, margin, late) => {
                accepted_reply(u64::from(word), remaining, margin, late)
            }
            Answer::Closed(ending, late) => accepted_reply(u64::from(ending), 0, 0, late),
        }
    }
}

// An accepted call's answer, as numbers.
fn accepted_reply(word: u64, remaining: u64, margin: i64, late: bool) -> Reply
    ensures { result ≡ accepted word remaining margin late }
{
    Reply {
        word,
        number: 0,
        remaining,
        margin,
        late: u64::from(late),
    }
}

// The leaves that a call uses: as many as the head says, if the row has them, and of a longer row only the first 512.
fn used<'a>(row: &'a [Leaf], head: &Head) -> &'a [Leaf]
    ensures { result.now ≡ take (min (min (length row.now) 512) head.now.leaves) row.now }
{
    &row[..row.len().min(MAX_LEAVES).min(head.leaves)]
}

// A call on lent memory: the state is moved on where it lies, and a refused call leaves it as it was.
#[tactic(auto, using(crate::proofs::Lending::called_is))]
fn call(row: &[Leaf], head: &Head, state: &mut State, call: Call) -> Answer
    ensures { (result ≡ (called row.now head.now state.old call).answer)
        × (state.new ≡ (called row.now head.now state.old call).state) }
{
    let step = control::call(used(row, head), head, control::State::from(*state), call);
    if !matches!(step.answer, Answer::Refused(_)) {
        *state = State::from(step.state);
    }
    step.answer
}

// Release: 11, 12, 13, or the decision at the release; the state is moved on where it lies.
pub fn release(row: &[Leaf], head: &Head, state: &mut State) -> Answer
    ensures { (result ≡ (called row.now head.now state.old Release).answer)
        × (state.new ≡ (called row.now head.now state.old Release).state) }
{
    call(row, head, state, Call::Release)
}

// Report of a point with a reading: 11, 14, 15, 16, 17, or the decision at the report; the state is moved on where it lies.
pub fn report(row: &[Leaf], head: &Head, state: &mut State, point: u64, reading: u64) -> Answer
    ensures { (result ≡ (called row.now head.now state.old (Report point reading)).answer)
        × (state.new ≡ (called row.now head.now state.old (Report point reading)).state) }
{
    call(row, head, state, Call::Report(point, reading))
}

// End with a reading: 11, 14, 16, 17, or resume or ended; the state is fresh again where it lies.
pub fn end(row: &[Leaf], head: &Head, state: &mut State, reading: u64) -> Answer
    ensures { (result ≡ (called row.now head.now state.old (End reading)).answer)
        × (state.new ≡ (called row.now head.now state.old (End reading)).state) }
{
    call(row, head, state, Call::End(reading))
}

// `read` for other languages: its answer is a flat struct, as the C interface takes it.
pub fn rolsipay_read(text: &[u8], row: &mut [Leaf], head: &mut Head) -> Ruling
    ensures { (result ≡ ruling_of (answer_of (verdict (length row.old) text.now)))
        × (row.new ≡ row_after (verdict (length row.old) text.now) row.old)
        × (head.new ≡ head_after (verdict (length row.old) text.now) head.old) }
{
    Ruling::from(read(text, row, head))
}

// `release` for other languages: its answer is a flat struct, as the C interface takes it.
pub fn rolsipay_release(row: &[Leaf], head: &Head, state: &mut State) -> Reply
    ensures { (result ≡ reply_from (called row.now head.now state.old Release).answer)
        × (state.new ≡ (called row.now head.now state.old Release).state) }
{
    Reply::from(release(row, head, state))
}

// `report` for other languages: its answer is a flat struct, as the C interface takes it.
pub fn rolsipay_report(
    row: &[Leaf],
    head: &Head,
    state: &mut State,
    point: u64,
    reading: u64,
) -> Reply
    ensures { (result ≡ reply_from (called row.now head.now state.old (Report point reading)).answer)
        × (state.new ≡ (called row.now head.now state.old (Report point reading)).state) }
{
    Reply::from(report(row, head, state, point, reading))
}

// `end` for other languages: its answer is a flat struct, as the C interface takes it.
pub fn rolsipay_end(row: &[Leaf], head: &Head, state: &mut State, reading: u64) -> Reply
    ensures { (result ≡ reply_from (called row.now head.now state.old (End reading)).answer)
        × (state.new ≡ (called row.now head.now state.old (End reading)).state) }
{
    Reply::from(end(row, head, state, reading))
}
