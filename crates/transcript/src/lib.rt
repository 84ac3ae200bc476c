// The replay of a flight log on a plan's table (document 02, L1): the log comes in pieces, and each line is answered.
#![tactic(auto)]

ghost use Rattle.std.specs.Prelude.{◌≡◌, ◌++◌};
ghost use Rattle.table.specs.Table.{good};
ghost use Rattle.table.specs.Lent.{table_with};
ghost use Rattle.print.specs.Printed.{PrintedWithin};
ghost use Rattle.print.specs.Lines.{answer_line};
ghost use Rattle.transcript.specs.Transcript.{reading_of};
ghost use Rattle.transcript.specs.Pieces.{carried_of, begin, shared_to, shared_on, shared_by, shared_after, ticks_to, ticks_after, FedPiece, ClosedLog};
ghost use Rattle.transcript.specs.Private.{Tells, fed_of};

use control::{State, checked_call};
use flight_log::{HELD, PIECE, hold, read_entry};
use model::{Answer, Call, Others, Refusal};
use print::{answer_line, ticks_line};
use rows::Leaf;
use table::{Head, check};

// What is carried from piece to piece: the first bytes of the line being read and how many they are (an array, since there is no heap), the controller's state,
// and the ticks shared since the release.
#[derive(Clone, Copy)]
pub struct Replay {
    pub line: [u8; HELD],
    pub held: usize,
    pub state: State,
    pub shared: u64,
}

// How many bytes of the buffer are answers, and what is carried on. (A number: a slice would keep the buffer lent.)
#[derive(Clone, Copy)]
pub struct Fed {
    pub size: usize,
    pub replay: Replay,
}

// What the lines so far came to: the place after their answers in the buffer, the state and the ticks shared since the release.
#[derive(Clone, Copy)]
struct Told {
    next: usize,
    state: State,
    shared: u64,
}

// How many bytes are printed of a line at most: an answer, and the ticks after that of an end.
const PRINTED: usize = 128;

// How many bytes the answers to a piece have room for: each line ends in a byte of the piece.
pub const ANSWERS: usize = PIECE * PRINTED;

// Before the first byte of a log.
pub fn start() -> Replay
    ensures { carried_of result ≡ begin }
{
    Replay {
        line: [0; HELD],
        held: 0,
        state: State::Idle,
        shared: 0,
    }
}

// The reading of a call. That of a release is 0.
fn reading_of(call: Call) -> u64
    ensures { result ≡ reading_of call }
{
    match call {
        Call::Release => 0,
        Call::Report(_, reading) | Call::End(reading) => reading,
    }
}

// The ticks shared up to a reading. Those up to the last one that were not shared are suspended; the gap between both is shared if the others ran in it.
fn shared_to(others: Others, last: u64, reading: u64, shared: u64) -> u64
    ensures { result ≡ shared_to others last reading shared }
{
    match others {
        Others::Running => reading.saturating_sub(last.saturating_sub(shared)),
        Others::Suspended => shared,
    }
}

// The ticks shared up to a reading, where a release is open.
fn shared_on(state: State, reading: u64, shared: u64) -> u64
    ensures { result ≡ shared_on state reading shared }
{
    match state {
        State::Idle => shared,
        State::Open(open) => shared_to(open.others, open.reading, reading, shared),
    }
}

// The ticks shared after an accepted call.
fn shared_by(state: State, call: Call, shared: u64) -> u64
    ensures { result ≡ shared_by state call shared }
{
    match call {
        Call::Release => 0,
        Call::Report(_, reading) | Call::End(reading) => shared_on(state, reading, shared),
    }
}

// The ticks shared after any call: a refused one moves nothing.
fn shared_after(state: State, call: Call, answer: Answer, shared: u64) -> u64
    ensures { result ≡ shared_after state call answer shared }
{
    match answer {
        Answer::Refused(_) => shared,
        Answer::Decided(_, _, _, _) | Answer::Closed(_, _) => shared_by(state, call, shared),
    }
}

// Writes the ticks shared and suspended up to a reading, and their sum, at a place.
fn put_ticks(out: &mut [u8; ANSWERS], at: usize, shared: u64, reading: u64) -> usize
    ensures { PrintedWithin 63 out.old at (ticks_to reading shared) out.new result }
{
    let suspended = reading.saturating_sub(shared);
    ticks_line(out, at, shared, suspended, shared + suspended)
}

// Writes an answer at a place, and after that of an end the ticks of its release.
fn put_told(out: &mut [u8; ANSWERS], at: usize, answer: Answer, reading: u64, shared: u64) -> usize
    ensures { PrintedWithin 128 out.old at (answer_line answer ++ ticks_after answer reading shared) out.new result }
{
    let next = answer_line(out, at, answer);
    match answer {
        Answer::Refused(_) | Answer::Decided(_, _, _, _) => next,
        Answer::Closed(_, _) => put_ticks(out, next, shared, reading),
    }
}

// Answers a call, and writes the answer behind the others. It is known whether the table is that of an accepted plan.
fn tell_call(
    out: &mut [u8; ANSWERS],
    checked: bool,
    row: &[Leaf],
    head: &Head,
    told: Told,
    asked: Call,
) -> Told
    requires { checked ≡ good (table_with row.now head.now) }
    ensures { Tells out.old (table_with row.now head.now) told
        (Some asked) out.new result }
{
    let step = checked_call(checked, row, head, told.state, asked);
    let shared = shared_after(told.state, asked, step.answer, told.shared);
    Told {
        next: put_told(out, told.next, step.answer, reading_of(asked), shared),
        state: step.state,
        shared,
    }
}

// Answers a line of the log, and writes the answer behind the others. A line of another form is refused before all else.
fn tell(
    out: &mut [u8; ANSWERS],
    checked: bool,
    row: &[Leaf],
    head: &Head,
    told: Told,
    entry: Option<Call>,
) -> Told
    requires { checked ≡ good (table_with row.now head.now) }
    ensures { Tells out.old (table_with row.now head.now) told entry
        out.new result }
{
    match entry {
        Some(asked) => tell_call(out, checked, row, head, told, asked),
        None => {
            let next = answer_line(out, told.next, Answer::Refused(Refusal::Garbled));
            Told { next, ..told }
        }
    }
}

// What is handed back of a piece, by the bytes held of the line being read and what the lines before it came to.
fn handed_back(line: [u8; HELD], held: usize, told: Told) -> Fed
    ensures { result ≡ fed_of line held told }
{
    Fed {
        size: told.next,
        replay: Replay {
            line,
            held,
            state: told.state,
            shared: told.shared,
        },
    }
}

// Takes a piece of the log, of which it uses at most 4,096 bytes, writes the answers to the lines that end in it at the start of the buffer, and gives their
// length and what is carried on. The table is checked once for all lines of the piece.
pub fn feed(out: &mut [u8; ANSWERS], piece: &[u8], row: &[Leaf], head: &Head, replay: Replay) -> Fed
    ensures { FedPiece out.old (table_with row.now head.now)
        (carried_of replay) piece.now out.new result }
{
    let checked = check(row, head);
    let mut line = replay.line;
    let mut held = replay.held;
    let mut told = Told {
        next: 0,
        state: replay.state,
        shared: replay.shared,
    };
    for &b in &piece[..piece.len().min(PIECE)] {
        held = hold(&mut line, held, b);
        if b == b'\n' {
            let entry = read_entry(&line[..held]);
            told = tell(out, checked, row, head, told, entry);
            held = 0;
        }
    }
    handed_back(line, held, told)
}

// Ends the log: a line that was begun has no line feed, and is refused. Writes the answer at the start of the buffer, and gives its length.
pub fn close(out: &mut [u8; ANSWERS], replay: Replay) -> usize
    ensures { ClosedLog out.old (carried_of replay) out.new result }
{
    if replay.held == 0 {
        0
    } else {
        answer_line(out, 0, Answer::Refused(Refusal::Garbled))
    }
}
