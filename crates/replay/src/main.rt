// Replays a flight log on a plan and prints each answer (document 02, L1). The arguments name the plan's file and the log's, in that order. What cannot be
// opened, read or written is said on standard error.
#![tactic(auto)]

ghost use Rattle.std.specs.Prelude.{◌≤◌, length};

use files::{NAME, OTHER, Opened, PLAN};
use flight_log::PIECE;
use reader::TEXT;
use rows::{Leaf, MAX_LEAVES};
use std::io::Read;
use table::{Head, read};
use transcript::{ANSWERS, Replay, close, feed, start};

// Prints the first so many bytes of a buffer, and says whether they were written.
fn show(rt: &HostRuntime, out: &[u8], size: usize) -> bool
    requires { size ≤ length out.now }
{
    files::print(rt, &out[..size]).is_ok()
}

// Reads a piece of the log and prints the answers to the lines that end in it; at the end of the log, what is answered there. What
// is carried on is given while there may be more of the log.
fn take_piece<R: Read>(
    rt: &HostRuntime,
    file: &mut R,
    name: &[u8],
    out: &mut [u8; ANSWERS],
    row: &[Leaf],
    head: &Head,
    replay: Replay,
) -> Option<Replay> {
    let mut piece = [0u8; PIECE];
    let n = files::piece(rt, file, name, &mut piece).ok()?;
    if n == 0 {
        let size = close(out, replay);
        show(rt, out, size);
        return None;
    }
    let fed = feed(out, &piece[..n], row, head, replay);
    if show(rt, out, fed.size) {
        Some(fed.replay)
    } else {
        None
    }
}

// Replays a log, piece by piece. A proved loop has to end, and nothing says that a file does; so the pieces are counted up to a number that no log comes
// to, since each has a byte at least.
fn play<R: Read>(rt: &HostRuntime, file: &mut R, name: &[u8], row: &[Leaf], head: &Head) {
    let mut out = [0u8; ANSWERS];
    let mut replay = start();
    for _piece in 0..u64::MAX {
        let Some(next) = take_piece(rt, file, name, &mut out, row, head, replay) else {
            return;
        };
        replay = next;
    }
}

// Replays the log that the second argument names.
fn replay_log(rt: &HostRuntime, row: &[Leaf], head: &Head) {
    let mut name = [0u8; NAME];
    if let Ok(Opened { mut file, size }) = files::open(rt, OTHER, &mut name) {
        play(rt, &mut file, &name[..size], row, head);
    }
}

// Reads a plan and replays the log on its table; or prints the plan's refusal, and does not look at the log.
fn replay_plan(rt: &HostRuntime, text: &[u8]) {
    let mut row = [Leaf::default(); MAX_LEAVES];
    match read(text, &mut row) {
        Ok(head) => replay_log(rt, &row, &head),
        Err(refused) => files::refuse(rt, refused),
    }
}

fn main(rt: HostRuntime) {
    if !files::two_names(&rt, b"usage: replay PLAN LOG\n") {
        return;
    }
    let mut text = [0u8; TEXT];
    if let Ok(n) = files::text(&rt, PLAN, &mut text) {
        replay_plan(&rt, &text[..n]);
    }
}
