// Explains the last report of a flight log on a plan (document 02, L9): the visits that make up its stretch, and what is taken off the deadline. The arguments
// name the plan's file and the log's, in that order. What cannot be opened, read or written is said on standard error; of a log that cannot be read to its end
// nothing else is said.
#![tactic(auto)]

use explanation::{EXPLANATION, Followed, explain, follow, start};
use files::{NAME, OTHER, Opened, PLAN};
use flight_log::PIECE;
use reader::TEXT;
use rows::{Leaf, MAX_LEAVES};
use std::io::Read;
use table::{Head, read};

// Follows a log to its end, piece by piece, unless a read fails. A proved loop has to end, and nothing says that a file does; so the pieces are counted up to a
// number that no log comes to, since each has a byte at least.
fn follow_all<R: Read>(
    rt: &HostRuntime,
    file: &mut R,
    name: &[u8],
    row: &[Leaf],
    head: &Head,
) -> Option<Followed> {
    let mut followed = start();
    let mut piece = [0u8; PIECE];
    for _piece in 0..u64::MAX {
        let n = files::piece(rt, file, name, &mut piece).ok()?;
        if n == 0 {
            return Some(followed);
        }
        followed = follow(&piece[..n], row, head, followed);
    }
    None
}

// Explains the last report of the log that the second argument names.
fn explain_log(rt: &HostRuntime, row: &[Leaf], head: &Head) {
    let mut name = [0u8; NAME];
    let Ok(Opened { mut file, size }) = files::open(rt, OTHER, &mut name) else {
        return;
    };
    if let Some(followed) = follow_all(rt, &mut file, &name[..size], row, head) {
        let mut out = [0u8; EXPLANATION];
        let n = explain(&mut out, row, head, &followed);
        let _ = files::print(rt, &out[..n]);
    }
}

// Reads a plan and explains the log on its table; or prints the plan's refusal, and does not look at the log.
fn explain_plan(rt: &HostRuntime, text: &[u8]) {
    let mut row = [Leaf::default(); MAX_LEAVES];
    match read(text, &mut row) {
        Ok(head) => explain_log(rt, &row, &head),
        Err(refused) => files::refuse(rt, refused),
    }
}

fn main(rt: HostRuntime) {
    if !files::two_names(&rt, b"usage: cause PLAN LOG\n") {
        return;
    }
    let mut text = [0u8; TEXT];
    if let Ok(n) = files::text(&rt, PLAN, &mut text) {
        explain_plan(&rt, &text[..n]);
    }
}
