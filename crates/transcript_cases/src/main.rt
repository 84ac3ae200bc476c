// Replays logs on plan A as a plan of edition 2 (document 02, L7), with U 3 and with U 0, and prints the answers and the ticks. What must be printed is worked
// out by hand beside each log, and stands in the file stdout.
#![tactic(auto)]

ghost use Rattle.std.specs.Prelude.{◌≤◌, length};

use rows::{Leaf, MAX_LEAVES};
use std::io;
use table::{Head, read};
use transcript::{ANSWERS, close, feed, start};

// Prints the first so many bytes of a buffer.
fn show(rt: &impl Print, out: &[u8], size: usize) -> io::Result<()>
    requires { size ≤ length out.now }
{
    rt.write_all(&out[..size])
}

// Replays a log, in one piece, on a table.
fn replay_on(
    rt: &impl Print,
    out: &mut [u8; ANSWERS],
    row: &[Leaf],
    head: &Head,
    log: &[u8],
) -> io::Result<()> {
    let fed = feed(out, log, row, head, start());
    show(rt, out, fed.size)?;
    let size = close(out, fed.replay);
    show(rt, out, size)
}

// Reads a plan, and replays a log on its table.
fn replay(rt: &impl Print, text: &[u8], log: &[u8]) -> io::Result<()> {
    let mut row = [Leaf::default(); MAX_LEAVES];
    let mut out = [0u8; ANSWERS];
    if let Ok(head) = read(text, &mut row) {
        replay_on(rt, &mut out, &row, &head, log)?;
    }
    Ok(())
}

// Plan A with U 3. While the others run, the margin is that of plan A: 100 less reading, remaining, stretch (9 at point 0, 24 at the loop) and 4; at the
// fourth visit of the loop, behind which no point can come, 100 less reading and 12. While they are suspended it is 3 less.
fn with_three(rt: &impl Print, log: &[u8]) -> io::Result<()> {
    replay(
        rt,
        b"(task 100 4 3\n(fun\n(leaf p 5 9)\n(loop p 3 2 4\n(leaf s 10 20)\n)\n(leaf s 6 8)\n)\n)\n",
        log,
    )
}

// Plan A with U 0: the margin is that of plan A.
fn with_none(rt: &impl Print, log: &[u8]) -> io::Result<()> {
    replay(
        rt,
        b"(task 100 4 0\n(fun\n(leaf p 5 9)\n(loop p 3 2 4\n(leaf s 10 20)\n)\n(leaf s 6 8)\n)\n)\n",
        log,
    )
}

// Replays runs that stop and return, and one that comes a tick too late.
fn returns(rt: &impl Print) -> io::Result<()> {
    // Visit 3 at 57 gives suspend 20 -5, and visit 4 at 73 resume 8 12, 100 less 73, 12 and 3; 57 + 15 are shared and 16 suspended. The
    // lines that are refused by 17 change nothing.
    with_three(
        rt,
        b"release\npoint 0 0\npoint 1 9\npoint 1 33\npoint 1 57\npoint 0 60\npoint 1 73\npoint 1 80\nend 88\n",
    )?;
    // Two stops and two returns: 29, 60 - 35 and 91 - 76 are shared, 6 and 16 suspended.
    with_three(
        rt,
        b"release\npoint 0 0\npoint 1 29\npoint 1 35\npoint 1 60\npoint 1 76\nend 91\n",
    )?;
    // A stay before a return, at whose margin 0 nothing is left; then a go. 29, 88 - 49 and 12 are shared, 9 and 11 suspended.
    with_three(
        rt,
        b"release\npoint 0 0\npoint 1 29\npoint 1 38\npoint 1 49\npoint 1 88\nend 100\n",
    )?;
    // Visit 4 comes a tick too late, and the end resumes: 57 are shared, 29 and 8 suspended.
    with_three(
        rt,
        b"release\npoint 0 0\npoint 1 9\npoint 1 33\npoint 1 57\npoint 1 86\nend 94\n",
    )
}

// Replays runs with U 0.
fn free_returns(rt: &impl Print) -> io::Result<()> {
    // Visit 4 at 73 gives resume 8 15; 57 + 12 are shared and 16 suspended.
    with_none(
        rt,
        b"release\npoint 0 0\npoint 1 9\npoint 1 33\npoint 1 57\npoint 1 73\nend 85\n",
    )?;
    // At 88 it is the last reading that resumes: 57 + 12 are shared and 31 suspended.
    with_none(
        rt,
        b"release\npoint 0 0\npoint 1 9\npoint 1 33\npoint 1 57\npoint 1 88\nend 100\n",
    )?;
    // At 89 visit 4 stays suspended, and the end resumes: 57 are shared, 32 and 8 suspended.
    with_none(
        rt,
        b"release\npoint 0 0\npoint 1 9\npoint 1 33\npoint 1 57\npoint 1 89\nend 97\n",
    )
}

fn main(rt: HostRuntime) -> io::Result<()> {
    returns(&rt)?;
    free_returns(&rt)
}
