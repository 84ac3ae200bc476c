// Plays the marked cases m1 to m12 of document 01, m5 and m11 as document 02 (L3 and L6) has them, cases of edition 2 (02, L7) and a faster run of plan A (02,
// L8), and prints each answer. What must be printed is worked out by hand beside each list of calls, and stands in the file stdout.
#![tactic(auto)]

use control::{State, call};
use model::{Answer, Call};
use print::{SIZE, answer_line};
use rows::{Leaf, MAX_LEAVES};
use std::io;
use table::{Head, read};

// Prints an answer.
fn show(rt: &impl Print, answer: Answer) -> io::Result<()> {
    let mut out = [0; SIZE];
    let size = answer_line(&mut out, 0, answer);
    rt.write_all(&out[..size])
}

// Plays a list of calls on a table from the idle state, and prints the answers.
fn play_on(rt: &impl Print, row: &[Leaf], head: &Head, calls: &[Call]) -> io::Result<()> {
    let mut state = State::Idle;
    for &next in calls {
        let step = call(row, head, state, next);
        show(rt, step.answer)?;
        state = step.state;
    }
    Ok(())
}

// Reads a plan, and plays a list of calls on its table.
fn play(rt: &impl Print, text: &[u8], calls: &[Call]) -> io::Result<()> {
    let mut row = [Leaf::default(); MAX_LEAVES];
    if let Ok(head) = read(text, &mut row) {
        play_on(rt, &row, &head, calls)?;
    }
    Ok(())
}

// Plays the release of a plan.
fn release(rt: &impl Print, text: &[u8]) -> io::Result<()> {
    play(rt, text, &[Call::Release])
}

// Plan A: D 100, T 4; stretches 0 (release), 9 and 24. The margin is 100 less reading, remaining, stretch and 4; at the fourth visit of the loop, behind
// which no point can come, 100 less reading and 12.
fn plan_a(rt: &impl Print, calls: &[Call]) -> io::Result<()> {
    play(
        rt,
        b"(task 100 4\n(fun\n(leaf p 5 9)\n(loop p 3 2 4\n(leaf s 10 20)\n)\n(leaf s 6 8)\n)\n)\n",
        calls,
    )
}

// Plan A with a third number: edition 2, with U 3, which the margin of resume and of stay is less by.
fn plan_a_3(rt: &impl Print, calls: &[Call]) -> io::Result<()> {
    play(
        rt,
        b"(task 100 4 3\n(fun\n(leaf p 5 9)\n(loop p 3 2 4\n(leaf s 10 20)\n)\n(leaf s 6 8)\n)\n)\n",
        calls,
    )
}

// The same with U 0.
fn plan_a_0(rt: &impl Print, calls: &[Call]) -> io::Result<()> {
    play(
        rt,
        b"(task 100 4 0\n(fun\n(leaf p 5 9)\n(loop p 3 2 4\n(leaf s 10 20)\n)\n(leaf s 6 8)\n)\n)\n",
        calls,
    )
}

// Plan B: D 200, T 5; stretches 0 (release), 4, 13, 2 and 2 of the points 0, 1, 2 and 4. No point can come behind 1, 4, 0.
fn plan_b(rt: &impl Print, calls: &[Call]) -> io::Result<()> {
    play(
        rt,
        b"(task 200 5\n(fun\n(leaf p 3 4)\n)\n(fun\n(if p 2 3\n(then\n(call p 0 1 2)\n)\n(else\n(leaf s 9 10)\n)\n)\n(call p 0 1 2)\n)\n)\n",
        calls,
    )
}

// Plays a run in which the others are never suspended, and a visit of the loop's condition too many.
fn rounds_of_a(rt: &impl Print) -> io::Result<()> {
    // m1, m4 and the first half of m5: go 49 47, go 49 38, go 44 19, go 32 7, go 20 2, go 8 0; a fifth visit is 17.
    plan_a(
        rt,
        &[
            Call::Release,
            Call::Report(0, 0),
            Call::Report(1, 9),
            Call::Report(1, 33),
            Call::Report(1, 50),
            Call::Report(1, 88),
            Call::Report(1, 88),
        ],
    )
}

// Plays the loop's first visit at the last reading that goes on, and one tick later.
fn edge_of_a(rt: &impl Print) -> io::Result<()> {
    // m2: at 28 go 44 0.
    plan_a(
        rt,
        &[Call::Release, Call::Report(0, 0), Call::Report(1, 28)],
    )?;
    // And at 29 suspend 44 -1.
    plan_a(
        rt,
        &[Call::Release, Call::Report(0, 0), Call::Report(1, 29)],
    )
}

// Plays runs that suspend the others.
fn suspensions_of_a(rt: &impl Print) -> io::Result<()> {
    // m3: visit 3 at 57 gives suspend 20 -5, visit 4 at 73 stay 8 15, and the end at 81 resumes.
    plan_a(
        rt,
        &[
            Call::Release,
            Call::Report(0, 0),
            Call::Report(1, 9),
            Call::Report(1, 33),
            Call::Report(1, 57),
            Call::Report(1, 73),
            Call::End(81),
        ],
    )?;
    // m5: visit 4 at 89 gives suspend 8 -1.
    plan_a(
        rt,
        &[
            Call::Release,
            Call::Report(0, 0),
            Call::Report(1, 9),
            Call::Report(1, 33),
            Call::Report(1, 50),
            Call::Report(1, 89),
        ],
    )
}

// m1 to m5.
fn cases_of_a(rt: &impl Print) -> io::Result<()> {
    rounds_of_a(rt)?;
    edge_of_a(rt)?;
    suspensions_of_a(rt)
}

// m6 to m9.
fn cases_of_b(rt: &impl Print) -> io::Result<()> {
    // m6 to m9: go 15 180, go 15 167, go 4 189, go 3 196, ended.
    plan_b(
        rt,
        &[
            Call::Release,
            Call::Report(1, 0),
            Call::Report(4, 0),
            Call::Report(0, 0),
            Call::End(9),
        ],
    )?;
    // m8 and m9: go 15 180, go 15 167, then point 0 is 17, then go 8 185 and go 7 184.
    plan_b(
        rt,
        &[
            Call::Release,
            Call::Report(1, 0),
            Call::Report(0, 0),
            Call::Report(2, 0),
            Call::Report(0, 0),
        ],
    )
}

// m10 to m12.
fn smallest_cases(rt: &impl Print) -> io::Result<()> {
    // m10: D 9 is 13.
    release(rt, b"(task 9 3\n(fun\n(leaf s 7 9)\n)\n)\n")?;
    // m11: D 10 gives go 7 1, and D 18 go 7 9.
    release(rt, b"(task 10 3\n(fun\n(leaf s 7 9)\n)\n)\n")?;
    release(rt, b"(task 18 3\n(fun\n(leaf s 7 9)\n)\n)\n")?;
    // m12: D 19 gives go 7 10.
    release(rt, b"(task 19 3\n(fun\n(leaf s 7 9)\n)\n)\n")
}

// The calls of m3 up to the fourth visit of the loop, which is reported at this reading, and an end.
fn to_the_last_visit(last: u64, end: u64) -> [Call; 7] {
    [
        Call::Release,
        Call::Report(0, 0),
        Call::Report(1, 9),
        Call::Report(1, 33),
        Call::Report(1, 57),
        Call::Report(1, last),
        Call::End(end),
    ]
}

// Plays decisions at the last point while the others are suspended: three resume, and the end finds the others running; the fourth stays.
fn last_returns(rt: &impl Print) -> io::Result<()> {
    // As m3 up to suspend 20 -5; then visit 4 at 73 gives resume 8 12, and the end at 73 + 3 + 12 ended.
    plan_a_3(rt, &to_the_last_visit(73, 88))?;
    // With U 0, visit 4 at 73 gives resume 8 15, where plan A stays.
    plan_a_0(rt, &to_the_last_visit(73, 85))?;
    // The last reading that resumes, at 85 resume 8 0; and one tick later, stay 8 -1, and the end resumes.
    plan_a_3(rt, &to_the_last_visit(85, 100))?;
    plan_a_3(rt, &to_the_last_visit(86, 94))
}

// Plays decisions before the last point while the others are suspended: returns, and stays.
fn early_returns(rt: &impl Print) -> io::Result<()> {
    // Two stops and two returns: at 29 suspend 44 -1, at 35 resume 32 2, at 60 suspend 20 -8, at 76 resume 8 9, ended.
    plan_a_3(
        rt,
        &[
            Call::Release,
            Call::Report(0, 0),
            Call::Report(1, 29),
            Call::Report(1, 35),
            Call::Report(1, 60),
            Call::Report(1, 76),
            Call::End(91),
        ],
    )?;
    // Two stays: at 29 suspend 44 -1, at 38 stay 32 -1, at 60 stay 20 -11, at 76 resume 8 9, ended.
    plan_a_3(
        rt,
        &[
            Call::Release,
            Call::Report(0, 0),
            Call::Report(1, 29),
            Call::Report(1, 38),
            Call::Report(1, 60),
            Call::Report(1, 76),
            Call::End(91),
        ],
    )
}

// The cases of edition 2.
fn returns(rt: &impl Print) -> io::Result<()> {
    last_returns(rt)?;
    early_returns(rt)
}

// Plays a run of plan A that is faster than m3 up to the last report: the loop's body takes 17 ticks for 20.
fn faster_run(rt: &impl Print) -> io::Result<()> {
    // go 49 47, go 49 38, go 44 19, at 30 go 32 10, at 51 go 20 1, at 72 go 8 16, ended.
    plan_a(
        rt,
        &[
            Call::Release,
            Call::Report(0, 0),
            Call::Report(1, 9),
            Call::Report(1, 30),
            Call::Report(1, 51),
            Call::Report(1, 72),
            Call::End(84),
        ],
    )
}

fn main(rt: HostRuntime) -> io::Result<()> {
    cases_of_a(&rt)?;
    cases_of_b(&rt)?;
    smallest_cases(&rt)?;
    returns(&rt)?;
    faster_run(&rt)
}
