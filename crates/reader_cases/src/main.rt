// Reads the plans of document 01, task lines of edition 2 (document 02, L7) and a text for each refusal, and prints for each text `accepted` with the number
// of leaves and functions, or `refused` with the refusal's number and line. What must be printed is worked out by hand beside each text, and stands in the
// file stdout.
#![tactic(auto)]

ghost use Rattle.std.specs.Prelude.{◌≤◌};

use print::put_bytes;
use reader::{TEXT, read_raw};
use rows::{Leaf, MAX_LEAVES};
use std::io;

// Reads a text into a row of which so many records may be used, and prints the answer.
fn show(rt: &impl Print, text: &[u8], capacity: usize) -> io::Result<()> {
    let mut row = [Leaf::default(); MAX_LEAVES];
    match read_raw(text, capacity, &mut row) {
        Ok(raw) => println!(rt; "accepted {} {}", raw.leaves, raw.functions),
        Err(refused) => println!(rt; "refused {} {}", u64::from(refused.refusal), refused.line),
    }
}

// Writes a piece so many times, one behind the other, as far as the text has room, and gives the place after them.
fn add(text: &mut [u8; TEXT], at: usize, piece: &[u8], times: usize) -> usize
    requires { at ≤ TEXT }
    ensures { result ≤ TEXT }
{
    let mut end = at;
    for _ in 0..times {
        end = put_bytes(text, end, piece);
    }
    end
}

// The plans of document 01, and the edges of a plan that is accepted.
fn accepted_texts(rt: &impl Print) -> io::Result<()> {
    // Plan A: the leaves are leaf, loop, leaf, leaf; one function.
    show(
        rt,
        b"(task 100 4\n(fun\n(leaf p 5 9)\n(loop p 3 2 4\n(leaf s 10 20)\n)\n(leaf s 6 8)\n)\n)\n",
        512,
    )?;
    // Plan B: leaf 0 in function 0; if, call, leaf, call in function 1.
    show(
        rt,
        b"(task 200 5\n(fun\n(leaf p 3 4)\n)\n(fun\n(if p 2 3\n(then\n(call p 0 1 2)\n)\n(else\n(leaf s 9 10)\n)\n)\n(call p 0 1 2)\n)\n)\n",
        512,
    )?;
    // The smallest plan: one leaf, one function.
    show(rt, b"(task 19 3\n(fun\n(leaf s 7 9)\n)\n)\n", 512)?;
    // A row of one record is enough for it.
    show(rt, b"(task 19 3\n(fun\n(leaf s 7 9)\n)\n)\n", 1)?;
    // A function may be empty.
    show(rt, b"(task 1 0\n(fun\n)\n)\n", 0)
}

// Task lines with a third number, U: plans of edition 2.
fn edition_texts(rt: &impl Print) -> io::Result<()> {
    // Plan A with U 3: its leaves and functions are the same.
    show(
        rt,
        b"(task 100 4 3\n(fun\n(leaf p 5 9)\n(loop p 3 2 4\n(leaf s 10 20)\n)\n(leaf s 6 8)\n)\n)\n",
        512,
    )?;
    // U may be 0, and 2^20.
    show(rt, b"(task 100 4 0\n(fun\n)\n)\n", 512)?;
    show(rt, b"(task 100 4 1048576\n(fun\n)\n)\n", 512)?;
    // U is 2^20 + 1 in line 1.
    show(rt, b"(task 100 4 1048577\n(fun\n)\n)\n", 512)?;
    // U has 30 digits in line 1.
    show(
        rt,
        b"(task 100 4 999999999999999999999999999999\n(fun\n)\n)\n",
        512,
    )?;
    // U has a leading zero in line 1.
    show(rt, b"(task 100 4 03\n(fun\n)\n)\n", 512)?;
    // A fourth number in line 1.
    show(rt, b"(task 100 4 3 4\n(fun\n)\n)\n", 512)
}

// Refusal 2, form.
fn form_texts(rt: &impl Print) -> io::Result<()> {
    // The empty text ends early: the line after the last is line 1.
    show(rt, b"", 512)?;
    // The last line, number 5, has no line feed.
    show(rt, b"(task 19 3\n(fun\n(leaf s 7 9)\n)\n)", 512)?;
    // The text ends after line 2: the line after the last is line 3.
    show(rt, b"(task 19 3\n(fun\n", 512)?;
    // The text goes on behind the closed task, with line 6.
    show(rt, b"(task 19 3\n(fun\n(leaf s 7 9)\n)\n)\n)\n", 512)?;
    // Line 2 is blank.
    show(rt, b"(task 19 3\n\n(fun\n(leaf s 7 9)\n)\n)\n", 512)?;
    // Line 1 ends in a carriage return and a line feed.
    show(rt, b"(task 19 3\r\n(fun\r\n)\r\n)\r\n", 512)?;
    // C has a leading zero in line 3.
    show(rt, b"(task 19 3\n(fun\n(leaf s 07 9)\n)\n)\n", 512)?;
    // An else part, in line 4, where the then part must come.
    show(
        rt,
        b"(task 1 0\n(fun\n(if s 0 0\n(else\n)\n(then\n)\n)\n)\n)\n",
        512,
    )?;
    // The task closes in line 2 and holds no function.
    show(rt, b"(task 1 0\n)\n", 512)?;
    // A leaf in line 2 stands in no function: form comes before range.
    show(rt, b"(task 1 0\n(leaf s 1048577 0)\n)\n", 512)
}

// Refusal 3, range.
fn range_texts(rt: &impl Print) -> io::Result<()> {
    // D is 0 in line 1.
    show(rt, b"(task 0 0\n(fun\n)\n)\n", 512)?;
    // D is 2^40 + 1 in line 1.
    show(rt, b"(task 1099511627777 0\n(fun\n)\n)\n", 512)?;
    // D has 30 digits in line 1.
    show(
        rt,
        b"(task 999999999999999999999999999999 0\n(fun\n)\n)\n",
        512,
    )?;
    // B is 0 in line 3.
    show(rt, b"(task 1 0\n(fun\n(loop s 0 1 1\n)\n)\n)\n", 512)?;
    // F is 16 in line 3: range comes before target.
    show(rt, b"(task 1 0\n(fun\n(call s 16 1 1)\n)\n)\n", 512)?;
    // C is 2^20 + 1 in line 3: range comes before count, and the row has no record.
    show(rt, b"(task 1 0\n(fun\n(leaf s 1048577 1048577)\n)\n)\n", 0)
}

// Refusals 4 to 6, count, load and target.
fn later_texts(rt: &impl Print) -> io::Result<()> {
    // A row of no record: the leaf in line 3 is one more than it holds.
    show(rt, b"(task 19 3\n(fun\n(leaf s 7 9)\n)\n)\n", 0)?;
    // The same with M below C: count comes before load.
    show(rt, b"(task 19 3\n(fun\n(leaf s 9 7)\n)\n)\n", 0)?;
    // M is below C in line 3.
    show(rt, b"(task 19 3\n(fun\n(leaf s 9 7)\n)\n)\n", 512)?;
    // Function 0 calls itself in line 3.
    show(rt, b"(task 1 0\n(fun\n(call s 0 1 1)\n)\n)\n", 512)?;
    // Function 0 calls itself in line 3, with M below C: load comes before target.
    show(rt, b"(task 1 0\n(fun\n(call s 0 2 1)\n)\n)\n", 512)
}

// Refusal 19, costless.
fn costless_texts(rt: &impl Print) -> io::Result<()> {
    // A leaf, a loop and an if in line 3, and a call in line 5, each a point with C = 0, whatever its M.
    show(rt, b"(task 1 0\n(fun\n(leaf p 0 1)\n)\n)\n", 512)?;
    show(rt, b"(task 1 0\n(fun\n(loop p 1 0 0\n)\n)\n)\n", 512)?;
    show(
        rt,
        b"(task 1 0\n(fun\n(if p 0 9\n(then\n)\n(else\n)\n)\n)\n)\n",
        512,
    )?;
    show(rt, b"(task 1 0\n(fun\n)\n(fun\n(call p 0 0 0)\n)\n)\n", 512)?;
    // The same leaf is one more than a row of no record holds: count comes before costless.
    show(rt, b"(task 1 0\n(fun\n(leaf p 0 1)\n)\n)\n", 0)?;
    // Function 0 calls itself in line 3: costless comes before target.
    show(rt, b"(task 1 0\n(fun\n(call p 0 0 1)\n)\n)\n", 512)?;
    // Silent leaves of cost 0 pass: a leaf in function 0; a call, a loop and an if in function 1.
    show(
        rt,
        b"(task 1 0\n(fun\n(leaf s 0 1)\n)\n(fun\n(call s 0 0 0)\n(loop s 1 0 0\n)\n(if s 0 0\n(then\n)\n(else\n)\n)\n)\n)\n",
        512,
    )
}

// Shows the smallest plan with so many blanks and line feeds behind it.
fn show_tail(rt: &impl Print, blanks: usize, feeds: usize) -> io::Result<()> {
    let mut text = [0; TEXT];
    let a = add(&mut text, 0, b"(task 19 3\n(fun\n(leaf s 7 9)\n)\n)\n", 1);
    let b = add(&mut text, a, b" ", blanks);
    let c = add(&mut text, b, b"\n", feeds);
    show(rt, &text[..c], 512)
}

// Shows a text whose first function has so many leaves, with so many empty functions behind it.
fn show_flat(rt: &impl Print, leaves: usize, empty: usize, capacity: usize) -> io::Result<()> {
    let mut text = [0; TEXT];
    let a = add(&mut text, 0, b"(task 1 0\n(fun\n", 1);
    let b = add(&mut text, a, b"(leaf s 0 0)\n", leaves);
    let c = add(&mut text, b, b")\n(fun\n", empty);
    let d = add(&mut text, c, b")\n", 2);
    show(rt, &text[..d], capacity)
}

// Texts of many bytes, leaves or functions, for refusals 1 and 4.
fn long_texts(rt: &impl Print) -> io::Result<()> {
    // The smallest plan, of 33 bytes, and blanks up to 65,537 bytes: oversize, with line 0.
    show_tail(rt, 65504, 0)?;
    // With blanks up to 65,536 bytes it is not oversize: the text goes on with line 6.
    show_tail(rt, 65503, 0)?;
    // The last of them is a line feed, and still the text goes on.
    show_tail(rt, 65502, 1)?;
    // 512 leaves in lines 3 to 514.
    show_flat(rt, 512, 0, 512)?;
    // 513 leaves: the last stands in line 515; of a longer row only 512 records are used.
    show_flat(rt, 513, 0, 600)?;
    // 16 functions in lines 2 to 33.
    show_flat(rt, 0, 15, 512)?;
    // 17 functions: the last stands in line 34.
    show_flat(rt, 0, 16, 512)
}

// Writes so many loops, each in the body of the one before, and in the last of them so many ifs, each in the then part of the one before; gives the place
// after them.
fn add_nested(text: &mut [u8; TEXT], at: usize, loops: usize, ifs: usize) -> usize
    requires { at ≤ TEXT }
    ensures { result ≤ TEXT }
{
    let a = add(text, at, b"(loop s 1 0 0\n", loops);
    let b = add(text, a, b"(if s 0 0\n(then\n", ifs);
    let c = add(text, b, b")\n(else\n)\n)\n", ifs);
    add(text, c, b")\n", loops)
}

// Shows a text whose first function has so many loops and in them so many ifs, each in the one before; so many functions that call it follow.
fn show_nested(rt: &impl Print, loops: usize, ifs: usize, calls: usize) -> io::Result<()> {
    let mut text = [0; TEXT];
    let a = add(&mut text, 0, b"(task 1 0\n(fun\n", 1);
    let b = add_nested(&mut text, a, loops, ifs);
    let c = add(&mut text, b, b")\n(fun\n(call s 0 0 0)\n", calls);
    let d = add(&mut text, c, b")\n", 2);
    show(rt, &text[..d], 512)
}

// Refusal 7, depth.
fn deep_texts(rt: &impl Print) -> io::Result<()> {
    // 64 open brackets: task, fun and 31 times if and then. The level stays 1. 31 ifs.
    show_nested(rt, 0, 31, 0)?;
    // The same with a 32nd if in line 2 + 62 + 1: the 65th open bracket.
    show_nested(rt, 0, 32, 0)?;
    // A loop in line 3, 30 times if and then in lines 4 to 63, the 64th bracket in line 64: its then in line 65 is the 65th.
    show_nested(rt, 1, 31, 0)?;
    // 32 loops, each in the body of the one before: the innermost has level 32.
    show_nested(rt, 32, 0, 0)?;
    // 33 loops: the innermost, in line 35, has level 33.
    show_nested(rt, 33, 0, 0)?;
    // Function 0 has 31 loops, each in the one before; the call at level 1 reaches level 32. 31 loops and a call.
    show_nested(rt, 31, 0, 1)?;
    // Function 0 has 32 loops in lines 3 to 34 and closes in line 67; the call in line 69 reaches level 33.
    show_nested(rt, 32, 0, 1)
}

fn main(rt: HostRuntime) -> io::Result<()> {
    accepted_texts(&rt)?;
    edition_texts(&rt)?;
    form_texts(&rt)?;
    range_texts(&rt)?;
    later_texts(&rt)?;
    costless_texts(&rt)?;
    long_texts(&rt)?;
    deep_texts(&rt)
}
