// The lines that the programs print (document 01, 'Calls' and 'Plans worked through'; document 02, L1 and L9), each at a place of a lent buffer, as far as it
// has room.
// A buffer and a place go in and the next place comes out, with no struct of both: callers carry the place on, and each line would make and undo it.
// No `Display`: what is written is cut at the end of a lent buffer, and a writer that cuts would be this crate again, with `write!` around it.
#![tactic(auto)]

ghost use Rattle.std.specs.Prelude.{◌≡◌, [], ◌∷◌, ◌+◌, ◌*◌, ◌<◌, length};
ghost use Rattle.text.specs.Spelling.{decimal};
ghost use Rattle.print.specs.Printed.{Printed, PrintedWithin};
ghost use Rattle.print.specs.Lines.{number_field, signed_field, late_mark, word_text, ending_text, number_fields};
ghost use Rattle.print.specs.Lines.{numbers_line, plain_line, refused_plan_line, ticks_line, answer_line};

use model::{Answer, Ending, Word};
use text::TEN;

// How many bytes a buffer for one line has: more than that of a refused plan, an answer or the ticks of a release.
pub const SIZE: usize = 128;

// Writes one byte at a place, if there is room, and gives the place after it.
fn put_byte(out: &mut [u8], at: usize, b: u8) -> usize
    ensures { Printed out.old at (b ∷ []) out.new result }
{
    if at >= out.len() {
        return at;
    }
    out[at] = b;
    at + 1
}

// The longest text that is written byte by byte: to copy a slice costs more than that.
const SHORT: usize = 8;

// Writes a text at a place, as far as there is room, and gives the place after it. What is written is short, mostly one blank.
pub fn put_bytes(out: &mut [u8], at: usize, text: &[u8]) -> usize
    ensures { Printed out.old at text.now out.new result }
{
    if text.len() <= SHORT {
        let mut end = at;
        for b in text {
            end = put_byte(out, end, *b);
        }
        return end;
    }
    let start = at.min(out.len());
    let count = text.len().min(out.len() - start);
    out[start..start + count].copy_from_slice(&text[..count]);
    at + count
}

// Writes a number in decimal at a place, the digits of its tenth, then its last digit, and gives the place after it.
pub fn put_number(out: &mut [u8], at: usize, n: u64) -> usize
    ensures { Printed out.old at (decimal n) out.new result }
{
    let last = if n < TEN {
        at
    } else {
        put_number(out, at, n / TEN)
    };
    put_byte(out, last, (n % TEN) as u8 + b'0')
}

// Writes a further field of a line, a number.
fn put_field(out: &mut [u8], at: usize, n: u64) -> usize
    ensures { PrintedWithin 21 out.old at (number_field n) out.new result }
{
    let first = put_byte(out, at, b' ');
    put_number(out, first, n)
}

// Writes a further field of a line, a signed number.
fn put_signed(out: &mut [u8], at: usize, z: i64) -> usize
    ensures { PrintedWithin 22 out.old at (signed_field z) out.new result }
{
    let first = if z < 0 {
        put_bytes(out, at, b" -")
    } else {
        put_byte(out, at, b' ')
    };
    put_number(out, first, z.unsigned_abs())
}

// Gives the late mark, with the line feed that ends its line.
#[tactic(auto, unfolding(crate::specs::Lines::late_mark))]
fn late_mark(late: bool) -> &'static [u8]
    ensures { result.now ≡ late_mark late }
{
    if late { b" 1\n" } else { b" 0\n" }
}

// Gives the word of a decision.
#[tactic(auto, unfolding(crate::specs::Lines::word_text))]
fn word_text(word: Word) -> &'static [u8]
    ensures { result.now ≡ word_text word }
{
    match word {
        Word::Go => b"go",
        Word::Suspend => b"suspend",
        Word::Stay => b"stay",
        Word::Resume => b"resume",
    }
}

// Gives the word of an end.
#[tactic(auto, unfolding(crate::specs::Lines::ending_text))]
fn ending_text(ending: Ending) -> &'static [u8]
    ensures { result.now ≡ ending_text ending }
{
    match ending {
        Ending::Resumed => b"resume",
        Ending::Ended => b"ended",
    }
}

// Writes numbers, each as a further field of a line.
fn put_fields(out: &mut [u8], at: usize, numbers: &[u64]) -> usize
    ensures { PrintedWithin (length numbers.now * 21) out.old at (number_fields numbers.now) out.new result }
{
    let mut end = at;
    for n in numbers {
        end = put_field(out, end, *n);
    }
    end
}

// Writes a line at a place, a word and numbers behind it, and gives the place after it.
pub fn numbers_line(out: &mut [u8], at: usize, word: &[u8], numbers: &[u64]) -> usize
    ensures { PrintedWithin (length word.now + (length numbers.now * 21 + 1)) out.old at
        (numbers_line word.now numbers.now) out.new result }
{
    let first = put_bytes(out, at, word);
    let end = put_fields(out, first, numbers);
    put_byte(out, end, b'\n')
}

// Writes the line of a refused plan at a place, and gives the place after it.
pub fn refused_plan_line(out: &mut [u8], at: usize, number: u64, line: u64) -> usize
    ensures { PrintedWithin 128 out.old at (refused_plan_line number line) out.new result }
{
    numbers_line(out, at, b"refused", &[number, line])
}

// Writes a line of numbers alone at a place, and gives the place after it.
pub fn plain_line(out: &mut [u8], at: usize, first: u64, others: &[u64]) -> usize
    ensures { PrintedWithin (20 + (length others.now * 21 + 1)) out.old at (plain_line first others.now) out.new result }
{
    let start = put_number(out, at, first);
    let end = put_fields(out, start, others);
    put_byte(out, end, b'\n')
}

// Writes the ticks of a release at a place: shared, suspended and their sum; and gives the place after them.
pub fn ticks_line(out: &mut [u8], at: usize, shared: u64, suspended: u64, sum: u64) -> usize
    ensures { PrintedWithin 63 out.old at (ticks_line shared suspended sum) out.new result }
{
    plain_line(out, at, shared, &[suspended, sum])
}

// Writes the line of an answer at a place, and gives the place after it.
pub fn answer_line(out: &mut [u8], at: usize, answer: Answer) -> usize
    ensures { PrintedWithin 53 out.old at (answer_line answer) out.new result }
{
    match answer {
        Answer::Refused(refusal) => numbers_line(out, at, b"refused", &[u64::from(refusal)]),
        Answer::Decided(word, remaining, margin, late) => {
            let first = put_bytes(out, at, word_text(word));
            let second = put_field(out, first, remaining);
            let third = put_signed(out, second, margin);
            put_bytes(out, third, late_mark(late))
        }
        Answer::Closed(ending, late) => {
            let first = put_bytes(out, at, ending_text(ending));
            put_bytes(out, first, late_mark(late))
        }
    }
}
