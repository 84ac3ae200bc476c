// Lines and patterns: whether the line at a place of a text fits a pattern, with its kind and its numbers; and the lines of a plan text, each by its
// pattern (document 01, 'A plan, one form a line').
#![tactic(auto)]

ghost use Rattle.std.specs.Prelude.{◌≡◌, true, false, ◌+◌, ◌*◌, ◌<◌, ◌≤◌, length, set, ltb};
ghost use Rattle.text.specs.Patterns.{class_of, is_upper, MatchAt};
ghost use Rattle.text.specs.Grammar.{read_at};
ghost use Rattle.text.specs.Private.{DigitIs, DigitsTo, NumberAt, StandsAt, kind_said, CapitalAt, LiteralStart, plain_line_at, block_line_at};

use model::Edition;

// The lines of the grammar. The kind K is true for p, a point, and false for s, silent; a task line with a third number, U, is one of edition 2 (document
// 02, L7). Numbers over 2^41 are held at 2^41.
#[derive(Clone, Copy, Debug, PartialEq, Eq)]
pub enum Form {
    Task(u64, u64, Edition),
    Fun,
    Then,
    Else,
    Close,
    Leaf(bool, u64, u64),
    Call(bool, u64, u64, u64),
    Loop(bool, u64, u64, u64),
    If(bool, u64, u64),
}

// What a line shows beside the numbers themselves: its kind; whether one of the numbers is over the limit; and how many there are. (A
// number: a slice of the row would keep it lent.)
#[derive(Clone, Copy, Debug, PartialEq, Eq)]
pub struct Shown {
    pub kind: bool,
    pub over: bool,
    pub count: usize,
}

// The classes of bytes.
#[derive(Clone, Copy, Debug, PartialEq, Eq)]
pub enum Class {
    Digit,
    Small,
    Space,
    OpenBracket,
    CloseBracket,
    LineFeed,
    Other,
}

// The limit of a plan's numbers: no range of document 01 goes so far.
const CAP: u64 = 1 << 41;

// The room for the numbers of a line.
const ROOM: usize = 10;

// The base of the decimal numbers.
pub const TEN: u64 = 10;

// Says which class a byte is of, by ranges of its number.
fn class_of(b: u8) -> Class
    ensures { result ≡ class_of b }
{
    match b {
        b'0'..=b'9' => Class::Digit,
        b'a'..=b'z' => Class::Small,
        b' ' => Class::Space,
        b'(' => Class::OpenBracket,
        b')' => Class::CloseBracket,
        b'\n' => Class::LineFeed,
        _ => Class::Other,
    }
}

// Says whether a value with one more digit is over the limit, without making a number over the limit.
fn exceeds(v: u64, d: u64, limit: u64) -> bool
    ensures { result ≡ ltb limit (v * 10 + d) }
{
    limit / TEN < v || limit - v * TEN < d
}

// Gives the value of a digit, and none of another byte.
fn digit(b: u8) -> Option<u64>
    ensures { DigitIs b result }
{
    match class_of(b) {
        Class::Digit => Some(u64::from(b - b'0')),
        _ => None,
    }
}

// Passes over the digits that stand from a place on.
fn digits_end(text: &[u8], at: usize) -> usize
    requires { at ≤ length text.now }
    ensures { DigitsTo text.now at result }
{
    for i in at..text.len() {
        if digit(text[i]).is_none() {
            return i;
        }
    }
    text.len()
}

// Reads the number that stands at a place, 0, or a digit that is not 0 and as many digits as follow, and gives it with the place after it; in place of a
// number over the limit it gives none.
fn number(text: &[u8], at: usize, limit: u64) -> Option<(Option<u64>, usize)>
    ensures { NumberAt limit text.now at result }
{
    let mut value = digit(*text.get(at)?)?;
    if value == 0 {
        return Some((Some(0), at + 1));
    }
    if limit < value {
        return Some((None, digits_end(text, at + 1)));
    }
    for i in at + 1..text.len() {
        let Some(d) = digit(text[i]) else {
            return Some((Some(value), i));
        };
        if exceeds(value, d, limit) {
            return Some((None, digits_end(text, i + 1)));
        }
        value = value * TEN + d;
    }
    Some((Some(value), text.len()))
}

// Stores a number at a place of the lent row, if the row has that place.
// By index: of what is written through `get_mut` a contract does not tell (tried).
fn store(row: &mut [u64], n: usize, v: u64)
    ensures { row.new ≡ set row.old n v }
{
    if n < row.len() {
        row[n] = v;
    }
}

// Gives the kind that a byte says: p a point, s silent.
fn kind_said(b: u8) -> Option<bool>
    ensures { result ≡ kind_said b }
{
    match b {
        b'p' => Some(true),
        b's' => Some(false),
        _ => None,
    }
}

// Holds the capital t of a pattern against what stands at a place: K takes a kind, any other capital a number, which is stored behind the others. Gives
// what the line has then shown, and the place after it.
fn capital(
    text: &[u8],
    at: usize,
    t: u8,
    limit: u64,
    row: &mut [u64],
    f: Shown,
) -> Option<(Shown, usize)>
    requires { (f.count < 18446744073709551615) × (is_upper t ≡ true) }
    ensures { CapitalAt limit text.now at t row.old row.new f result }
{
    if t == b'K' {
        let kind = kind_said(*text.get(at)?)?;
        return Some((Shown { kind, ..f }, at + 1));
    }
    let (value, end) = number(text, at, limit)?;
    store(row, f.count, value.unwrap_or(limit));
    let over = value.is_none() || f.over;
    Some((
        Shown {
            over,
            count: f.count + 1,
            ..f
        },
        end,
    ))
}

// Says whether the sign t of a pattern, which is no capital, stands at a place.
fn stands(text: &[u8], at: usize, t: u8) -> bool
    requires { is_upper t ≡ false }
    ensures { StandsAt text.now at t result }
{
    at < text.len() && text[at] == t && t != b'\n'
}

// Holds a pattern against the line at a place, with its line feed. Where it fits, gives what the line shows and the place after it; the numbers of the line
// then stand in the lent row in their order, each held at the limit, as many as the row has places; where it does not fit, the row may have changed.
pub fn matches(
    text: &[u8],
    at: usize,
    pattern: &[u8],
    limit: u64,
    row: &mut [u64],
) -> Option<(Shown, usize)>
    ensures { MatchAt limit text.now at pattern.now row.old row.new result }
{
    let mut f = Shown {
        kind: false,
        over: false,
        count: 0,
    };
    let mut i = at;
    for &t in pattern {
        if t.is_ascii_uppercase() {
            (f, i) = capital(text, i, t, limit, row, f)?;
        } else if stands(text, i, t) {
            i += 1;
        } else {
            return None;
        }
    }
    match class_of(*text.get(i)?) {
        Class::LineFeed => Some((f, i + 1)),
        _ => None,
    }
}

// Holds a pattern that begins with a bracket and a word against the line at a place. Their first two signs come first: they tell most lines apart.
fn matches_word(
    text: &[u8],
    at: usize,
    pattern: &[u8],
    limit: u64,
    row: &mut [u64],
) -> Option<(Shown, usize)>
    requires { LiteralStart pattern.now }
    ensures { MatchAt limit text.now at pattern.now row.old row.new result }
{
    if !stands(text, at, pattern[0]) || !stands(text, at + 1, pattern[1]) {
        return None;
    }
    matches(text, at, pattern, limit, row)
}

// Reads a line without numbers at a place. Its row has no places.
fn plain_line(text: &[u8], at: usize) -> Option<(Form, usize)>
    ensures { result ≡ plain_line_at text.now at }
{
    let mut none = [0; 0];
    if let Some((_, e)) = matches_word(text, at, b"(fun", CAP, &mut none) {
        return Some((Form::Fun, e));
    }
    if let Some((_, e)) = matches_word(text, at, b"(then", CAP, &mut none) {
        return Some((Form::Then, e));
    }
    if let Some((_, e)) = matches_word(text, at, b"(else", CAP, &mut none) {
        return Some((Form::Else, e));
    }
    let (_, e) = matches(text, at, b")", CAP, &mut none)?;
    Some((Form::Close, e))
}

// Reads the line of a leaf, with its kind and costs, or one without numbers at a place.
fn block_line(text: &[u8], at: usize) -> Option<(Form, usize)>
    ensures { result ≡ block_line_at text.now at }
{
    let mut n = [0; ROOM];
    if let Some((f, e)) = matches_word(text, at, b"(leaf K C M)", CAP, &mut n) {
        return Some((Form::Leaf(f.kind, n[0], n[1]), e));
    }
    if let Some((f, e)) = matches_word(text, at, b"(call K F C M)", CAP, &mut n) {
        return Some((Form::Call(f.kind, n[0], n[1], n[2]), e));
    }
    if let Some((f, e)) = matches_word(text, at, b"(loop K B C M", CAP, &mut n) {
        return Some((Form::Loop(f.kind, n[0], n[1], n[2]), e));
    }
    if let Some((f, e)) = matches_word(text, at, b"(if K C M", CAP, &mut n) {
        return Some((Form::If(f.kind, n[0], n[1]), e));
    }
    plain_line(text, at)
}

// Reads the line at a place: its form and where the next line begins, or that it is no line of the grammar, as past the end of the text.
pub fn line(text: &[u8], at: usize) -> Option<(Form, usize)>
    ensures { result ≡ read_at text.now at }
{
    let mut n = [0; ROOM];
    if let Some((_, e)) = matches_word(text, at, b"(task D T", CAP, &mut n) {
        return Some((Form::Task(n[0], n[1], Edition::First), e));
    }
    if let Some((_, e)) = matches_word(text, at, b"(task D T U", CAP, &mut n) {
        return Some((Form::Task(n[0], n[1], Edition::Second(n[2])), e));
    }
    block_line(text, at)
}
