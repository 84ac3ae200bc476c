// The plan reader: makes of a text a plan's records in a lent row, or refuses it by one of 1 to 7 or by 19 (document 01, 'A plan, one form a line';
// document 02, L2 and L7).
#![tactic(auto)]

ghost use Rattle.std.specs.Prelude.{◌≡◌, ◌≢◌, ◌+◌, ◌*◌, ◌<◌, ◌≤◌, length, leb};
ghost use Rattle.std.specs.Result.{result_err};
ghost use Rattle.std.proofs.lemmas.List.Edits.{sets};
ghost use Rattle.rows.specs.Leaves.{numbers};
ghost use Rattle.text.specs.Grammar.{read_at, Found};
ghost use Rattle.reader.specs.Machine.{of_leaf, refuse_unless, outcome};
ghost use Rattle.text.specs.declared.Form.TheVariants.{Task};
ghost use Rattle.reader.specs.Raw.{raw_of, row_left, Written, derived};
ghost use Rattle.reader.specs.Private.{of_bound, of_open, of_target, body_fault, body_line, AwaitedAt, of_task, first_line};
ghost use Rattle.reader.specs.Private.{heights_before, with_body, record_of, ended_raw, FormsAt, FormAt, PartsAt, TextAt};

use model::{Edition, Refusal};
use rows::{
    BOUNDS, Kind, LIMIT, Leaf, MAX_BRACKETS, MAX_COST, MAX_FUNCTIONS, MAX_LEAVES, MAX_LEVEL,
    MAX_LOOP_BOUND, MAX_RESUME, MAX_SWITCH,
};
use text::{Form, line};

// Why a text is refused, and at which line; a text that is too long, at line 0.
#[derive(Clone, Copy, Debug, PartialEq, Eq)]
pub struct RefusedAt {
    pub refusal: Refusal,
    pub line: usize,
}

// What the reader makes of a text beside the row: the plan's deadline, its switch cost, its edition, how many leaves and functions it has, the functions'
// bounds and their heights, filled up with 0: arrays as long as any plan asks, for there is no heap. That the functions are 16 at most stands in the
// contracts, not here: `raw_of` (specs/Raw) makes a `Raw` of each plan's numbers.
#[derive(Clone, Copy)]
pub struct Raw {
    pub deadline: u64,
    pub switch: u64,
    pub edition: Edition,
    pub leaves: usize,
    pub functions: usize,
    pub bounds: [u64; BOUNDS],
    pub heights: [u64; MAX_FUNCTIONS],
}

// Where a line begins: its place in the text, its number, and how many leaves were read before it.
#[derive(Clone, Copy)]
struct Spot {
    at: usize,
    line: usize,
    leaves: usize,
}

// How deep a body lies: how many brackets are open in it, and the level of its forms.
#[derive(Clone, Copy)]
struct Nesting {
    brackets: usize,
    level: u64,
}

// Forms that were read: the spot behind them, and their height.
#[derive(Clone, Copy)]
struct Closed {
    next: Spot,
    height: u64,
}

// The most bytes of a text.
const MAX_TEXT: usize = 65536;

// How many bytes of a text are read at most: one more than it may have, so that a longer one is seen to be.
pub const TEXT: usize = MAX_TEXT + 1;

// The greatest number that a call may name.
const MAX_TARGET: u64 = MAX_FUNCTIONS as u64 - 1;

// How deep the body of a function lies.
const IN_FUNCTION: Nesting = Nesting {
    brackets: 2,
    level: 1,
};

impl Spot {
    // Gives the refusal of the line that begins here.
    fn refused(self, refusal: Refusal) -> RefusedAt
        ensures { result ≡ record { refusal = refusal; line = self.line } }
    {
        RefusedAt {
            refusal,
            line: self.line,
        }
    }

    // Gives the spot behind the line that begins here and ends before the place `end`.
    fn behind(self, end: usize) -> Spot
        requires { self.line < usize.MAX }
        ensures { result ≡ record { at = end; line = self.line + 1; leaves = self.leaves } }
    {
        Spot {
            at: end,
            line: self.line + 1,
            ..self
        }
    }
}

// Tests the costs of a leaf (a point's C is 1 at least) and whether the row has room for it.
fn leaf_fault(
    point: bool,
    isolated: u64,
    max_load: u64,
    leaves: usize,
    room: usize,
) -> Result<(), Refusal>
    ensures { result_err result ≡ of_leaf room leaves point isolated max_load None }
{
    if MAX_COST < isolated || MAX_COST < max_load {
        return Err(Refusal::Range);
    }
    if room <= leaves {
        return Err(Refusal::Count);
    }
    if max_load < isolated {
        return Err(Refusal::Load);
    }
    if isolated < u64::from(point) {
        return Err(Refusal::Costless);
    }
    Ok(())
}

// Tests the level of a leaf.
fn level_fault(level: u64) -> Result<(), Refusal>
    ensures { result_err result ≡ refuse_unless (leb level 32) Refusal.Depth None }
{
    if MAX_LEVEL < level {
        return Err(Refusal::Depth);
    }
    Ok(())
}

// Tests the level of a leaf that opens a bracket, and the bracket.
fn open_fault(nesting: Nesting) -> Result<(), Refusal>
    ensures { result_err result ≡ of_open nesting.level nesting.brackets }
{
    level_fault(nesting.level)?;
    if MAX_BRACKETS <= nesting.brackets {
        return Err(Refusal::Depth);
    }
    Ok(())
}

// Tests the bound of a loop.
fn bound_fault(bound: u64) -> Result<(), Refusal>
    ensures { result_err result ≡ of_bound bound }
{
    if bound < 1 || MAX_LOOP_BOUND < bound {
        return Err(Refusal::Range);
    }
    Ok(())
}

// Tests the range of a call's target.
fn range_fault(target: u64) -> Result<(), Refusal>
    ensures { result_err result ≡ refuse_unless (leb target 15) Refusal.Range None }
{
    if MAX_TARGET < target {
        return Err(Refusal::Range);
    }
    Ok(())
}

// Tests that a call's target is one of the functions before its own, and the levels of what it calls.
fn target_fault(target: u64, level: u64, before: &Raw) -> Result<(), Refusal>
    requires { before.now.functions ≤ 16 }
    ensures { result_err result ≡ of_target level (heights_before before.now) target }
{
    if before.functions as u64 <= target {
        return Err(Refusal::Target);
    }
    level_fault(level)?;
    if MAX_LEVEL - level < before.heights[target as usize] {
        return Err(Refusal::Depth);
    }
    Ok(())
}

// Tests a line in a body for the refusals 2 to 7 and 19, in their order; its closing bracket meets none.
#[tactic(auto, unfolding(crate::specs::Machine::fault))]
fn body_fault(
    form: Form,
    before: &Raw,
    room: usize,
    nesting: Nesting,
    leaves: usize,
) -> Result<(), Refusal>
    requires { before.now.functions ≤ 16 }
    ensures { result_err result ≡ body_fault room nesting.brackets nesting.level leaves (heights_before before.now) form }
{
    match form {
        Form::Leaf(point, isolated, max_load) => {
            leaf_fault(point, isolated, max_load, leaves, room)?;
            level_fault(nesting.level)
        }
        Form::Call(point, target, isolated, max_load) => {
            range_fault(target)?;
            leaf_fault(point, isolated, max_load, leaves, room)?;
            target_fault(target, nesting.level, before)
        }
        Form::Loop(point, bound, isolated, max_load) => {
            bound_fault(bound)?;
            leaf_fault(point, isolated, max_load, leaves, room)?;
            open_fault(nesting)
        }
        Form::If(point, isolated, max_load) => {
            leaf_fault(point, isolated, max_load, leaves, room)?;
            open_fault(nesting)
        }
        Form::Close => Ok(()),
        _ => Err(Refusal::Form),
    }
}

// Reads the line at a spot in a body, which must be a leaf's that meets no refusal, or the closing bracket; gives it with the place after it.
fn body_line(
    text: &[u8],
    before: &Raw,
    room: usize,
    nesting: Nesting,
    spot: Spot,
) -> Result<(Form, usize), RefusedAt>
    requires { before.now.functions ≤ 16 }
    ensures { result ≡ body_line spot.line room nesting.brackets nesting.level spot.leaves (heights_before before.now) (read_at text.now spot.at) }
{
    let (form, end) = line(text, spot.at).ok_or(spot.refused(Refusal::Form))?;
    body_fault(form, before, room, nesting, spot.leaves).map_err(|refusal| spot.refused(refusal))?;
    Ok((form, end))
}

// Passes the line at a spot, which must be this one. Inlined, or each nested form would take more stack (docs/MEMORY.md).
#[inline]
fn awaited(text: &[u8], spot: Spot, form: Form) -> Result<Spot, RefusedAt>
    requires { (spot.line ≤ spot.at + 1) × (spot.at ≤ length text.now) }
    ensures { AwaitedAt form spot (read_at text.now spot.at) result }
{
    match line(text, spot.at) {
        Some((found, end)) if found == form => Ok(spot.behind(end)),
        _ => Err(spot.refused(Refusal::Form)),
    }
}

// Writes the record of a leaf, by its number and its line; what is derived of it stays.
fn put(row: &mut [Leaf], number: usize, form: Form, other: usize, after: usize, level: u64)
    requires { number < length row.old }
    ensures writes { numbers row.new ≡ sets (numbers row.old) (8 * number) (record_of number form other after level) }
    ensures keeps { derived row.new ≡ derived row.old }
{
    let (kind, point, isolated, max_load, detail) = match form {
        Form::Leaf(point, isolated, max_load) => (Kind::Leaf, point, isolated, max_load, 0),
        Form::Call(point, target, isolated, max_load) => {
            (Kind::Call, point, isolated, max_load, target)
        }
        Form::Loop(point, bound, isolated, max_load) => {
            (Kind::Loop, point, isolated, max_load, bound)
        }
        Form::If(point, isolated, max_load) => (Kind::If, point, isolated, max_load, 0),
        _ => return,
    };
    row[number] = Leaf {
        kind: u64::from(kind),
        point: u64::from(point),
        isolated,
        max_load,
        detail,
        other: other as u64,
        after: after as u64,
        level,
        ..row[number]
    };
}

// Reads the forms of a body from a spot on, up to the bracket that closes it, and writes their records. The plan so far has the functions before this
// one, the row has room for as many leaves as it is long, and the body lies so deep.
#[cycle(forms_if_parts_one_form)]
fn forms(
    text: &[u8],
    before: &Raw,
    nesting: Nesting,
    from: Spot,
    row: &mut [Leaf],
) -> Result<Closed, RefusedAt>
    requires { (before.now.functions ≤ 16) × (from.at ≤ length text.now) × (from.line ≤ from.at + 1) × (from.leaves ≤ length row.old) }
    ensures reads { FormsAt text.now (length row.old) (heights_before before.now) nesting from (numbers row.old) (numbers row.new) result }
    ensures keeps { derived row.new ≡ derived row.old }
{
    let mut spot = from;
    let mut height = 0;
    loop {
        let (form, end) = body_line(text, before, row.len(), nesting, spot)?;
        if form == Form::Close {
            let next = spot.behind(end);
            return Ok(Closed { next, height });
        }
        let read = one_form(text, before, nesting, spot, form, end, row)?;
        spot = read.next;
        height = height.max(read.height);
    }
}

// Reads the form whose line, a leaf's, stands at a spot and ends before the place `end`, and writes its records.
#[cycle(forms_if_parts_one_form)]
fn one_form(
    text: &[u8],
    before: &Raw,
    nesting: Nesting,
    spot: Spot,
    form: Form,
    end: usize,
    row: &mut [Leaf],
) -> Result<Closed, RefusedAt>
    requires { (before.now.functions ≤ 16) × (end ≤ length text.now) × (spot.line ≤ end) × (spot.leaves ≤ length row.old) × (form ≢ Form.Close)
        × (body_fault (length row.old) nesting.brackets nesting.level spot.leaves (heights_before before.now) form ≡ None) }
    ensures reads { FormAt text.now (length row.old) (heights_before before.now) nesting spot.line spot.leaves end form (numbers row.old) (numbers row.new) result }
    ensures keeps { derived row.new ≡ derived row.old }
{
    let behind = Spot {
        at: end,
        line: spot.line + 1,
        leaves: spot.leaves + 1,
    };
    let (other, next, height) = match form {
        Form::Leaf(..) => (0, behind, 1),
        Form::Call(_, target, ..) => (0, behind, 1 + before.heights[target as usize]),
        Form::Loop(..) => {
            let inside = Nesting {
                brackets: nesting.brackets + 1,
                level: nesting.level + 1,
            };
            let body = forms(text, before, inside, behind, row)?;
            (0, body.next, 1 + body.height)
        }
        Form::If(..) => {
            let (other, parts) = if_parts(text, before, nesting, behind, row)?;
            (other, parts.next, parts.height)
        }
        _ => unreachable!(),
    };
    put(row, spot.leaves, form, other, next.leaves, nesting.level);
    Ok(Closed { next, height })
}

// Reads the parts of an if, from the spot behind its line on: (then, its forms, (else, its forms and the bracket that closes the if. Writes their records,
// and gives the number of the first leaf of the else part, with the spot behind the if and its height.
#[cycle(forms_if_parts_one_form)]
fn if_parts(
    text: &[u8],
    before: &Raw,
    nesting: Nesting,
    spot: Spot,
    row: &mut [Leaf],
) -> Result<(usize, Closed), RefusedAt>
    requires { (before.now.functions ≤ 16) × (spot.at ≤ length text.now) × (spot.line ≤ spot.at + 1) × (spot.leaves ≤ length row.old)
        × (nesting.brackets < 64) }
    ensures reads { PartsAt text.now (length row.old) (heights_before before.now) nesting spot (numbers row.old) (numbers row.new) result }
    ensures keeps { derived row.new ≡ derived row.old }
{
    let first = awaited(text, spot, Form::Then)?;
    if MAX_BRACKETS <= nesting.brackets + 1 {
        return Err(spot.refused(Refusal::Depth));
    }
    let inside = Nesting {
        brackets: nesting.brackets + 2,
        ..nesting
    };
    let then = forms(text, before, inside, first, row)?;
    let second = awaited(text, then.next, Form::Else)?;
    let last = forms(text, before, inside, second, row)?;
    let next = awaited(text, last.next, Form::Close)?;
    let height = then.height.max(last.height).max(1);
    Ok((then.next.leaves, Closed { next, height }))
}

// Adds a function to the plan so far.
fn add(raw: &mut Raw, body: Closed)
    requires { raw.old.functions < 16 }
    ensures { raw.new ≡ with_body raw.old body }
{
    raw.leaves = body.next.leaves;
    raw.heights[raw.functions] = body.height;
    raw.functions += 1;
    raw.bounds[raw.functions] = body.next.leaves as u64;
}

// Ends the task at its closing bracket, the line at a spot, which ends before the place `end`: it must hold a function, and the text must end there.
fn ended(text: &[u8], spot: Spot, end: usize, raw: Raw) -> Result<Raw, RefusedAt>
    requires { spot.line < usize.MAX }
    ensures { result ≡ ended_raw (length text.now) end spot.line raw }
{
    if raw.functions == 0 {
        return Err(spot.refused(Refusal::Form));
    }
    if end < text.len() {
        return Err(spot.behind(end).refused(Refusal::Form));
    }
    Ok(raw)
}

// Tests the deadline, the switch cost and, in edition 2, the cost of resuming.
fn task_fault(deadline: u64, switch: u64, edition: Edition) -> Result<(), Refusal>
    ensures { result_err result ≡ of_task deadline switch edition }
{
    if deadline < 1 || LIMIT < deadline || MAX_SWITCH < switch {
        return Err(Refusal::Range);
    }
    match edition {
        Edition::Second(resume) if MAX_RESUME < resume => Err(Refusal::Range),
        _ => Ok(()),
    }
}

// Reads the first line, the task's: gives D, T and the edition, and the place after it.
fn task_line(text: &[u8]) -> Result<(u64, u64, Edition, usize), Refusal>
    ensures { result ≡ first_line (read_at text.now 0) }
{
    let Some((Form::Task(deadline, switch, edition), end)) = line(text, 0) else {
        return Err(Refusal::Form);
    };
    task_fault(deadline, switch, edition)?;
    Ok((deadline, switch, edition, end))
}

// Reads the functions of the task, which begin at the place `from`, up to the task's closing bracket, behind which the text must end.
fn functions(
    text: &[u8],
    deadline: u64,
    switch: u64,
    edition: Edition,
    from: usize,
    row: &mut [Leaf],
) -> Result<Raw, RefusedAt>
    requires { Found text.now 0 (Task deadline switch edition) from × (of_task deadline switch edition ≡ None) }
    ensures reads { TextAt text.now (length row.old) (numbers row.old) (numbers row.new) result }
    ensures keeps { derived row.new ≡ derived row.old }
{
    let mut spot = Spot {
        at: from,
        line: 2,
        leaves: 0,
    };
    let mut raw = Raw {
        deadline,
        switch,
        edition,
        leaves: 0,
        functions: 0,
        bounds: [0; BOUNDS],
        heights: [0; MAX_FUNCTIONS],
    };
    loop {
        match line(text, spot.at) {
            Some((Form::Close, end)) => return ended(text, spot, end, raw),
            Some((Form::Fun, end)) => {
                if raw.functions == MAX_FUNCTIONS {
                    return Err(spot.refused(Refusal::Count));
                }
                let body = forms(text, &raw, IN_FUNCTION, spot.behind(end), row)?;
                add(&mut raw, body);
                spot = body.next;
            }
            _ => return Err(spot.refused(Refusal::Form)),
        }
    }
}

// Reads the task.
fn whole_task(text: &[u8], row: &mut [Leaf]) -> Result<Raw, RefusedAt>
    ensures reads { TextAt text.now (length row.old) (numbers row.old) (numbers row.new) result }
    ensures keeps { derived row.new ≡ derived row.old }
{
    let (deadline, switch, edition, end) = task_line(text).map_err(|refusal| RefusedAt {
        refusal,
        line: 1,
    })?;
    functions(text, deadline, switch, edition, end, row)
}

// Reads a plan into a row, of which 512 records are used at most; what is derived of the leaves stays. A refused text leaves in the row what was read of
// it.
pub fn read_lines(text: &[u8], row: &mut [Leaf]) -> Result<Raw, RefusedAt>
    ensures answers { result ≡ raw_of (outcome (length row.old) text.now) }
    ensures writes { Written (outcome (length row.old) text.now) (numbers row.old) (numbers row.new) }
    ensures keeps { derived row.new ≡ derived row.old }
{
    if MAX_TEXT < text.len() {
        return Err(RefusedAt {
            refusal: Refusal::Oversize,
            line: 0,
        });
    }
    let n = MAX_LEAVES.min(row.len());
    whole_task(text, &mut row[..n])
}

// Reads a plan into the lent row, of which so many records may be used, 512 at most. A refused text leaves the row as it is: that takes a second row, which
// a caller of `read_lines` spares whose row is its own. It is a copy of the whole row, which has a fixed length for that, so the capacity stands beside it.
pub fn read_raw(
    text: &[u8],
    capacity: usize,
    row: &mut [Leaf; MAX_LEAVES],
) -> Result<Raw, RefusedAt>
    ensures answers { result ≡ raw_of (outcome capacity text.now) }
    ensures writes { numbers row.new ≡ row_left (outcome capacity text.now) (numbers row.old) }
    ensures keeps { derived row.new ≡ derived row.old }
{
    let mut work = *row;
    let n = MAX_LEAVES.min(capacity);
    let raw = read_lines(text, &mut work[..n])?;
    *row = work;
    Ok(raw)
}
