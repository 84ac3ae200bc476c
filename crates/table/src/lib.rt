// The table of a plan: made from a text, and checked.
#![tactic(auto)]

ghost use Rattle.std.specs.Prelude.{◌≡◌, ◌≤◌, length, take};
ghost use Rattle.model.specs.Plan.{resume_cost, Plan};
ghost use Rattle.model.specs.Acceptance.{sizes};
ghost use Rattle.reader.specs.Outcome.{Outcome};
ghost use Rattle.rows.specs.Answers.{Says};
ghost use Rattle.structure.specs.Plans.{CodeStructured};
ghost use Rattle.table.specs.Table.{edition_of, zero_head, good};
ghost use Rattle.table.specs.Lent.{table_with, row_after, AtMaxLoad};
ghost use Rattle.table.specs.Reading.{after_lines, verdict, result_of, RawOf, ColumnsWritten};
ghost use Rattle.table.specs.Private.{HeadRanged, Derives, Agrees, headed, filled};

use columns::{measure, sums_agree, tails_agree};
use model::{Edition, Refusal};
use reader::{Raw, RefusedAt, read_lines};
use rows::{
    BOUNDS, Code, Cost, LIMIT, Leaf, MAX_FUNCTIONS, MAX_LEAVES, MAX_RESUME, MAX_SWITCH, PricedCode,
};
use structure::{called, seen_all, structured};

// What stands beside the row of leaf records, numbers alone, as the C interface takes it: deadline and switch cost, the edition's number and its U (1 and 0,
// or 2 and U), the total and the max-load total, how many leaves and functions there are, the functions' bounds, and their totals, isolated and max-load.
#[repr(C)]
#[derive(Clone, Copy)]
pub struct Head {
    pub deadline: u64,
    pub switch: u64,
    pub edition: u64,
    pub resume: u64,
    pub total: u64,
    pub max_load_total: u64,
    pub leaves: usize,
    pub functions: usize,
    pub bounds: [u64; BOUNDS],
    pub totals: [u64; MAX_FUNCTIONS],
    pub max_load_totals: [u64; MAX_FUNCTIONS],
}

impl Head {
    // The edition that this head says. A number that is not 2 is read as that of edition 1; `check` refuses a head that has no edition's numbers.
    pub fn edition(&self) -> Edition
        ensures { result ≡ edition_of self.now.edition self.now.resume }
    {
        let second = Edition::Second(self.resume);
        if self.edition == u64::from(second) {
            second
        } else {
            Edition::First
        }
    }

    // The code of the table that this row and this head hold: the first leaves of the row, as many as the head says.
    pub fn code<'a>(&'a self, row: &'a [Leaf]) -> Code<'a>
        requires { self.now.leaves ≤ length row.now }
        ensures row { result.row.now ≡ take self.now.leaves row.now }
        ensures bounds { result.bounds.now ≡ self.now.bounds }
        ensures functions { result.functions ≡ self.now.functions }
    {
        Code {
            row: &row[..self.leaves],
            bounds: &self.bounds,
            functions: self.functions,
        }
    }

    // The code of this table at the max-load cost, which is what a stretch sums.
    pub fn at_max_load<'a>(&'a self, code: Code<'a>) -> PricedCode<'a>
        ensures { AtMaxLoad self.now code.entry result }
    {
        PricedCode {
            code,
            cost: Cost::MaxLoad,
            totals: &self.max_load_totals,
        }
    }
}

// A head of zeros. By hand (deriving it was tried): a derived `default` promises a zero in each field, one by one, and not this head.
impl Default for Head {
    fn default() -> Head
        ensures { result ≡ zero_head }
    {
        Head {
            deadline: 0,
            switch: 0,
            edition: 0,
            resume: 0,
            total: 0,
            max_load_total: 0,
            leaves: 0,
            functions: 0,
            bounds: [0; BOUNDS],
            totals: [0; MAX_FUNCTIONS],
            max_load_totals: [0; MAX_FUNCTIONS],
        }
    }
}

// The derived numbers of each leaf: its turn, its tail and its max-load turn. They are arrays beside the row, since a walk lends the row while it writes them.
#[derive(Clone, Copy, Default)]
pub struct Columns {
    pub turns: [u64; MAX_LEAVES],
    pub tails: [u64; MAX_LEAVES],
    pub max_load_turns: [u64; MAX_LEAVES],
}

impl Columns {
    // Writes the derived numbers of these columns into the leaves.
    fn fill(&self, row: &mut [Leaf])
        requires { length row.old ≤ 512 }
        ensures { row.new ≡ filled self.now.turns self.now.tails self.now.max_load_turns (length row.old) row.old }
    {
        for i in 0..row.len() {
            row[i] = Leaf {
                turn: self.turns[i],
                tail: self.tails[i],
                max_load_turn: self.max_load_turns[i],
                ..row[i]
            };
        }
    }
}

// The derived numbers beside the columns: both totals, and the functions' totals at both costs.
#[derive(Clone, Copy)]
struct Derived {
    total: u64,
    max_load_total: u64,
    totals: [u64; MAX_FUNCTIONS],
    max_load_totals: [u64; MAX_FUNCTIONS],
}

// The derived numbers of a code that keeps rules 3 to 9 and 19, or none where it breaks rule 10; the columns are written.
fn derive_all(code: &Code, columns: &mut Columns) -> Option<Derived>
    requires structured { CodeStructured code.now }
    requires all_bounds { length code.now.bounds.now ≡ 17 }
    ensures { (p : Plan) (q : CodeStructured code.now) → p.functions ≡ q.plan.functions
        → Derives p result columns.new.turns columns.new.tails columns.new.max_load_turns }
{
    let Columns {
        turns,
        tails,
        max_load_turns,
    } = columns;
    let totals = measure(code, Cost::Isolated, turns);
    let max_load_totals = measure(code, Cost::MaxLoad, max_load_turns);
    let total = totals[code.functions - 1];
    let max_load_total = max_load_totals[code.functions - 1];
    if LIMIT < total || LIMIT < max_load_total {
        return None;
    }
    columns::tails(code, &totals, turns, tails);
    Some(Derived {
        total,
        max_load_total,
        totals,
        max_load_totals,
    })
}

// Whether both totals stand in the head. Two comparisons: to compare whole records, two would be made for this alone.
fn stands(head: &Head, total: u64, max_load_total: u64) -> bool
    ensures { Says result ((head.now.total ≡ total) × (head.now.max_load_total ≡ max_load_total)) }
{
    head.total == total && head.max_load_total == max_load_total
}

// U of an edition; 0 in the first.
fn resume_cost(edition: Edition) -> u64
    ensures { result ≡ resume_cost edition }
{
    match edition {
        Edition::First => 0,
        Edition::Second(cost) => cost,
    }
}

// Whether deadline, switch cost and U are in range, number and U are those of an edition, and a lent row of so many leaves holds those of the plan.
fn ranged(head: &Head, room: usize) -> bool
    ensures { Says result (HeadRanged room head.now) }
{
    let edition = head.edition();
    1 <= head.deadline
        && head.deadline <= LIMIT
        && head.switch <= MAX_SWITCH
        && head.resume <= MAX_RESUME
        && head.edition == u64::from(edition)
        && head.resume == resume_cost(edition)
        && head.leaves <= MAX_LEAVES
        && head.leaves <= room
}

// Whether leaves and head have the derived numbers of a code that keeps rules 3 to 9 and 19. All are checked where they stand.
fn agrees(code: &Code, head: &Head) -> bool
    requires structured { CodeStructured code.now }
    requires all_bounds { length code.now.bounds.now ≡ 17 }
    ensures { (p : Plan) (q : CodeStructured code.now) → p.functions ≡ q.plan.functions
        → sizes p.functions ≡ head.now.leaves → Says result (Agrees p code.now.row.now head.now) }
{
    let last = code.functions - 1;
    let priced = head.at_max_load(*code);
    tails_agree(code, &head.totals)
        && sums_agree(&priced)
        && stands(head, head.totals[last], head.max_load_totals[last])
}

// Whether the first leaves of the row, as many as the head says, are with the head the table of an accepted plan.
pub fn check(row: &[Leaf], head: &Head) -> bool
    ensures { result ≡ good (table_with row.now head.now) }
{
    if !ranged(head, row.len()) {
        return false;
    }
    let code = head.code(row);
    structured(&code).is_ok()
        && head.bounds[head.functions] as usize == head.leaves
        && agrees(&code, head)
}

// A refusal of the plan as a whole, at line 0.
fn refused(refusal: Refusal) -> RefusedAt
    ensures { result ≡ record { refusal = refusal; line = 0 } }
{
    RefusedAt { refusal, line: 0 }
}

// The head of an accepted plan, from what was read and what was derived.
fn head_from(raw: &Raw, d: &Derived) -> Head
    ensures { result ≡ headed raw.now d.now }
{
    Head {
        deadline: raw.deadline,
        switch: raw.switch,
        edition: u64::from(raw.edition),
        resume: resume_cost(raw.edition),
        total: d.total,
        max_load_total: d.max_load_total,
        leaves: raw.leaves,
        functions: raw.functions,
        bounds: raw.bounds,
        totals: d.totals,
        max_load_totals: d.max_load_totals,
    }
}

// What to say of a text whose lines gave these raw numbers and this row, or this refusal, which stands: rules 8 to 10. The columns are written; of a refused
// text nothing is said of them.
pub fn judge(
    lines: &Result<Raw, RefusedAt>,
    row: &[Leaf],
    columns: &mut Columns,
) -> Result<Head, RefusedAt>
    requires { (o : Outcome) × RawOf o lines.now row.now }
    ensures value { (o : Outcome) → RawOf o lines.now row.now → result ≡ result_of (after_lines o) }
    ensures columns_written { (o : Outcome) → RawOf o lines.now row.now
        → ColumnsWritten (after_lines o) columns.new.turns columns.new.tails columns.new.max_load_turns }
{
    let raw = match lines {
        Ok(raw) => raw,
        Err(refused) => return Err(*refused),
    };
    let code = Code {
        row: &row[..raw.leaves],
        bounds: &raw.bounds,
        functions: raw.functions,
    };
    if !seen_all(&code) {
        return Err(refused(Refusal::Unseen));
    }
    if !called(&code) {
        return Err(refused(Refusal::Uncalled));
    }
    let derived = derive_all(&code, columns).ok_or(refused(Refusal::Long))?;
    Ok(head_from(raw, &derived))
}

// Reads a plan: its leaves go to the beginning of the lent row, of which at most 512 are used, and its head is given; records past its last leaf keep their
// values. Or it is refused, at a line, and the row is as it was.
pub fn read(text: &[u8], row: &mut [Leaf]) -> Result<Head, RefusedAt>
    ensures answers { result ≡ result_of (verdict (length row.old) text.now) }
    ensures row { row.new ≡ row_after (verdict (length row.old) text.now) row.old }
{
    let mut own = [Leaf::default(); MAX_LEAVES];
    let mut columns = Columns::default();
    let room = MAX_LEAVES.min(row.len());
    let lines = read_lines(text, &mut own[..room]);
    let head = judge(&lines, &own, &mut columns)?;
    let leaves = &mut own[..head.leaves];
    columns.fill(leaves);
    row[..head.leaves].copy_from_slice(leaves);
    Ok(head)
}
