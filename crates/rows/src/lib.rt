// A plan's forms as a row of leaf records, one for each leaf in text order: its fields, its kinds and its limits, for every crate.
#![tactic(auto)]

ghost use Rattle.std.specs.Prelude.{◌≡◌, length, get_or};
ghost use Prim.Native.Nat.{ℕ, ◌+◌, ◌<◌};
ghost use Rattle.rows.specs.Rows.{kind_at, point_at, isolated_at, max_load_at, detail_at, other_at, after_at, level_at, block_at};
ghost use Rattle.rows.specs.Kinds.{IsKind, KindOfNumber, NumberOfKind};
ghost use Rattle.rows.specs.Leaves.{numbers, lent_turns, lent_tails, lent_max_load_turns};
ghost use Rattle.rows.specs.Costs.{cost_in, lent_turns_in};
ghost use Rattle.rows.specs.Answers.{Says};

use std::ops::Range;

// A leaf's record, numbers alone, as the C interface takes it. Read from the plan: kind (0 leaf, 1 call, 2 loop, 3 if), point (1 or 0), costs alone and under
// load, bound of a loop or target of a call, first leaf of an if's else part, first leaf after the form, level in its own function. Derived: turn, tail,
// max-load turn.
#[repr(C)]
#[derive(Clone, Copy, Default)]
pub struct Leaf {
    pub kind: u64,
    pub point: u64,
    pub isolated: u64,
    pub max_load: u64,
    pub detail: u64,
    pub other: u64,
    pub after: u64,
    pub level: u64,
    pub turn: u64,
    pub tail: u64,
    pub max_load_turn: u64,
}

// A plan's code in lent memory: its row of leaf records, the bounds of its functions (the first leaf of each, and behind them the number of leaves), and
// how many functions there are. That there are more bounds than functions stands in each contract and in no ghost field here: a
// code is also made of any head, whatever number of functions it says (table: `Head::code`).
#[derive(Clone, Copy)]
pub struct Code<'a> {
    pub row: &'a [Leaf],
    pub bounds: &'a [u64],
    pub functions: usize,
}

impl Code<'_> {
    // The records of the function f.
    pub fn function(&self, f: usize) -> Range<usize>
        requires { f + 1 < length self.now.bounds.now }
        ensures { (result.start ≡ get_or self.now.bounds.now f 0) × (result.end ≡ get_or self.now.bounds.now (f + 1) 0) }
    {
        self.bounds[f] as usize..self.bounds[f + 1] as usize
    }
}

// The kind of a form.
#[derive(Clone, Copy, Debug, PartialEq, Eq)]
pub enum Kind {
    Leaf,
    Call,
    Loop,
    If,
}

// A number that stands for no kind.
#[derive(Clone, Copy, Debug, PartialEq, Eq)]
pub struct UnknownKind(pub u64);

// The kind that a number stands for in a record.
impl TryFrom<u64> for Kind {
    type Error = UnknownKind;

    ghost try_from_gives = { KindOfNumber };

    fn try_from(number: u64) -> Result<Self, UnknownKind> {
        match number {
            0 => Ok(Kind::Leaf),
            1 => Ok(Kind::Call),
            2 => Ok(Kind::Loop),
            3 => Ok(Kind::If),
            _ => Err(UnknownKind(number)),
        }
    }
}

// The number that stands for a kind in a record.
impl From<Kind> for u64 {
    ghost from_gives = { NumberOfKind };

    fn from(kind: Kind) -> Self {
        match kind {
            Kind::Leaf => 0,
            Kind::Call => 1,
            Kind::Loop => 2,
            Kind::If => 3,
        }
    }
}

// The most leaves of a plan,
pub const MAX_LEAVES: usize = 512;

// and its most functions.
pub const MAX_FUNCTIONS: usize = 16;

// The bounds of functions: the first leaf of each, and one for the number of leaves.
pub const BOUNDS: usize = MAX_FUNCTIONS + 1;

// The most brackets that may be open,
pub const MAX_BRACKETS: usize = 64;

// and those of them inside a function.
pub const INNER_BRACKETS: usize = MAX_BRACKETS - 2;

// The highest level.
pub const MAX_LEVEL: u64 = 32;

// The highest cost, isolated or max-load.
pub const MAX_COST: u64 = 1 << 20;

// The highest bound of a loop.
pub const MAX_LOOP_BOUND: u64 = 65535;

// The highest T.
pub const MAX_SWITCH: u64 = 1 << 20;

// The highest U.
pub const MAX_RESUME: u64 = 1 << 20;

// The highest D, and the highest total of an accepted plan.
pub const LIMIT: u64 = 1 << 40;

// Sums are held here, so that none wraps.
pub const CEILING: u64 = 1 << 41;

// What a leaf's record says, by its row and its index and not as methods of a leaf: so a contract names the field of that row which it reads, and asks that the
// row has it. Contracts speak of a row as `numbers row.now`: the eight numbers of each leaf, one leaf after the other (specs/Leaves, specs/Rows).

// The kind of the form at i, or none where its number is that of no kind.
pub fn kind_of(row: &[Leaf], i: usize) -> Option<Kind>
    requires { i < length row.now }
    ensures { IsKind result (kind_at (numbers row.now) i) }
{
    Kind::try_from(row[i].kind).ok()
}

// 1 where the leaf i is a point, 0 where it is silent.
pub fn point(row: &[Leaf], i: usize) -> u64
    requires { i < length row.now }
    ensures { result ≡ point_at (numbers row.now) i }
{
    row[i].point
}

// Its isolated cost.
pub fn isolated(row: &[Leaf], i: usize) -> u64
    requires { i < length row.now }
    ensures { result ≡ isolated_at (numbers row.now) i }
{
    row[i].isolated
}

// Its max-load cost.
pub fn max_load(row: &[Leaf], i: usize) -> u64
    requires { i < length row.now }
    ensures { result ≡ max_load_at (numbers row.now) i }
{
    row[i].max_load
}

// The bound of a loop or the function that a call names, else 0.
pub fn detail(row: &[Leaf], i: usize) -> u64
    requires { i < length row.now }
    ensures { result ≡ detail_at (numbers row.now) i }
{
    row[i].detail
}

// The function that a call names, as an index.
pub fn target(row: &[Leaf], i: usize) -> usize
    requires { i < length row.now }
    ensures { result ≡ detail_at (numbers row.now) i }
{
    detail(row, i) as usize
}

// The first leaf of the else part of an if, else 0.
pub fn other(row: &[Leaf], i: usize) -> usize
    requires { i < length row.now }
    ensures { result ≡ other_at (numbers row.now) i }
{
    row[i].other as usize
}

// The first leaf after the form, as its record has it.
pub fn after(row: &[Leaf], i: usize) -> usize
    requires { i < length row.now }
    ensures { result ≡ after_at (numbers row.now) i }
{
    row[i].after as usize
}

// The same where a leaf or call is known to end where it begins: a walk need not wait for the record to tell it where to go on.
pub fn next(row: &[Leaf], i: usize) -> usize
    requires { (i < length row.now) × (kind_at (numbers row.now) i < 2 → after_at (numbers row.now) i ≡ i + 1) }
    ensures { result ≡ after_at (numbers row.now) i }
{
    if row[i].kind < u64::from(Kind::Loop) {
        i + 1
    } else {
        after(row, i)
    }
}

// The level of the leaf i in its own function.
pub fn level(row: &[Leaf], i: usize) -> u64
    requires { i < length row.now }
    ensures { result ≡ level_at (numbers row.now) i }
{
    row[i].level
}

// Its turn, as it is lent.
pub fn turn(row: &[Leaf], i: usize) -> u64
    requires { i < length row.now }
    ensures { result ≡ get_or (lent_turns row.now) i 0 }
{
    row[i].turn
}

// Its tail, as it is lent.
pub fn tail(row: &[Leaf], i: usize) -> u64
    requires { i < length row.now }
    ensures { result ≡ get_or (lent_tails row.now) i 0 }
{
    row[i].tail
}

// Its turn at max-load costs, as it is lent.
pub fn max_load_turn(row: &[Leaf], i: usize) -> u64
    requires { i < length row.now }
    ensures { result ≡ get_or (lent_max_load_turns row.now) i 0 }
{
    row[i].max_load_turn
}

// The cost of a visit that counts: alone, or under load.
#[derive(Clone, Copy, Debug, PartialEq, Eq)]
pub enum Cost {
    Isolated,
    MaxLoad,
}

impl Cost {
    // This cost of the leaf i.
    pub fn of(self, row: &[Leaf], i: usize) -> u64
        requires { i < length row.now }
        ensures { result ≡ cost_in self (block_at (numbers row.now) i) }
    {
        match self {
            Cost::Isolated => isolated(row, i),
            Cost::MaxLoad => max_load(row, i),
        }
    }

    // Its turn at this cost, as it is lent.
    pub fn turn(self, row: &[Leaf], i: usize) -> u64
        requires { i < length row.now }
        ensures { result ≡ get_or (lent_turns_in self row.now) i 0 }
    {
        match self {
            Cost::Isolated => turn(row, i),
            Cost::MaxLoad => max_load_turn(row, i),
        }
    }
}

// A code with the cost of a visit that counts, and the totals of its functions at that cost beside it; the sums of its loops' rounds stand in the leaves.
#[derive(Clone, Copy)]
pub struct PricedCode<'a> {
    pub code: Code<'a>,
    pub cost: Cost,
    pub totals: &'a [u64; MAX_FUNCTIONS],
}

// Whether all the entries are 0. (All of them in one number, which takes no branch at each: calls look at the unused ends of arrays.)
pub fn all_zero(entries: &[u64]) -> bool
    ensures { Says result ((k : ℕ) → get_or entries.now k 0 ≡ 0) }
{
    entries.iter().fold(0, |any, entry| any | entry) == 0
}
