// The derived columns of a plan's table: the sum of one round of each loop, and the tails. Each leaf is looked at a fixed number of times,
// whatever the nesting: sums are noted once for each loop, and siblings are walked from the last to the first, with what follows them at hand.
// Lent totals, turns and tails are tested where they stand, from the first leaf to the last.
#![tactic(auto)]

ghost use Rattle.std.specs.Prelude.{◌≡◌, length, get_or};
ghost use Prim.Native.Nat.{ℕ, ◌+◌, ◌-◌, ◌*◌, ◌≤◌, ◌<◌};
ghost use Rattle.std.proofs.lemmas.List.Edits.{sets};
ghost use Rattle.model.specs.Plan.{C};
ghost use Rattle.model.specs.Total.{tally};
ghost use Rattle.rows.specs.Rows.{kind_at, isolated_at, detail_at};
ghost use Rattle.rows.specs.Leaves.{numbers, lent_turns, lent_tails};
ghost use Rattle.rows.specs.Costs.{limit, cost_in, lent_turns_in};
ghost use Rattle.rows.specs.Kinds.{IsKind};
ghost use Rattle.rows.specs.Answers.{Says};
ghost use Rattle.rows.specs.Plans.{CodePlan, lines_of};
ghost use Rattle.columns.specs.Sums.{ceiling, cap, lead};
ghost use Rattle.columns.specs.Walks.{front, FormsHeld, FormHeld, Kept, Listed};
ghost use Rattle.columns.specs.Private.{Under, WalkSized, WalkReady, DerivedIn, FirstIn, Begins, LoopFits, IfFits, FunctionAnswer};
ghost use Rattle.columns.specs.Private.{TotalIn, FirstTotalIn, SumAnswer};
ghost use Rattle.columns.specs.Columns.{column_of, turn_rule, turns, tail_rule};
ghost use Rattle.columns.specs.Whole.{Measured, tails_written, CodeSummed};
ghost use Rattle.columns.specs.Local.{AllSummed, AllDerived};

use rows::{
    CEILING, Code, Cost, Kind, LIMIT, Leaf, MAX_FUNCTIONS, MAX_LEAVES, PricedCode, kind_of,
};

// The kind of the form at i.
pub fn form_kind(row: &[Leaf], i: usize) -> Kind
    requires { FormHeld row.now i }
    ensures { IsKind (Some result) (kind_at (numbers row.now) i) }
{
    kind_of(row, i).unwrap()
}

// The function that the call at i names.
pub fn callee(row: &[Leaf], i: usize) -> usize
    requires call { kind_at (numbers row.now) i ≡ 1 }
    requires form { FormHeld row.now i }
    ensures { (result ≡ detail_at (numbers row.now) i) × (result < 16) }
{
    rows::target(row, i)
}

// A loop: its condition, then body and condition b times, held at the ceiling.
fn looped(c: u64, b: u64, body: u64) -> u64
    requires { (c ≤ 1048576) × (b ≤ 65535) × (body ≤ ceiling) }
    ensures { result ≡ cap (c + b * (body + c)) }
{
    (c + b * (body + c)).min(CEILING)
}

// The total of the form at i, held at the ceiling. Writes the sums of the rounds of its loops.
// It goes by no `Walk`: the sums of rounds, which a walk only reads, are written here.
#[cycle(sum_block_sum_form)]
fn sum_form(
    row: &[Leaf],
    cost: Cost,
    i: usize,
    sums: &[u64; MAX_FUNCTIONS],
    turn: &mut [u64; MAX_LEAVES],
) -> u64
    requires under { Under ceiling sums.now }
    requires form { FormHeld row.now i }
    ensures upper_bound { result ≤ ceiling }
    ensures value { (p : FormHeld row.now i) → result ≡ cap (lead (cost_in cost) sums.now p.part.lines) }
    ensures turn_after { (p : FormHeld row.now i)
        → turn.new ≡ sets turn.old i (front (turn_rule (cost_in cost) sums.now) p.part.lines 0) }
{
    let c = cost.of(row, i);
    turn[i] = 0;
    match form_kind(row, i) {
        Kind::Loop => {
            let after = rows::after(row, i);
            let body = sum_block(row, cost, i + 1, after, sums, turn);
            turn[i] = c + body;
            looped(c, rows::detail(row, i), body)
        }
        Kind::If => {
            let after = rows::after(row, i);
            let other = rows::other(row, i);
            let a = sum_block(row, cost, i + 1, other, sums, turn);
            let b = sum_block(row, cost, other, after, sums, turn);
            (c + a.max(b)).min(CEILING)
        }
        Kind::Call => (c + sums[callee(row, i)]).min(CEILING),
        Kind::Leaf => c,
    }
}

// The total of the forms from `from` up to `to`, held at the ceiling. Writes the sums of the rounds of their loops.
#[cycle(sum_block_sum_form)]
fn sum_block(
    row: &[Leaf],
    cost: Cost,
    from: usize,
    to: usize,
    sums: &[u64; MAX_FUNCTIONS],
    turn: &mut [u64; MAX_LEAVES],
) -> u64
    requires under { Under ceiling sums.now }
    requires forms { FormsHeld row.now from to }
    ensures upper_bound { result ≤ ceiling }
    ensures value { (p : FormsHeld row.now from to) → result ≡ cap (tally (cost_in cost) sums.now p.part.lines) }
    ensures turn_after { (p : FormsHeld row.now from to)
        → turn.new ≡ sets turn.old from (turns (cost_in cost) sums.now p.part.lines) }
{
    let mut acc: u64 = 0;
    let mut i = from;
    // A `while`: each form says where the next one begins, so no range has these steps.
    while i < to {
        let x = sum_form(row, cost, i, sums, turn);
        acc = (acc + x).min(CEILING);
        i = rows::next(row, i);
    }
    acc
}

// Lists the first leaf of each form from `from` up to `to`, in text order, from seq[from] on, and returns how many there are.
pub fn list(row: &[Leaf], from: usize, to: usize, seq: &mut [usize; MAX_LEAVES]) -> usize
    requires { FormsHeld row.now from to }
    ensures listed { Listed (numbers row.now) from to result seq.new }
    ensures kept { Kept from seq.old seq.new }
{
    let mut n: usize = 0;
    let mut i = from;
    // A `while`: each form says where the next one begins, so no range has these steps.
    while i < to {
        seq[from + n] = i;
        n += 1;
        i = rows::next(row, i);
    }
    n
}

// What a walk goes by and never changes: the code, the functions' isolated totals, and the sums of the loops' rounds.
// The sums of rounds and the tails are arrays beside the row: a walk reads the row, which is lent, while it writes them.
#[derive(Clone, Copy)]
struct Walk<'a> {
    code: Code<'a>,
    sums: &'a [u64; MAX_FUNCTIONS],
    turn: &'a [u64; MAX_LEAVES],
}

// The isolated total of the leaf, call or loop at i.
fn weight(walk: &Walk, i: usize) -> u64
    requires kind { kind_at (numbers walk.now.code.row.now) i < 3 }
    requires ready { WalkReady walk.now i 0 }
    ensures { (p : WalkReady walk.now i 0) → result ≡ lead C walk.now.sums.now p.form.part.lines }
{
    let row = walk.code.row;
    let c = rows::isolated(row, i);
    match form_kind(row, i) {
        Kind::Call => c + walk.sums[callee(row, i)],
        Kind::Loop => c + rows::detail(row, i) * walk.turn[i],
        _ => c,
    }
}

// Writes the tail of each leaf of the form at i, where e follows the form; returns the tail of i.
#[cycle(tail_block_tail_form)]
fn tail_form(
    walk: &Walk,
    i: usize,
    e: u64,
    seq: &mut [usize; MAX_LEAVES],
    out: &mut [u64; MAX_LEAVES],
) -> u64
    requires ready { WalkReady walk.now i e }
    ensures value { (p : WalkReady walk.now i e)
        → result ≡ lead C walk.now.sums.now p.form.part.lines + e }
    ensures out_after { (p : WalkReady walk.now i e)
        → out.new ≡ sets out.old i (front (tail_rule walk.now.sums.now) p.form.part.lines e) }
    ensures kept { Kept (i + 1) seq.old seq.new }
{
    let row = walk.code.row;
    let kind = form_kind(row, i);
    if let Kind::If = kind {
        let after = rows::after(row, i);
        let other = rows::other(row, i);
        let a = tail_block(walk, i + 1, other, e, seq, out);
        let b = tail_block(walk, other, after, e, seq, out);
        let t = rows::isolated(row, i) + a.max(b);
        out[i] = t;
        return t;
    }
    let t = weight(walk, i) + e;
    out[i] = t;
    if let Kind::Loop = kind {
        let after = rows::after(row, i);
        tail_block(walk, i + 1, after, t - walk.turn[i], seq, out);
    }
    t
}

// Writes the tail of each leaf from `from` up to `to`, where e follows in their function; returns the tail at their start.
#[cycle(tail_block_tail_form)]
fn tail_block(
    walk: &Walk,
    from: usize,
    to: usize,
    e: u64,
    seq: &mut [usize; MAX_LEAVES],
    out: &mut [u64; MAX_LEAVES],
) -> u64
    requires sized { WalkSized walk.now from to e }
    ensures value { (p : WalkSized walk.now from to e)
        → result ≡ tally C walk.now.sums.now p.forms.part.lines + e }
    ensures out_after { (p : WalkSized walk.now from to e)
        → out.new ≡ sets out.old from (column_of (tail_rule walk.now.sums.now) p.forms.part.lines e) }
    ensures kept { Kept from seq.old seq.new }
{
    let n = list(walk.code.row, from, to, seq);
    let mut t = e;
    for k in (0..n).rev() {
        t = tail_form(walk, seq[from + k], t, seq, out);
    }
    t
}

// The totals of the functions at one cost, each held at the ceiling, and 0 behind the last. Writes the sums of the rounds of their loops.
pub fn measure(code: &Code, cost: Cost, turn: &mut [u64; MAX_LEAVES]) -> [u64; MAX_FUNCTIONS]
    requires n_in_bounds { code.now.functions < length code.now.bounds.now }
    requires plan_of { CodePlan code.now }
    ensures measured { (v : CodePlan code.now)
        → Measured (cost_in cost) (lines_of v) code.now.bounds.now code.now.functions result turn.new }
    ensures by_index { ((f : ℕ) → code.now.functions ≤ f → get_or result f 0 ≡ 0) × (length turn.new ≡ 512) }
{
    let mut totals: [u64; MAX_FUNCTIONS] = [0; MAX_FUNCTIONS];
    for f in 0..code.functions {
        let leaves = code.function(f);
        totals[f] = sum_block(code.row, cost, leaves.start, leaves.end, &totals, turn);
    }
    totals
}

// Writes the tail of every leaf of the functions. Given are their isolated totals and the sums of their loops' rounds.
pub fn tails(
    code: &Code,
    sums: &[u64; MAX_FUNCTIONS],
    turn: &[u64; MAX_LEAVES],
    tail: &mut [u64; MAX_LEAVES],
)
    requires n_in_bounds { code.now.functions < length code.now.bounds.now }
    requires summed { CodeSummed C code.now sums.now turn.now }
    ensures { (v : CodeSummed C code.now sums.now turn.now)
        → tail.new ≡ tails_written sums.now (lines_of v.plan) code.now.bounds.now code.now.functions tail.old }
{
    let walk = Walk {
        code: *code,
        sums,
        turn,
    };
    let mut seq: [usize; MAX_LEAVES] = [0; MAX_LEAVES];
    for f in 0..code.functions {
        let leaves = code.function(f);
        tail_block(&walk, leaves.start, leaves.end, 0, &mut seq, tail);
    }
}

// What is lent to be checked: the code, in whose leaves the sums of the loops' rounds and the tails stand, and the functions' isolated totals.
#[derive(Clone, Copy)]
struct Lent<'a> {
    code: Code<'a>,
    sums: &'a [u64; MAX_FUNCTIONS],
}

// The tail at the start of the forms from `from` up to `to`, which e follows.
fn start(row: &[Leaf], from: usize, to: usize, e: u64) -> u64
    requires { to ≤ length row.now }
    ensures { Begins (lent_tails row.now) from to e result }
{
    if from < to { rows::tail(row, from) } else { e }
}

// Whether d is the total of the leaf or call at i.
fn flat_fits(lent: &Lent, i: usize, d: u64) -> bool
    requires kind { kind_at (numbers lent.now.code.row.now) i < 2 }
    requires form { FormHeld lent.now.code.row.now i }
    ensures { (p : FormHeld lent.now.code.row.now i) → Says result (d ≡ lead C lent.now.sums.now p.part.lines) }
{
    let c = rows::isolated(lent.code.row, i);
    match form_kind(lent.code.row, i) {
        Kind::Call => {
            let total = lent.sums[callee(lent.code.row, i)];
            total <= d && d - total == c
        }
        _ => d == c,
    }
}

// Whether the tail t of the loop at i is its total and the x that follows it, if u is the sum of one of its rounds, and what its body begins with fits t.
fn loop_fits(row: &[Leaf], i: usize, after: usize, t: u64, u: u64, x: u64) -> bool
    requires i_in_bounds { (i < length row.now) × (isolated_at (numbers row.now) i ≤ 1048576) × (detail_at (numbers row.now) i ≤ 65535)
        × (after ≤ length row.now) }
    requires x_le_t { (x ≤ t) × (t ≤ limit) }
    ensures { Says result (LoopFits (numbers row.now) (lent_tails row.now) i after t u x) }
{
    let c = rows::isolated(row, i);
    u <= t && t - x == c + rows::detail(row, i) * u && t - c == start(row, i + 1, after, t - u)
}

// Whether the tail t of the if at i is its own visit and the larger of what its two parts begin with, where x follows them.
fn if_fits(row: &[Leaf], i: usize, other: usize, after: usize, t: u64, x: u64) -> bool
    requires { (i < length row.now) × (other ≤ length row.now) × (after ≤ length row.now) }
    ensures { Says result (IfFits (numbers row.now) (lent_tails row.now) i other after t x) }
{
    let c = rows::isolated(row, i);
    c <= t && t - c == start(row, i + 1, other, x).max(start(row, other, after, x))
}

// Whether the lent numbers of the form at i are the derived ones, where x follows the form.
#[cycle(block_fits_form_fits)]
fn form_fits(lent: &Lent, i: usize, x: u64) -> bool
    requires { FormHeld lent.now.code.row.now i }
    ensures { (p : FormHeld lent.now.code.row.now i) → Says result (FirstIn lent.now p.part.lines i x) }
{
    let row = lent.code.row;
    let t = rows::tail(row, i);
    let u = rows::turn(row, i);
    let after = rows::after(row, i);
    x <= t
        && t <= LIMIT
        && match form_kind(row, i) {
            Kind::Loop => {
                loop_fits(row, i, after, t, u, x) && block_fits(lent, i + 1, after, t - u)
            }
            Kind::If => {
                let other = rows::other(row, i);
                u == 0
                    && if_fits(row, i, other, after, t, x)
                    && block_fits(lent, i + 1, other, x)
                    && block_fits(lent, other, after, x)
            }
            _ => u == 0 && flat_fits(lent, i, t - x),
        }
}

// Whether the lent numbers of the forms from `from` up to `to`, which e follows in their function, are the derived ones.
#[cycle(block_fits_form_fits)]
fn block_fits(lent: &Lent, from: usize, to: usize, e: u64) -> bool
    requires low { e ≤ limit }
    requires forms { FormsHeld lent.now.code.row.now from to }
    ensures { (p : FormsHeld lent.now.code.row.now from to)
        → Says result (DerivedIn lent.now p.part.lines from e) }
{
    let mut i = from;
    // A `while`: each form says where the next one begins, so no range has these steps.
    while i < to {
        let next = rows::next(lent.code.row, i);
        let x = start(lent.code.row, next, to, e);
        if !form_fits(lent, i, x) {
            return false;
        }
        i = next;
    }
    true
}

// Whether the totals behind the last of n functions are 0.
fn settled(sums: &[u64; MAX_FUNCTIONS], n: usize) -> bool
    requires { n ≤ 16 }
    ensures { Says result ((f : ℕ) → n ≤ f → f < 16 → get_or sums.now f 0 ≡ 0) }
{
    rows::all_zero(&sums[n..])
}

// Whether the lent isolated total of the function f, and its turns and tails, are the derived ones and its total is not over the limit.
fn function_fits(lent: &Lent, f: usize) -> bool
    requires f_lt_n { (f < lent.now.code.functions) × (lent.now.code.functions < length lent.now.code.bounds.now) }
    requires plan_of { CodePlan lent.now.code }
    ensures { FunctionAnswer lent.now f result }
{
    let leaves = lent.code.function(f);
    block_fits(lent, leaves.start, leaves.end, 0)
        && lent.sums[f] == start(lent.code.row, leaves.start, leaves.end, 0)
}

// Whether lent isolated totals of the functions, and the turns and tails that stand in the leaves, are the derived ones and no total is over the limit.
// Nothing is derived anew: each number is held to those beside it.
pub fn tails_agree(code: &Code, sums: &[u64; MAX_FUNCTIONS]) -> bool
    requires n_in_bounds { code.now.functions < length code.now.bounds.now }
    requires plan_of { CodePlan code.now }
    ensures { (v : CodePlan code.now)
        → Says result (AllDerived (lines_of v) code.now.bounds.now code.now.functions sums.now (lent_turns code.now.row.now) (lent_tails code.now.row.now)) }
{
    let lent = Lent { code: *code, sums };
    settled(sums, code.functions) && (0..code.functions).all(|f| function_fits(&lent, f))
}

// The total of the form at i, held at the ceiling; none, where a lent turn among its leaves is not the derived one.
#[cycle(block_total_form_total)]
fn form_total(priced: &PricedCode, i: usize) -> Option<u64>
    requires { FormHeld priced.now.code.row.now i }
    ensures { (p : FormHeld priced.now.code.row.now i) → FirstTotalIn priced.now p.part.lines i result }
{
    let row = priced.code.row;
    let c = priced.cost.of(row, i);
    let turn = priced.cost.turn(row, i);
    match form_kind(row, i) {
        Kind::Loop => {
            let body = block_total(priced, i + 1, rows::after(row, i))?;
            (turn == c + body).then_some(looped(c, rows::detail(row, i), body))
        }
        Kind::If => {
            let other = rows::other(row, i);
            let a = block_total(priced, i + 1, other)?;
            let b = block_total(priced, other, rows::after(row, i))?;
            (turn == 0).then_some((c + a.max(b)).min(CEILING))
        }
        Kind::Call => {
            let total = priced.totals[callee(row, i)].min(CEILING);
            (turn == 0).then_some((c + total).min(CEILING))
        }
        Kind::Leaf => (turn == 0).then_some(c),
    }
}

// The total of the forms from `from` up to `to`, held at the ceiling; none, where a lent turn among their leaves is not the derived one.
#[cycle(block_total_form_total)]
fn block_total(priced: &PricedCode, from: usize, to: usize) -> Option<u64>
    requires { FormsHeld priced.now.code.row.now from to }
    ensures { (p : FormsHeld priced.now.code.row.now from to) → TotalIn priced.now p.part.lines from result }
{
    let mut acc: u64 = 0;
    let mut i = from;
    // A `while`: each form says where the next one begins, so no range has these steps.
    while i < to {
        let total = form_total(priced, i)?;
        acc = (acc + total).min(CEILING);
        i = rows::next(priced.code.row, i);
    }
    Some(acc)
}

// Whether the lent total of the function f, and its turns, are the derived ones and the total is not over the limit.
fn sum_fits(priced: &PricedCode, f: usize) -> bool
    requires f_lt_n { (f < priced.now.code.functions) × (priced.now.code.functions < length priced.now.code.bounds.now) }
    requires plan_of { CodePlan priced.now.code }
    ensures { SumAnswer priced.now f result }
{
    let leaves = priced.code.function(f);
    let total = block_total(priced, leaves.start, leaves.end);
    total.is_some_and(|total| total <= LIMIT && total == priced.totals[f])
}

// Whether lent totals of the functions at the cost of this code, and the turns at that cost that stand in the leaves, are the derived ones and no total is
// over the limit. Nothing is derived anew or written: each number is held to those beside it.
pub fn sums_agree(priced: &PricedCode) -> bool
    requires n_in_bounds { priced.now.code.functions < length priced.now.code.bounds.now }
    requires plan_of { CodePlan priced.now.code }
    ensures { (v : CodePlan priced.now.code)
        → Says result (AllSummed (cost_in priced.now.cost) (lines_of v) priced.now.code.bounds.now priced.now.code.functions priced.now.totals.now
        (lent_turns_in priced.now.cost priced.now.code.row.now)) }
{
    settled(priced.totals, priced.code.functions)
        && (0..priced.code.functions).all(|f| sum_fits(priced, f))
}
