// Whether a row of leaf records, with the bounds of its functions, is that of a plan that keeps rules 3 to 9 and 19.
#![tactic(auto)]

ghost use Rattle.std.specs.Prelude.{◌≡◌, List, [], length, get_or, take, is_some, is_ok, IfSome, IfOk, IfErr};
ghost use Prim.Native.Nat.{ℕ, ◌≤◌, ◌<◌};
ghost use Rattle.model.specs.Acceptance.{Called, Seen, SeenAll};
ghost use Rattle.model.specs.Forms.{Forms, forms};
ghost use Rattle.model.specs.Levels.{height, heights};
ghost use Rattle.rows.specs.Rows.{kind_at, detail_at, Part};
ghost use Rattle.rows.specs.Answers.{Says};
ghost use Rattle.rows.specs.Leaves.{numbers};
ghost use Rattle.rows.specs.Plans.{Bounds, CodePlan};
ghost use Rattle.structure.specs.Plans.{CodeStructured};
ghost use Rattle.structure.specs.Private.{Text, Pointed, Flags, HasPoint, silent_end, Allowed, BlockRight, PlaceRight, LeafRight};
ghost use Rattle.structure.specs.Private.{CallRight, LoopRight, IfRight, Sound, WholeForm, Readable, top};

use rows::{
    Code, INNER_BRACKETS, Kind, Leaf, MAX_COST, MAX_FUNCTIONS, MAX_LEAVES, MAX_LEVEL,
    MAX_LOOP_BOUND, after, all_zero, detail, isolated, kind_of, level, max_load, next, other,
    point, target,
};
use std::ops::Range;

// Whether the record i is a point or a silent one, and its costs keep rules 3, 5 and 19: a point costs 1 at least.
fn priced(row: &[Leaf], i: usize) -> bool
    requires { i < length row.now }
    ensures { Says result (BlockRight (numbers row.now) i) }
{
    let c = isolated(row, i);
    let m = max_load(row, i);
    let mark = point(row, i);
    mark <= 1 && c <= MAX_COST && m <= MAX_COST && c <= m && mark <= c
}

// Whether the record i stands at level l, which is not too high, and its form ends after it begins and by `to`.
fn placed(row: &[Leaf], i: usize, to: usize, l: u64) -> bool
    requires { i < length row.now }
    ensures { Says result (PlaceRight (numbers row.now) l i to) }
{
    let after = after(row, i);
    level(row, i) == l && l <= MAX_LEVEL && i < after && after <= to
}

// Whether the record i has the fields of a leaf.
fn leaf_right(row: &[Leaf], i: usize) -> bool
    requires { i < length row.now }
    ensures { Says result (LeafRight (numbers row.now) i) }
{
    detail(row, i) == 0 && other(row, i) == 0 && after(row, i) == i + 1
}

// Whether the record i has the fields of a call at level l, where `hs` are the heights of the functions before.
fn call_right(row: &[Leaf], i: usize, l: u64, hs: &[u64]) -> bool
    requires { (i < length row.now) × (l ≤ 32) }
    ensures { Says result (CallRight (numbers row.now) hs.now l i) }
{
    let f = target(row, i);
    f < MAX_FUNCTIONS
        && f < hs.len()
        && hs[f] <= MAX_LEVEL - l
        && other(row, i) == 0
        && after(row, i) == i + 1
}

// Whether the record i has the fields of a loop, where `left` brackets may still open.
fn loop_right(row: &[Leaf], i: usize, left: usize) -> bool
    requires { i < length row.now }
    ensures { Says result (LoopRight (numbers row.now) left i) }
{
    let n = detail(row, i);
    1 <= n && n <= MAX_LOOP_BOUND && 1 <= left && other(row, i) == 0
}

// Whether the record i has the fields of an if, where `left` brackets may still open.
fn if_right(row: &[Leaf], i: usize, left: usize) -> bool
    requires { i < length row.now }
    ensures { Says result (IfRight (numbers row.now) left i) }
{
    let other = other(row, i);
    detail(row, i) == 0 && 2 <= left && i < other && other <= after(row, i)
}

// Whether the record i is what one of its kind must be, apart from the forms inside it.
fn sound(row: &[Leaf], i: usize, to: usize, left: usize, l: u64, hs: &[u64]) -> bool
    requires { (i < to) × (to ≤ length row.now) }
    ensures { Says result (Sound (numbers row.now) hs.now left l i to) }
{
    priced(row, i)
        && placed(row, i, to, l)
        && match kind_of(row, i) {
            Some(Kind::Leaf) => leaf_right(row, i),
            Some(Kind::Call) => call_right(row, i, l, hs),
            Some(Kind::Loop) => loop_right(row, i, left),
            Some(Kind::If) => if_right(row, i, left),
            None => false,
        }
}

// Whether one whole form begins at i, and ends by `to`.
#[cycle(valid_whole)]
fn whole(row: &[Leaf], i: usize, to: usize, left: usize, l: u64, hs: &[u64]) -> bool
    requires { (i < to) × (to ≤ length row.now) }
    ensures { Says result (WholeForm (numbers row.now) hs.now left l i to) }
{
    if !sound(row, i, to, left, l, hs) {
        return false;
    }
    let after = after(row, i);
    match kind_of(row, i) {
        Some(Kind::Loop) => valid(row, i + 1, after, left - 1, l + 1, hs),
        Some(Kind::If) => {
            let other = other(row, i);
            valid(row, i + 1, other, left - 2, l, hs) && valid(row, other, after, left - 2, l, hs)
        }
        _ => true,
    }
}

// Whether the records from `from` up to `to` are lines at level l that keep rules 3, 5, 19, 6 and 7, where `left` brackets may still open and
// `hs` are the heights of the functions before.
#[cycle(valid_whole)]
fn valid(row: &[Leaf], from: usize, to: usize, left: usize, l: u64, hs: &[u64]) -> bool
    requires { to ≤ length row.now }
    ensures { Says result (Part (numbers row.now) hs.now left l from to) }
{
    let mut i = from;
    // A `while`: each form says where the next one begins, so no range has these steps.
    while i < to {
        if !whole(row, i, to, left, l, hs) {
            return false;
        }
        i = next(row, i);
    }
    i == to
}

// The level of the record i and, where it is a call, of what it calls.
#[tactic(auto, unfolding(crate::specs::Private::top))]
fn reach(row: &[Leaf], i: usize, hs: &[u64]) -> u64
    requires { (i < length row.now) × Readable (numbers row.now) hs.now i }
    ensures { result ≡ top (numbers row.now) hs.now i }
{
    let l = level(row, i);
    match kind_of(row, i) {
        Some(Kind::Call) => l + hs[target(row, i)],
        _ => l,
    }
}

// The height of the function whose lines are the records from `from` up to `to`.
fn tall(row: &[Leaf], from: usize, to: usize, hs: &[u64]) -> u64
    requires to_in_bounds { to ≤ length row.now }
    requires part { Part (numbers row.now) hs.now 62 1 from to }
    ensures { (p : Part (numbers row.now) hs.now 62 1 from to) → result ≡ height hs.now p.lines }
{
    (from..to).map(|i| reach(row, i, hs)).max().unwrap_or(0)
}

// Whether the bounds behind the last function's end are 0.
fn unused(code: &Code) -> bool
    requires all_bounds { length code.now.bounds.now ≡ 17 }
    requires few { code.now.functions ≤ 16 }
    ensures { Says result ((f : ℕ) → code.now.functions < f → f ≤ 16 → get_or code.now.bounds.now f 0 ≡ 0) }
{
    all_zero(&code.bounds[code.functions + 1..])
}

// Whether the bounds of the code's functions are right, apart from what lies between them.
#[tactic(auto, using(rows::proofs::Leaves::numbers_length))]
fn bounded(code: &Code) -> bool
    requires all_bounds { length code.now.bounds.now ≡ 17 }
    ensures { Says result (Bounds (numbers code.now.row.now) code.now.bounds.now code.now.functions) }
{
    1 <= code.functions
        && code.functions <= MAX_FUNCTIONS
        && code.bounds[0] == 0
        && code.bounds[code.functions] as usize <= MAX_LEAVES
        && code.bounds[code.functions] as usize <= code.row.len()
        && unused(code)
}

// The heights of the functions of a code that is that of a plan that keeps rules 3 to 7 and 19, or none.
#[tactic(auto, using(rows::proofs::Leaves::numbers_length))]
pub fn formed(code: &Code) -> Option<[u64; MAX_FUNCTIONS]>
    requires all_bounds { length code.now.bounds.now ≡ 17 }
    ensures says { Says (is_some result) (CodePlan code.now) }
    ensures tall { IfSome result (λ hs. (p : CodePlan code.now) → take code.now.functions hs ≡ heights [] p.functions) }
{
    if !bounded(code) {
        return None;
    }
    let leaves = code.bounds[code.functions] as usize;
    let mut hs = [0; MAX_FUNCTIONS];
    for f in 0..code.functions {
        let Range { start, end } = code.function(f);
        if leaves < end || !valid(code.row, start, end, INNER_BRACKETS, 1, &hs[..f]) {
            return None;
        }
        hs[f] = tall(code.row, start, end, &hs[..f]);
    }
    Some(hs)
}

// Whether every function of a plan but the last is named by a call: rule 9.
#[tactic(auto, using(rows::proofs::Leaves::numbers_length))]
pub fn called(code: &Code) -> bool
    requires all_bounds { length code.now.bounds.now ≡ 17 }
    requires plan { CodePlan code.now }
    ensures { (p : CodePlan code.now) → Says result (Called p.functions) }
{
    let mut named = [false; MAX_FUNCTIONS];
    for i in 0..code.bounds[code.functions] as usize {
        if let Some(Kind::Call) = kind_of(code.row, i) {
            named[target(code.row, i)] = true;
        }
    }
    named[..code.functions - 1].iter().all(|call| *call)
}

// Whether the record i is a point, or calls a function that has one.
fn has_point(row: &[Leaf], i: usize, has: &[bool]) -> bool
    requires i_in_bounds { i < length row.now }
    requires i_in_bounds_2 { kind_at (numbers row.now) i ≡ 1 → detail_at (numbers row.now) i < length has.now }
    ensures { Says result (HasPoint (numbers row.now) has.now i) }
{
    point(row, i) == 1 || matches!(kind_of(row, i), Some(Kind::Call)) && has[target(row, i)]
}

// Whether the record i may stand where silent loops reach up to `until`.
fn allowed(row: &[Leaf], i: usize, until: usize, has: &[bool]) -> bool
    requires i_in_bounds { i < length row.now }
    requires i_in_bounds_2 { kind_at (numbers row.now) i ≡ 1 → detail_at (numbers row.now) i < length has.now }
    ensures { Says result (Allowed (numbers row.now) has.now until i) }
{
    !has_point(row, i, has) || until <= i && point(row, i) == 1
}

// How far silent loops reach, the record i among them.
#[tactic(auto, unfolding(crate::specs::Private::silent_end))]
fn silent_until(row: &[Leaf], i: usize, until: usize) -> usize
    requires { i < length row.now }
    ensures { result ≡ Prim.Native.Nat.max until (silent_end (numbers row.now) i) }
{
    match kind_of(row, i) {
        Some(Kind::Loop) if point(row, i) == 0 => until.max(after(row, i)),
        _ => until,
    }
}

// Whether a function keeps rule 8, where `has` says which functions before it have a point.
fn seen(row: &[Leaf], from: usize, to: usize, has: &[bool]) -> bool
    requires to_in_bounds { to ≤ length row.now }
    requires text { Text (numbers row.now) (length has.now) from to }
    ensures { (fs : List Forms) → Flags has.now fs → (t : Text (numbers row.now) (length has.now) from to)
        → Says result (Seen (forms fs t.lines)) }
{
    let mut until = 0;
    for i in from..to {
        if !allowed(row, i, until, has) {
            return false;
        }
        until = silent_until(row, i, until);
    }
    true
}

// Whether a function has a point, inside it or in what it calls.
fn pointed(row: &[Leaf], from: usize, to: usize, has: &[bool]) -> bool
    requires to_in_bounds { to ≤ length row.now }
    requires text { Text (numbers row.now) (length has.now) from to }
    ensures { (fs : List Forms) → Flags has.now fs → (t : Text (numbers row.now) (length has.now) from to)
        → Says result (Pointed (forms fs t.lines)) }
{
    (from..to).any(|i| has_point(row, i, has))
}

// Whether no silent loop or call of a plan has a point inside it or in what it calls: rule 8.
pub fn seen_all(code: &Code) -> bool
    requires all_bounds { length code.now.bounds.now ≡ 17 }
    requires plan { CodePlan code.now }
    ensures { (p : CodePlan code.now) → Says result (SeenAll [] p.functions) }
{
    let mut has = [false; MAX_FUNCTIONS];
    for f in 0..code.functions {
        let Range { start, end } = code.function(f);
        if !seen(code.row, start, end, &has[..f]) {
            return false;
        }
        has[f] = pointed(code.row, start, end, &has[..f]);
    }
    true
}

// The heights of the functions of a code that is that of a plan that keeps rules 3 to 9 and 19; as an error those of a code that keeps rules 3 to 7 and 19
// alone, or none.
pub fn structured(code: &Code) -> Result<[u64; MAX_FUNCTIONS], Option<[u64; MAX_FUNCTIONS]>>
    requires all_bounds { length code.now.bounds.now ≡ 17 }
    ensures says { Says (is_ok result) (CodeStructured code.now) }
    ensures tall { IfOk result (λ hs. (p : CodePlan code.now) → take code.now.functions hs ≡ heights [] p.functions) }
    ensures formed { IfErr result (λ found. Says (is_some found) (CodePlan code.now)) }
    ensures formed_tall { IfErr result (λ found. IfSome found (λ hs. (p : CodePlan code.now)
        → take code.now.functions hs ≡ heights [] p.functions)) }
{
    let Some(hs) = formed(code) else {
        return Err(None);
    };
    if seen_all(code) && called(code) {
        Ok(hs)
    } else {
        Err(Some(hs))
    }
}
