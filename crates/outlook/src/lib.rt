// What lies ahead of a place on a row of leaf records: the stretch of a visit at any cost, whether no further point can come, and whether the run can end.
// One walk finds all three.
#![tactic(auto)]

ghost use Rattle.std.specs.Prelude.{◌≡◌, Bool, true, false, ◌&&◌, is_some, ℕ, ◌+◌, ◌*◌, ◌≤◌, ◌<◌, max, get_or};
ghost use Rattle.model.specs.Stack.{whole};
ghost use Rattle.rows.specs.Rows.{after_at, block_at};
ghost use Rattle.rows.specs.Leaves.{numbers};
ghost use Rattle.rows.specs.Costs.{limit, cost_in};
ghost use Rattle.place.specs.Lent.{main_forms};
ghost use Rattle.place.specs.Spans.{HeadEnterable, first_form};
ghost use Rattle.outlook.specs.Loads.{CodePriced, PlacePriced};
ghost use Rattle.outlook.specs.Ahead.{ahead_of, ahead_at};
ghost use Rattle.outlook.specs.Quiets.{quiet_sum, IsQuiet, QuietForms};
ghost use Rattle.outlook.specs.Quiets.{roof, Low, QuietBeyond};
ghost use Rattle.outlook.specs.Private.{own, QuietParts, QuietBehind};
ghost use Rattle.outlook.specs.Quiets.{PricedForms, priced_forms};
ghost use Rattle.outlook.specs.Loads.{PricedRun};
ghost use Rattle.outlook.specs.Private.{HeadPriced, Sees};

use place::{ByLevel, Place};
use rows::{Kind, PricedCode};

// What lies ahead: the stretch, whether no further point can come, and whether the run can end without another report.
#[derive(Clone, Copy)]
pub struct Ahead {
    pub stretch: u64,
    pub last: bool,
    pub ends: bool,
}

// How quiet the ways through some forms are: `hit`, the largest sum that ends at a point inside; `pass`, the largest sum all through, to which what follows is
// added, or none where every way meets a point; `mute`, no way meets one.
#[derive(Clone, Copy)]
pub struct Quiet {
    pub hit: u64,
    pub pass: Option<u64>,
    pub mute: bool,
}

// No form.
pub const NOTHING: Quiet = Quiet {
    hit: 0,
    pass: Some(0),
    mute: true,
};

// A point: no way leads on.
const POINT: Quiet = Quiet {
    hit: 0,
    pass: None,
    mute: false,
};

impl Quiet {
    // A silent visit that costs m.
    fn visit(m: u64) -> Quiet
        ensures { IsQuiet result (λ s. m + s) true m }
    {
        Quiet {
            hit: 0,
            pass: Some(m),
            mute: true,
        }
    }

    // This, and then the next.
    fn then(self, next: Quiet) -> Quiet
        requires { Low self × Low next }
        ensures { (f : ℕ → ℕ) (g : ℕ → ℕ) (i : Bool) (j : Bool) (a : ℕ) (b : ℕ) → IsQuiet self f i a → IsQuiet next g j b
            → IsQuiet result (λ s. f (g s)) (i && j) (a + b) }
    {
        match self.pass {
            Some(pass) => Quiet {
                hit: self.hit.max(pass + next.hit),
                pass: next.pass.map(|further| pass + further),
                mute: self.mute && next.mute,
            },
            None => self,
        }
    }

    // This or the other.
    fn or(self, other: Quiet) -> Quiet
        ensures { (f : ℕ → ℕ) (g : ℕ → ℕ) (i : Bool) (j : Bool) (a : ℕ) (b : ℕ) → IsQuiet self f i a → IsQuiet other g j b
            → IsQuiet result (λ s. max (f s) (g s)) (i && j) (max a b) }
    {
        Quiet {
            hit: self.hit.max(other.hit),
            pass: self.pass.max(other.pass),
            mute: self.mute && other.mute,
        }
    }

    // The largest sum where what follows has the sum e.
    pub fn sum(self, e: u64) -> u64
        requires { Low self × (e ≤ roof) }
        ensures { result ≡ quiet_sum self e }
    {
        let through = match self.pass {
            Some(pass) => pass + e,
            None => 0,
        };
        self.hit.max(through)
    }

    // What lies ahead where this follows a visit that costs m, down to the end.
    fn ahead(self, m: u64) -> Ahead
        requires { (m ≤ limit) × Low self }
        ensures { result ≡ record { stretch = m + quiet_sum self 0; last = self.mute; ends = is_some self.pass } }
    {
        Ahead {
            stretch: m + self.hit.max(self.pass.unwrap_or(0)),
            last: self.mute,
            ends: self.pass.is_some(),
        }
    }
}

// The sum of the silent form at i, the first of those from i up to `to`, without the parts of an if.
fn weight(priced: &PricedCode, i: usize, to: usize) -> u64
    requires i_lt_to { i < to }
    requires held { PricedForms priced.now i to }
    ensures { (h : PricedForms priced.now i to) → result ≡ own (cost_in priced.now.cost) (priced_forms h) }
{
    let row = priced.code.row;
    let visit = priced.cost.of(row, i);
    match rows::kind_of(row, i) {
        Some(Kind::Call) => visit + priced.totals[rows::target(row, i)],
        Some(Kind::Loop) => visit + rows::detail(row, i) * priced.cost.turn(row, i),
        _ => visit,
    }
}

// How quiet the form at i is inside at its own level: in the parts of an if. (Inlined, so that a walk makes no call at a form without parts.)
#[cycle(parts_scan)]
#[inline(always)]
fn parts(priced: &PricedCode, i: usize, to: usize) -> Quiet
    requires i_lt_to { i < to }
    requires held { PricedForms priced.now i to }
    ensures { (h : PricedForms priced.now i to) → QuietParts result (cost_in priced.now.cost) (priced_forms h) }
{
    let row = priced.code.row;
    if rows::kind_of(row, i) != Some(Kind::If) {
        return NOTHING;
    }
    let other = rows::other(row, i);
    let after = rows::after(row, i);
    let first = scan(priced, i + 1, other);
    let second = scan(priced, other, after);
    first.or(second)
}

// How quiet the forms from `from` up to `to` are.
#[cycle(parts_scan)]
pub fn scan(priced: &PricedCode, from: usize, to: usize) -> Quiet
    requires { PricedForms priced.now from to }
    ensures { (h : PricedForms priced.now from to) → QuietForms result (cost_in priced.now.cost) (priced_forms h) }
{
    let row = priced.code.row;
    let mut passed = NOTHING;
    let mut i = from;
    // A `while`: each form says where the next one begins, so no range has these steps.
    while i < to && passed.pass.is_some() {
        if rows::point(row, i) == 1 {
            return passed.then(POINT);
        }
        let visit = Quiet::visit(weight(priced, i, to));
        let form = visit.then(parts(priced, i, to));
        passed = passed.then(form);
        i = rows::after(row, i);
    }
    passed
}

// How quiet it is behind the leaf p of the form at i, as far as the form goes; none where p is no leaf of its level.
#[cycle(behind_within)]
fn within(priced: &PricedCode, i: usize, to: usize, p: usize) -> Option<Quiet>
    requires i_lt_to { (i < to) × (i ≤ p) × (p < after_at (numbers priced.now.code.row.now) i) }
    requires held { PricedForms priced.now i to }
    ensures { (h : PricedForms priced.now i to)
        → QuietBehind result (cost_in priced.now.cost) (first_form (priced_forms h)) p }
{
    let row = priced.code.row;
    if p == i {
        return Some(parts(priced, i, to));
    }
    if rows::kind_of(row, i) != Some(Kind::If) {
        return None;
    }
    let other = rows::other(row, i);
    if p < other {
        return behind(priced, i + 1, other, p);
    }
    let after = rows::after(row, i);
    behind(priced, other, after, p)
}

// How quiet it is behind the leaf p of the forms from `from` up to `to`; none where p is no leaf of their level.
#[cycle(behind_within)]
fn behind(priced: &PricedCode, from: usize, to: usize, p: usize) -> Option<Quiet>
    requires { PricedForms priced.now from to }
    ensures { (h : PricedForms priced.now from to) → QuietBehind result (cost_in priced.now.cost) (priced_forms h) p }
{
    if p < from {
        return None;
    }
    let mut i = from;
    // A `while`: each form says where the next one begins, so no range has these steps.
    while i < to {
        let after = rows::next(priced.code.row, i);
        if p < after {
            let form = within(priced, i, to, p)?;
            if form.pass.is_none() {
                return Some(form);
            }
            let rest = scan(priced, after, to);
            return Some(form.then(rest));
        }
        i = after;
    }
    None
}

// How quiet it is inside the loop or call at `head`.
fn enclosed(priced: &PricedCode, head: usize) -> Quiet
    requires enterable { HeadEnterable priced.now.code head }
    requires held { HeadPriced priced.now head }
    ensures { (h : HeadPriced priced.now head) → QuietForms result (cost_in priced.now.cost) (priced_forms h) }
{
    let inner = place::opening(&priced.code, head);
    scan(priced, inner.start, inner.end)
}

// How quiet it is once the form of the leaf at level l is left, level by level down to the end. (An open loop comes back to its condition, which is a point.)
pub fn downward(priced: &PricedCode, leaves: &ByLevel, l: usize) -> Quiet
    requires { PricedRun priced.now leaves.now l }
    ensures { (q : PricedRun priced.now leaves.now l)
        → QuietBeyond result (cost_in priced.now.cost) (whole q.running.levels) (l * limit) }
{
    let level = place::span(&priced.code, leaves, l);
    let here = leaves[l] as usize;
    let Some(quiet) = behind(priced, level.start, level.end, here) else {
        unreachable!()
    };
    if l == 1 || quiet.pass.is_none() {
        return quiet;
    }
    let head = leaves[l - 1] as usize;
    if rows::kind_of(priced.code.row, head) == Some(Kind::Loop) {
        return quiet.then(POINT);
    }
    quiet.then(downward(priced, leaves, l - 1))
}

// How quiet it is behind the report of this place.
fn onward(priced: &PricedCode, place: &Place) -> Quiet
    requires { PlacePriced priced.now place.now }
    ensures { (q : PlacePriced priced.now place.now) → Sees result (cost_in priced.now.cost)
        (block_at (numbers priced.now.code.row.now) (get_or place.now.leaves place.now.level 0)) q.decoded.levels }
{
    let row = priced.code.row;
    let here = place.leaves[place.level] as usize;
    let under = downward(priced, &place.leaves, place.level);
    if rows::kind_of(row, here) == Some(Kind::Call) {
        return enclosed(priced, here).then(under);
    }
    if place::may_turn(row, here, place.earlier[place.level]) {
        let again = enclosed(priced, here).then(POINT);
        return under.or(again);
    }
    under
}

// What lies ahead at the report of this place.
pub fn at_report(priced: &PricedCode, place: &Place) -> Ahead
    requires { PlacePriced priced.now place.now }
    ensures { (q : PlacePriced priced.now place.now)
        → result ≡ ahead_at (cost_in priced.now.cost) (whole q.decoded.levels) }
{
    let here = place.leaves[place.level] as usize;
    let visit = priced.cost.of(priced.code.row, here);
    onward(priced, place).ahead(visit)
}

// What lies ahead at the release.
pub fn at_release(priced: &PricedCode) -> Ahead
    requires { CodePriced priced.now }
    ensures { (q : CodePriced priced.now) → result ≡ ahead_of (cost_in priced.now.cost) (main_forms q.table) }
{
    let main = place::main_function(&priced.code);
    scan(priced, main.start, main.end).ahead(0)
}
