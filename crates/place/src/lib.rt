// The next report on a row of leaf records: whether a point can come next, and the place then.
#![tactic(auto)]

ghost use Rattle.std.specs.Prelude.{◌≡◌, List, [], ℕ, ◌+◌, ◌-◌, ◌*◌, ◌≤◌, ◌<◌, length, get_or};
ghost use Rattle.std.proofs.Math.Option.{none};
ghost use Rattle.model.specs.Forms.{Forms, forms};
ghost use Rattle.model.specs.Places.{seek};
ghost use Rattle.model.specs.Stack.{onward_at, onto, suffix};
ghost use Rattle.rows.specs.Rows.{kind_at, point_at, after_at, Piece};
ghost use Rattle.rows.specs.Leaves.{numbers, lent_tails};
ghost use Rattle.rows.specs.Answers.{Says};
ghost use Rattle.place.specs.Pieces.{Spanned};
ghost use Rattle.place.specs.Stack.{Put};
ghost use Rattle.place.specs.Spans.{first_form, MayTurn, inner_from, inner_to, HeadEnterable, level_from, level_to, LevelOpen, CodeRunning};
ghost use Rattle.place.specs.Times.{TimesAt};
ghost use Rattle.place.specs.Lent.{CodeTable, main_forms, PlaceDecoded, PlaceDecodes, NextPlace, PlaceCosted, PlaceClocked};
ghost use Rattle.place.specs.Private.{Held, HeadHeld, HeadPiece, PlaceStands};
ghost use Rattle.place.specs.Private.{Enters, Counted, Settled, there, Lands, fall_at, nothing, sight_at, series, either};
ghost use Rattle.place.specs.Private.{sight_of, sight_beyond, sight_behind, inner_time, first_time};
ghost use Rattle.place.specs.Private.{PlaceFinds, PlaceHolds, RowOpens, PlaceFits, place_time};

use rows::{Code, Kind, Leaf, MAX_FUNCTIONS, MAX_LEVEL};
use std::ops::Range;

// One for each level that can be open in a run, and one for level 0.
const ENTRIES: usize = MAX_LEVEL as usize + 1;

// A number for each level, from 0 on.
pub type ByLevel = [u64; ENTRIES];

// A number for each function.
pub type Totals = [u64; MAX_FUNCTIONS];

// The place of a run: its level, the leaf reported last at each level up to it, and that leaf's earlier visits there.
#[derive(Clone, Copy)]
pub struct Place {
    pub level: usize,
    pub leaves: ByLevel,
    pub earlier: ByLevel,
}

// What the ways through some forms meet: `meets`, some way comes in silence to the point sought; `free`, none does, and some way meets no point.
#[derive(Clone, Copy)]
struct Sight {
    free: bool,
    meets: bool,
}

impl Sight {
    // Nothing is met.
    fn nothing() -> Sight
        ensures { result ≡ nothing }
    {
        Sight {
            free: true,
            meets: false,
        }
    }

    // The point i is met, where x is sought.
    fn at(i: usize, x: usize) -> Sight
        ensures { result ≡ sight_at i x }
    {
        Sight {
            free: false,
            meets: i == x,
        }
    }

    // This, and then the next.
    fn then(self, next: Sight) -> Sight
        ensures { result ≡ series self next }
    {
        Sight {
            free: self.free && next.free,
            meets: self.meets || self.free && next.meets,
        }
    }

    // This or the other: where either comes to the point sought, no way leads on.
    fn or(self, other: Sight) -> Sight
        ensures { result ≡ either self other }
    {
        let meets = self.meets || other.meets;
        Sight {
            free: (self.free || other.free) && !meets,
            meets,
        }
    }
}

// What is met inside the form at i at its own level: in the parts of an if. (Inlined, so that a walk makes no call at a form without parts.)
#[cycle(parts_scan)]
#[inline(always)]
fn parts(row: &[Leaf], i: usize, to: usize, x: usize) -> Sight
    requires i_lt_to { i < to }
    requires held { Held row.now i to }
    ensures { (left : ℕ) (p : Piece (numbers row.now) left i to) (G : List Forms) → result ≡ sight_beyond (first_form (forms G p.part.lines)) x }
{
    if rows::kind_of(row, i) != Some(Kind::If) {
        return Sight::nothing();
    }
    let other = rows::other(row, i);
    let after = rows::after(row, i);
    let first = scan(row, i + 1, other, x);
    let second = scan(row, other, after, x);
    first.or(second)
}

// What the forms from `from` up to `to` meet.
#[cycle(parts_scan)]
fn scan(row: &[Leaf], from: usize, to: usize, x: usize) -> Sight
    requires { Held row.now from to }
    ensures { (left : ℕ) (p : Piece (numbers row.now) left from to) (G : List Forms) → result ≡ sight_of (forms G p.part.lines) x }
{
    let mut passed = Sight::nothing();
    let mut i = from;
    // A `while`: each form says where the next one begins, so no range has these steps.
    while i < to && passed.free {
        if rows::point(row, i) == 1 {
            return passed.then(Sight::at(i, x));
        }
        let form = parts(row, i, to, x);
        passed = passed.then(form);
        i = rows::after(row, i);
    }
    passed
}

// What is met behind the leaf p of the form at i, as far as the form goes; none where p is no leaf of its level.
#[cycle(behind_within)]
fn within(row: &[Leaf], i: usize, to: usize, p: usize, x: usize) -> Option<Sight>
    requires i_lt_to { (i < to) × (i ≤ p) × (p < after_at (numbers row.now) i) }
    requires held { Held row.now i to }
    ensures { (left : ℕ) (q : Piece (numbers row.now) left i to) (G : List Forms)
        → result ≡ sight_behind (suffix (first_form (forms G q.part.lines)) p) x }
{
    if p == i {
        return Some(parts(row, i, to, x));
    }
    if rows::kind_of(row, i) != Some(Kind::If) {
        return None;
    }
    let other = rows::other(row, i);
    if p < other {
        return behind(row, i + 1, other, p, x);
    }
    let after = rows::after(row, i);
    behind(row, other, after, p, x)
}

// What is met behind the leaf p of the forms from `from` up to `to`; none where p is no leaf of their level.
#[cycle(behind_within)]
fn behind(row: &[Leaf], from: usize, to: usize, p: usize, x: usize) -> Option<Sight>
    requires { Held row.now from to }
    ensures { (left : ℕ) (q : Piece (numbers row.now) left from to) (G : List Forms)
        → result ≡ sight_behind (suffix (forms G q.part.lines) p) x }
{
    if p < from {
        return None;
    }
    let mut i = from;
    // A `while`: each form says where the next one begins, so no range has these steps.
    while i < to {
        let after = rows::next(row, i);
        if p < after {
            let form = within(row, i, to, p, x)?;
            if !form.free {
                return Some(form);
            }
            let rest = scan(row, after, to, x);
            return Some(form.then(rest));
        }
        i = after;
    }
    None
}

// The records of the main function, the last one.
pub fn main_function(code: &Code) -> Range<usize>
    requires { (1 ≤ code.now.functions) × (code.now.functions < length code.now.bounds.now) }
    ensures { (result.start ≡ get_or code.now.bounds.now (code.now.functions - 1) 0)
        × (result.end ≡ get_or code.now.bounds.now code.now.functions 0) }
{
    code.function(code.functions - 1)
}

// The records inside the loop or call at `head`.
#[tactic(auto, using(rows::proofs::Leaves::numbers_length))]
pub fn opening(code: &Code, head: usize) -> Range<usize>
    requires { HeadEnterable code.now head }
    ensures { (result.start ≡ inner_from (numbers code.now.row.now) code.now.bounds.now head)
        × (result.end ≡ inner_to (numbers code.now.row.now) code.now.bounds.now head) }
{
    if rows::kind_of(code.row, head) == Some(Kind::Loop) {
        head + 1..rows::after(code.row, head)
    } else {
        code.function(rows::target(code.row, head))
    }
}

// The records of the level l, over the leaves reported last at those below it.
pub fn span(code: &Code, leaves: &ByLevel, l: usize) -> Range<usize>
    requires { LevelOpen code.now leaves.now l }
    ensures { (result.start ≡ level_from code.now leaves.now l) × (result.end ≡ level_to code.now leaves.now l) }
{
    if l == 1 {
        main_function(code)
    } else {
        opening(code, leaves[l - 1] as usize)
    }
}

// What is met inside the loop or call at `head`.
fn enclosed(code: &Code, head: usize, x: usize) -> Sight
    requires enterable { HeadEnterable code.now head }
    requires held { HeadHeld code.now head }
    ensures { (p : HeadPiece code.now head) (G : List Forms) → result ≡ sight_of (forms G p.part.lines) x }
{
    let inner = opening(code, head);
    scan(code.row, inner.start, inner.end, x)
}

// The level where the run comes to x once it has left the form of the leaf at level l; none where it cannot come to x.
fn fall(code: &Code, leaves: &ByLevel, l: usize, x: usize) -> Option<usize>
    requires { CodeRunning code.now leaves.now l }
    ensures { (q : CodeRunning code.now leaves.now l) → Lands (main_forms q.running.table) leaves.now q.running.counts q.running.levels x result }
{
    let level = span(code, leaves, l);
    let here = leaves[l] as usize;
    let sight = behind(code.row, level.start, level.end, here, x)?;
    if sight.meets {
        return Some(l);
    }
    if l == 1 || !sight.free {
        return None;
    }
    let head = leaves[l - 1] as usize;
    if rows::kind_of(code.row, head) != Some(Kind::Loop) {
        return fall(code, leaves, l - 1, x);
    }
    (head == x).then_some(l - 1)
}

// The level where a point comes next, and its earlier visits there.
#[derive(Clone, Copy)]
struct Found {
    at: usize,
    count: u64,
}

// Where x comes next once the form of the leaf reported last is left.
fn below(code: &Code, place: &Place, x: usize) -> Option<Found>
    requires { PlaceStands code.now place.now }
    ensures { (q : PlaceStands code.now place.now)
        → PlaceFinds (main_forms q.placed.table) place.now (fall_at q.placed.stack.levels x) x result }
{
    let at = fall(code, &place.leaves, place.level, x)?;
    if place.leaves[at] as usize == x {
        return Some(Found {
            at,
            count: place.earlier[at] + 1,
        });
    }
    Some(Found { at, count: 0 })
}

// Whether the leaf p is a loop that may turn again after `count` earlier visits.
pub fn may_turn(row: &[Leaf], p: usize, count: u64) -> bool
    requires { p < length row.now }
    ensures { Says result (MayTurn (numbers row.now) p count) }
{
    rows::kind_of(row, p) == Some(Kind::Loop) && count < rows::detail(row, p)
}

// Where x comes next inside the loop that was reported last, or at its next visit, where x cannot come once the loop is left.
fn round_again(code: &Code, place: &Place, x: usize) -> Option<Found>
    requires at_loop { kind_at (numbers code.now.row.now) (get_or place.now.leaves place.now.level 0) ≡ 2 }
    requires stands { PlaceStands code.now place.now }
    requires x_value { (q : PlaceStands code.now place.now) → fall_at q.placed.stack.levels x ≡ none }
    ensures { (q : PlaceStands code.now place.now)
        → PlaceFinds (main_forms q.placed.table) place.now (onward_at q.placed.stack.levels x) x result }
{
    let here = place.leaves[place.level] as usize;
    let earlier = place.earlier[place.level];
    if !may_turn(code.row, here, earlier) {
        return None;
    }
    let sight = enclosed(code, here, x);
    if sight.meets {
        return Some(Found {
            at: place.level + 1,
            count: 0,
        });
    }
    if sight.free && here == x {
        return Some(Found {
            at: place.level,
            count: earlier + 1,
        });
    }
    None
}

// Where x comes next behind the report of this place.
fn find(code: &Code, place: &Place, x: usize) -> Option<Found>
    requires { PlaceStands code.now place.now }
    ensures { (q : PlaceStands code.now place.now)
        → PlaceFinds (main_forms q.placed.table) place.now (onward_at q.placed.stack.levels x) x result }
{
    let here = place.leaves[place.level] as usize;
    let kind = rows::kind_of(code.row, here);
    if kind == Some(Kind::Call) {
        let sight = enclosed(code, here, x);
        if sight.meets {
            return Some(Found {
                at: place.level + 1,
                count: 0,
            });
        }
        return if sight.free {
            below(code, place, x)
        } else {
            None
        };
    }
    let under = below(code, place, x);
    if kind == Some(Kind::Loop) && under.is_none() {
        return round_again(code, place, x);
    }
    under
}

// Puts v at l, and 0 above it.
fn put(a: &mut ByLevel, l: usize, v: u64)
    requires { l ≤ 32 }
    ensures { Put a.old a.new l v }
{
    a[l] = v;
    a[l + 1..].fill(0);
}

// Whether every number above level l is 0.
pub fn zero_above(a: &ByLevel, l: usize) -> bool
    requires { l ≤ 32 }
    ensures { Says result ((k : ℕ) → l < k → get_or a.now k 0 ≡ 0) }
{
    rows::all_zero(&a[l + 1..])
}

// Moves the place on to the report of the point x, the next one, and says whether it did: where x cannot come next the place stays as it was.
pub fn advance(code: &Code, place: &mut Place, x: usize) -> bool
    requires x_value { point_at (numbers code.now.row.now) x ≡ 1 }
    requires decoded { PlaceDecoded code.now place.old }
    ensures { (q : PlaceDecoded code.now place.old)
        → NextPlace code.now (main_forms q.decoded.table) (onward_at q.decoded.levels x) place.old x result place.new }
{
    let Some(found) = find(code, place, x) else {
        return false;
    };
    place.level = found.at;
    put(&mut place.leaves, found.at, x as u64);
    put(&mut place.earlier, found.at, found.count);
    true
}

// Moves the place on to the report of the point x, the first one, and says whether it did: where x cannot come first the place stays as it was. (The place is
// that of the release, at level 0 and not a `None`: any state may be lent, and entry 0 of both arrays stays.)
pub fn begin(code: &Code, place: &mut Place, x: usize) -> bool
    requires x_value { point_at (numbers code.now.row.now) x ≡ 1 }
    requires function_table { CodeTable code.now }
    ensures { (p : CodeTable code.now)
        → NextPlace code.now (main_forms p) (onto [] (seek (main_forms p) x)) place.old x result place.new }
{
    let main = main_function(code);
    if !scan(code.row, main.start, main.end, x).meets {
        return false;
    }
    place.level = 1;
    put(&mut place.leaves, 1, x as u64);
    put(&mut place.earlier, 1, 0);
    true
}

// Whether the leaf at `head` is open after `count` earlier visits: a call, or a loop that may turn again.
fn enters(row: &[Leaf], head: usize, count: u64) -> bool
    requires { head < length row.now }
    ensures { Says result (Enters (numbers row.now) head count) }
{
    rows::kind_of(row, head) == Some(Kind::Call) || may_turn(row, head, count)
}

// Whether the leaf p can have had `count` earlier visits.
fn counted(row: &[Leaf], p: usize, count: u64) -> bool
    requires { p < length row.now }
    ensures { Says result (Counted (numbers row.now) p count) }
{
    if rows::kind_of(row, p) == Some(Kind::Loop) {
        count <= rows::detail(row, p)
    } else {
        count == 0
    }
}

// Whether p is a leaf of the level that runs the records from `from` up to `to`: that of a form there, or one in a part of an if there.
fn on_level(row: &[Leaf], from: usize, to: usize, p: usize) -> bool
    requires { Held row.now from to }
    ensures { (left : ℕ) (q : Piece (numbers row.now) left from to) (G : List Forms)
        → result ≡ there (suffix (forms G q.part.lines) p) }
{
    if p < from || to <= p {
        return false;
    }
    let mut i = from;
    // A `while`: each form says where the next one begins, so no range has these steps.
    while i < p {
        let after = rows::next(row, i);
        if after <= p {
            i = after;
        } else if rows::kind_of(row, i) == Some(Kind::If) {
            let other = rows::other(row, i);
            i = if p < other { i + 1 } else { other };
        } else {
            return false;
        }
    }
    true
}

// Whether p is a point of the level that runs the records from `from` up to `to`, and can have had `count` earlier visits there.
fn settled(row: &[Leaf], from: usize, to: usize, p: usize, count: u64) -> bool
    requires { Held row.now from to }
    ensures { (n : ℕ) (G : List Forms) (f : Forms) → Spanned (numbers row.now) G n from to f
        → Says result (Settled (numbers row.now) f p count) }
{
    on_level(row, from, to, p) && rows::point(row, p) == 1 && counted(row, p, count)
}

// Whether the place holds at each level up to its own.
fn holds(code: &Code, place: &Place) -> bool
    requires most { place.now.level ≤ 32 }
    requires function_table { CodeTable code.now }
    ensures { (p : CodeTable code.now) → Says result (PlaceHolds code.now (main_forms p) place.now place.now.level) }
{
    for l in 1..=place.level {
        let here = place.leaves[l] as usize;
        if l > 1 && !enters(code.row, place.leaves[l - 1] as usize, place.earlier[l - 1]) {
            return false;
        }
        let level = span(code, &place.leaves, l);
        if !settled(code.row, level.start, level.end, here, place.earlier[l]) {
            return false;
        }
    }
    true
}

// Whether the place is one of some run of the table: its stack decodes and its leaves are points.
pub fn place_ok(code: &Code, place: &Place) -> bool
    requires { CodeTable code.now }
    ensures { (p : CodeTable code.now) → Says result (PlaceDecodes code.now (main_forms p) place.now) }
{
    place.level != 0 && place.level < ENTRIES && holds(code, place)
}

// What remains at a first visit of a leaf with this tail inside the loop or call at `head`, where `time` remained at the visit of `head`.
fn inner_time(row: &[Leaf], totals: &Totals, head: usize, time: u64, tail: u64) -> u64
    requires { RowOpens row.now totals.now head time tail }
    ensures { result ≡ inner_time (numbers row.now) (lent_tails row.now) totals.now head time tail }
{
    if rows::kind_of(row, head) == Some(Kind::Loop) {
        return time - (rows::tail(row, head) - tail);
    }
    let f = rows::target(row, head);
    time - rows::isolated(row, head) - totals[f] + tail
}

// What remains at a first visit of the leaf of level l.
fn first_time(row: &[Leaf], totals: &Totals, place: &Place, times: &ByLevel, l: usize) -> u64
    requires { PlaceFits row.now totals.now place.now times.now l }
    ensures { result ≡ first_time (numbers row.now) (lent_tails row.now) totals.now place.now.leaves times.now l }
{
    let tail = rows::tail(row, place.leaves[l] as usize);
    if l == 1 {
        return tail;
    }
    let head = place.leaves[l - 1] as usize;
    inner_time(row, totals, head, times[l - 1], tail)
}

// What remains at the leaf of level l: a round less for each earlier visit there.
fn level_time(row: &[Leaf], totals: &Totals, place: &Place, times: &ByLevel, l: usize) -> u64
    requires { PlaceFits row.now totals.now place.now times.now l }
    ensures { result ≡ place_time row.now totals.now place.now times.now l }
{
    let first = first_time(row, totals, place, times, l);
    first - place.earlier[l] * rows::turn(row, place.leaves[l] as usize)
}

// Puts the remaining time of the place's level into the remaining times, and 0 above it.
pub fn keep_time(row: &[Leaf], totals: &Totals, place: &Place, times: &mut ByLevel)
    requires { PlaceClocked row.now totals.now place.now times.old }
    ensures times_at { (q : PlaceClocked row.now totals.now place.now times.old)
        → TimesAt (main_forms q.clocked.costed.decoded.table) times.new q.clocked.costed.decoded.levels }
    ensures zeros { (k : ℕ) → place.now.level < k → get_or times.new k 0 ≡ 0 }
{
    let time = level_time(row, totals, place, times, place.level);
    put(times, place.level, time);
}

// Whether the remaining times up to the place's level are those of the place, and level 0 holds the total.
pub fn times_ok(code: &Code, totals: &Totals, place: &Place, times: &ByLevel) -> bool
    requires { PlaceCosted code.now totals.now place.now }
    ensures { (q : PlaceCosted code.now totals.now place.now)
        → Says result (TimesAt (main_forms q.costed.decoded.table) times.now q.costed.decoded.levels) }
{
    if times[0] != totals[code.functions - 1] {
        return false;
    }
    for l in 1..=place.level {
        if times[l] != level_time(code.row, totals, place, times, l) {
            return false;
        }
    }
    true
}
