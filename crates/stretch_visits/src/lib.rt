// How often each leaf is visited on the way that makes up a stretch (document 02, L9): of the ways from a place up to the next point or the end one with the
// largest sum; where two have equal sums, the one by then, and the one that leaves the loop.
#![tactic(auto)]

ghost use Rattle.std.specs.Prelude.{◌≡◌, ◌+◌, ◌*◌, ◌≤◌, ◌<◌, length, get_or, drop};
ghost use Rattle.model.specs.Stack.{below, whole};
ghost use Rattle.rows.specs.Rows.{kind_at, detail_at, after_at, block_at};
ghost use Rattle.rows.specs.Leaves.{numbers};
ghost use Rattle.rows.specs.Costs.{limit, cost_in};
ghost use Rattle.place.specs.Spans.{first_form};
ghost use Rattle.outlook.specs.Loads.{PlacePriced, PricedRun};
ghost use Rattle.outlook.specs.Quiets.{roof, still, PricedForms, priced_forms};
ghost use Rattle.stretch_visits.specs.Counts.{CountsOf, PlaceFew};
ghost use Rattle.stretch_visits.specs.Private.{rest_of, Grown, Room, RoomInner, RoomBehind, RunRoom, PlaceRoom, CallsHeld};
ghost use Rattle.stretch_visits.specs.Private.{NotedForms, NotedFirst, NotedParts, NotedRounds, NotedBehind, NotedRun, NotedOnward, AllRun};

use outlook::{downward, scan};
use place::{ByLevel, Place};
use rows::{Kind, MAX_FUNCTIONS, MAX_LEAVES, PricedCode};

// What is noted of a way: how often each leaf is visited (where a visit of it costs something), and how often each function is still to be run.
#[derive(Clone, Copy)]
struct Notes {
    leaves: [u64; MAX_LEAVES],
    calls: [u64; MAX_FUNCTIONS],
}

// Notes visits of the leaf i. (One that costs nothing is not noted: how often it is visited can pass any number.)
fn visit(priced: &PricedCode, i: usize, times: u64, notes: &mut Notes)
    requires inside { (i < length priced.now.code.row.now) × (i < 512) }
    requires room { 0 < cost_in priced.now.cost (block_at (numbers priced.now.code.row.now) i) → get_or notes.old.leaves i 0 + times ≤ roof }
    ensures grown { Grown i times (cost_in priced.now.cost (block_at (numbers priced.now.code.row.now) i)) notes.old.leaves notes.new.leaves }
    ensures calls { notes.new.calls ≡ notes.old.calls }
{
    if priced.cost.of(priced.code.row, i) > 0 {
        notes.leaves[i] += times;
    }
}

// Notes that the function which the call at i names is still to be run.
fn enter(priced: &PricedCode, i: usize, times: u64, notes: &mut Notes)
    requires inside { (i < length priced.now.code.row.now) × (detail_at (numbers priced.now.code.row.now) i < 16) }
    requires room { 0 < get_or priced.now.totals.now (detail_at (numbers priced.now.code.row.now) i) 0
        → get_or notes.old.calls (detail_at (numbers priced.now.code.row.now) i) 0 + times ≤ roof }
    ensures grown { let f = detail_at (numbers priced.now.code.row.now) i in Grown f times (get_or priced.now.totals.now f 0) notes.old.calls notes.new.calls }
    ensures leaves { notes.new.leaves ≡ notes.old.leaves }
{
    let function = rows::target(priced.code.row, i);
    if priced.totals[function] > 0 {
        notes.calls[function] += times;
    }
}

// Notes the rounds of the silent loop at i, to its bound. (Where a round costs nothing, leaving does as well, and is taken.)
#[cycle(form_note_parts_turns)]
fn turns(priced: &PricedCode, i: usize, to: usize, times: u64, notes: &mut Notes)
    requires i_lt_to { i < to }
    requires a_loop { kind_at (numbers priced.now.code.row.now) i ≡ 2 }
    requires held { RoomInner priced.now i to 0 times notes.old }
    ensures { (h : PricedForms priced.now i to) → NotedRounds h times notes.old notes.new }
{
    let row = priced.code.row;
    if priced.cost.turn(row, i) > 0 {
        let rounds = times * rows::detail(row, i);
        visit(priced, i, rounds, notes);
        note(priced, i + 1, rows::after(row, i), 0, rounds, notes);
    }
}

// Notes the part of the if at i that the way takes, where what follows the forms up to `to` has the sum e, and says whether it leads through.
#[cycle(form_note_parts_turns)]
fn parts(priced: &PricedCode, i: usize, to: usize, e: u64, times: u64, notes: &mut Notes) -> bool
    requires i_lt_to { i < to }
    requires an_if { kind_at (numbers priced.now.code.row.now) i ≡ 3 }
    requires held { RoomInner priced.now i to e times notes.old }
    ensures { (h : PricedForms priced.now i to) → NotedParts h (still (cost_in priced.now.cost) (rest_of h) e) times notes.old notes.new result }
{
    let row = priced.code.row;
    let other = rows::other(row, i);
    let after = rows::after(row, i);
    let rest = scan(priced, after, to).sum(e);
    let first = scan(priced, i + 1, other).sum(rest);
    let second = scan(priced, other, after).sum(rest);
    if first < second {
        note(priced, other, after, rest, times, notes)
    } else {
        note(priced, i + 1, other, rest, times, notes)
    }
}

// Notes the way through the form at i, the first of those up to `to`, behind which follows what has the sum e, and says whether it leads through.
#[cycle(form_note_parts_turns)]
fn form(priced: &PricedCode, i: usize, to: usize, e: u64, times: u64, notes: &mut Notes) -> bool
    requires i_lt_to { i < to }
    requires held { Room priced.now i to e times notes.old }
    ensures { (h : PricedForms priced.now i to) → NotedFirst h (still (cost_in priced.now.cost) (rest_of h) e) times notes.old notes.new result }
{
    let row = priced.code.row;
    if rows::point(row, i) == 1 {
        return false;
    }
    visit(priced, i, times, notes);
    match rows::kind_of(row, i) {
        Some(Kind::Call) => enter(priced, i, times, notes),
        Some(Kind::Loop) => turns(priced, i, to, times, notes),
        Some(Kind::If) => return parts(priced, i, to, e, times, notes),
        _ => {}
    }
    true
}

// Notes the way through the forms from `from` up to `to`, where what follows has the sum e, and says whether it leads through.
#[cycle(form_note_parts_turns)]
fn note(priced: &PricedCode, from: usize, to: usize, e: u64, times: u64, notes: &mut Notes) -> bool
    requires held { Room priced.now from to e times notes.old }
    ensures { (h : PricedForms priced.now from to) → NotedForms h e times notes.old notes.new result }
{
    let mut i = from;
    // A `while`: each form says where the next one begins, so no range has these steps.
    while i < to {
        if !form(priced, i, to, e, times, notes) {
            return false;
        }
        i = rows::after(priced.code.row, i);
    }
    true
}

// Notes what the functions run that are still to be run, the last first: a function calls earlier ones alone.
fn run_calls(priced: &PricedCode, notes: &mut Notes)
    requires { CallsHeld priced.now notes.old }
    ensures { (h : CallsHeld priced.now notes.old) → AllRun h notes.new.leaves }
{
    for f in (0..MAX_FUNCTIONS).rev() {
        let times = notes.calls[f];
        if times > 0 {
            notes.calls[f] = 0;
            let lines = priced.code.function(f);
            note(priced, lines.start, lines.end, 0, times, notes);
        }
    }
}

// Notes the way behind the leaf p of the form at i, the first of those up to `to`, behind which follows what has the sum e, and says whether it leads out of
// the form.
#[cycle(behind_within)]
fn within(priced: &PricedCode, i: usize, to: usize, p: usize, e: u64, notes: &mut Notes) -> bool
    requires first { p < after_at (numbers priced.now.code.row.now) i }
    requires held { RoomBehind priced.now i to p e notes.old }
    ensures { (h : PricedForms priced.now i to)
        → NotedBehind h (first_form (priced_forms h)) p (still (cost_in priced.now.cost) (rest_of h) e) notes.old notes.new result }
{
    let row = priced.code.row;
    if rows::kind_of(row, i) != Some(Kind::If) {
        return true;
    }
    if p == i {
        return parts(priced, i, to, e, 1, notes);
    }
    let other = rows::other(row, i);
    let after = rows::after(row, i);
    let rest = scan(priced, after, to).sum(e);
    if p < other {
        behind(priced, i + 1, other, p, rest, notes)
    } else {
        behind(priced, other, after, p, rest, notes)
    }
}

// Notes the way behind the leaf p of the forms from `from` up to `to`, a leaf of their level, where what follows them has the sum e, and says whether it leads
// through.
#[cycle(behind_within)]
fn behind(priced: &PricedCode, from: usize, to: usize, p: usize, e: u64, notes: &mut Notes) -> bool
    requires held { RoomBehind priced.now from to p e notes.old }
    ensures { (h : PricedForms priced.now from to) → NotedBehind h (priced_forms h) p e notes.old notes.new result }
{
    let row = priced.code.row;
    let mut i = from;
    let mut after = rows::next(row, i);
    // A `while`: each form says where the next one begins, so no range has these steps.
    while after <= p {
        i = after;
        after = rows::next(row, i);
    }
    within(priced, i, to, p, e, notes) && note(priced, after, to, e, 1, notes)
}

// The largest sum of what follows the forms of level l: level by level down to the end, where it lies in a call; nothing where it lies in a loop, whose
// condition is a point.
fn beneath(priced: &PricedCode, leaves: &ByLevel, l: usize) -> u64
    requires { PricedRun priced.now leaves.now l }
    ensures small { result ≤ l * limit }
    ensures sum { (q : PricedRun priced.now leaves.now l)
        → result ≡ still (cost_in priced.now.cost) (below (drop 1 q.running.levels)) 0 }
{
    if l == 1 {
        return 0;
    }
    let head = leaves[l - 1] as usize;
    if rows::kind_of(priced.code.row, head) == Some(Kind::Loop) {
        return 0;
    }
    downward(priced, leaves, l - 1).sum(0)
}

// Notes the way behind the leaf of level l, level by level down to the end.
fn levels(priced: &PricedCode, leaves: &ByLevel, l: usize, notes: &mut Notes)
    requires { RunRoom priced.now leaves.now l notes.old }
    ensures { (q : PricedRun priced.now leaves.now l) → NotedRun q notes.old notes.new }
{
    let level = place::span(&priced.code, leaves, l);
    let e = beneath(priced, leaves, l);
    let out = behind(priced, level.start, level.end, leaves[l] as usize, e, notes);
    if !out || l == 1 {
        return;
    }
    let head = leaves[l - 1] as usize;
    if rows::kind_of(priced.code.row, head) != Some(Kind::Loop) {
        levels(priced, leaves, l - 1, notes);
    }
}

// Notes the way behind the visit of this place. (A loop that may turn again is left where that sums to as much.)
fn onward(priced: &PricedCode, place: &Place, notes: &mut Notes)
    requires { PlaceRoom priced.now place.now notes.old }
    ensures { (q : PlacePriced priced.now place.now) → NotedOnward q notes.old notes.new }
{
    let row = priced.code.row;
    let here = place.leaves[place.level] as usize;
    let under = downward(priced, &place.leaves, place.level).sum(0);
    if rows::kind_of(row, here) == Some(Kind::Call) {
        let inner = place::opening(&priced.code, here);
        if !note(priced, inner.start, inner.end, under, 1, notes) {
            return;
        }
    } else if place::may_turn(row, here, place.earlier[place.level]) {
        let inner = place::opening(&priced.code, here);
        if under < scan(priced, inner.start, inner.end).sum(0) {
            note(priced, inner.start, inner.end, 0, 1, notes);
            return;
        }
    }
    levels(priced, &place.leaves, place.level, notes);
}

// How often each leaf is visited on the way of the stretch at the report of this place. (Of a leaf whose visits cost nothing that is not said.)
pub fn leaf_counts(priced: &PricedCode, place: &Place) -> [u64; MAX_LEAVES]
    requires { PlaceFew priced.now place.now }
    ensures { (q : PlaceFew priced.now place.now)
        → CountsOf (cost_in priced.now.cost) (numbers priced.now.code.row.now) (whole q.priced.decoded.levels) result }
{
    let mut notes = Notes {
        leaves: [0; MAX_LEAVES],
        calls: [0; MAX_FUNCTIONS],
    };
    let here = place.leaves[place.level] as usize;
    visit(priced, here, 1, &mut notes);
    onward(priced, place, &mut notes);
    run_calls(priced, &mut notes);
    notes.leaves
}
