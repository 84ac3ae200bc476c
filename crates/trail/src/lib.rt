// The short runs of a plan on a row of leaf records, one after the other in order (document 02, L10): a run with what is left to run behind each of its
// visits, and the visits at which it can be left for a later run.
#![tactic(auto)]

ghost use Rattle.std.specs.Prelude.{◌≡◌, true, ◌<◌};
ghost use Rattle.rows.specs.Rows.{kind_at, detail_at};
ghost use Rattle.rows.specs.Leaves.{numbers};
ghost use Rattle.trail.specs.Trails.{ShortRunsOn, TrailHeld, GivesFirst, GivesNext};
ghost use Rattle.trail.specs.Private.{VisitNext, ForkedOn, Onwards, CanPut, Puts, CanGo, GoesOn, CanOpen, OpensWith};
ghost use Rattle.trail.specs.Private.{CanChoose, Chooses, CanDescend, Descends};

use least_visits::{MANY, MOST_VISITS};
use rows::{Code, Kind, MAX_LEAVES};
use std::ops::Range;

// How many rests one visit needs at most: on either of two ways the inner forms and the outer ones.
const RESTS_A_VISIT: usize = 4;

// How many rests there can be at most: none, that of the main function, and those of each visit.
const RESTS: usize = 2 + MOST_VISITS * RESTS_A_VISIT;

// The forms from one leaf up to another, of which the loop that they begin with has gone round so often.
#[derive(Clone, Copy)]
struct Extent {
    from: usize,
    to: usize,
    rounds: u64,
}

// What is left to run: forms, and then the rest with this number; and the least number of visits of all that.
#[derive(Clone, Copy)]
struct Rest {
    forms: Extent,
    behind: usize,
    least: u64,
}

// The rest with number 0: nothing.
const NOTHING: Rest = Rest {
    forms: Extent {
        from: 0,
        to: 0,
        rounds: 0,
    },
    behind: 0,
    least: 0,
};

// A run: how many visits it has, the leaf of each, and behind which of them it can be left for a later run, with the number of what would be left to run there.
// What is left to run stands in `rests`.
#[derive(Clone, Copy)]
pub struct Trail {
    pub len: usize,
    pub leaves: [usize; MOST_VISITS],
    later: [Option<usize>; MOST_VISITS],
    rests: [Rest; RESTS],
}

// The forms of these records.
fn whole(records: Range<usize>) -> Extent
    ensures { result ≡ record { from = records.start; to = records.end; rounds = 0 } }
{
    Extent {
        from: records.start,
        to: records.end,
        rounds: 0,
    }
}

// What is run behind a visit: first the inner forms, then the outer ones.
#[derive(Clone, Copy)]
struct Following {
    inner: Extent,
    outer: Extent,
}

// Whether there are two ways behind the visit that the forms open with.
fn forked(code: &Code, forms: Extent) -> bool
    requires { VisitNext code.now forms }
    ensures { ForkedOn code.now forms result }
{
    match rows::kind_of(code.row, forms.from) {
        Some(Kind::Loop) => forms.rounds < rows::detail(code.row, forms.from),
        Some(Kind::If) => true,
        _ => false,
    }
}

// What is run behind the visit that the forms open with, on the first way or the second: a loop is left or goes round, of an if the then or the else part runs.
fn onward(code: &Code, forms: Extent, second: bool) -> Following
    requires there { VisitNext code.now forms }
    requires round { second ≡ true → kind_at (numbers code.now.row.now) forms.from ≡ 2 → forms.rounds < detail_at (numbers code.now.row.now) forms.from }
    ensures { Onwards code.now forms second result }
{
    let row = code.row;
    let here = forms.from;
    let after = rows::after(row, here);
    let outer = Extent {
        from: after,
        to: forms.to,
        rounds: 0,
    };
    match rows::kind_of(row, here) {
        Some(Kind::Call) => Following {
            inner: whole(code.function(rows::target(row, here))),
            outer,
        },
        Some(Kind::Loop) if second => Following {
            inner: whole(here + 1..after),
            outer: Extent {
                rounds: forms.rounds + 1,
                ..forms
            },
        },
        Some(Kind::If) if second => Following {
            inner: whole(rows::other(row, here)..after),
            outer,
        },
        Some(Kind::If) => Following {
            inner: whole(here + 1..rows::other(row, here)),
            outer,
        },
        _ => Following {
            inner: whole(after..after),
            outer,
        },
    }
}

// Puts forms in front of the rest with the number `behind`, as the rest with this number, and gives its number; where there are none, that of the other.
fn put(
    leasts: &[u64; MAX_LEAVES],
    rests: &mut [Rest; RESTS],
    number: usize,
    forms: Extent,
    behind: usize,
) -> usize
    requires { CanPut leasts.now rests.old number forms behind }
    ensures { Puts leasts.now rests.old rests.new number forms behind result }
{
    if forms.from == forms.to {
        return behind;
    }
    rests[number] = Rest {
        forms,
        behind,
        least: MANY.min(leasts[forms.from] + rests[behind].least),
    };
    number
}

// Puts what is left behind the visit that the rest with the number `here` opens with, on the first way or the second, as one or two rests from this number on,
// and gives the number of what is left.
fn behind(
    code: &Code,
    leasts: &[u64; MAX_LEAVES],
    rests: &mut [Rest; RESTS],
    here: usize,
    number: usize,
    second: bool,
) -> usize
    requires { CanGo code.now leasts.now rests.old here number second }
    ensures { GoesOn code.now leasts.now rests.old rests.new here number second result }
{
    let rest = rests[here];
    let on = onward(code, rest.forms, second);
    let outer = put(leasts, rests, number, on.outer, rest.behind);
    put(leasts, rests, number + 1, on.inner, outer)
}

// What is left opens with: 0 at the end, else one more than the leaf that is visited next.
fn next_leaf(rests: &[Rest; RESTS], here: usize) -> usize
    requires { CanOpen rests.now here }
    ensures { OpensWith rests.now here result }
{
    if here == 0 {
        0
    } else {
        rests[here].forms.from + 1
    }
}

// The way that is taken behind a visit, and the other one, where it can be taken for a later run.
#[derive(Clone, Copy)]
struct Choice {
    go: usize,
    later: Option<usize>,
}

// Takes the way behind the visit number k that opens with the lower leaf number, and keeps the other one for a later run if it opens with another leaf; but a
// way on which no run ends within 64 visits is neither taken nor kept.
fn choose(
    code: &Code,
    leasts: &[u64; MAX_LEAVES],
    rests: &mut [Rest; RESTS],
    here: usize,
    k: usize,
) -> Choice
    requires { CanChoose code.now leasts.now rests.old here k }
    ensures { Chooses code.now leasts.now rests.old rests.new here k result }
{
    let forms = rests[here].forms;
    let number = 2 + k * RESTS_A_VISIT;
    let one = behind(code, leasts, rests, here, number, false);
    if !forked(code, forms) {
        return Choice {
            go: one,
            later: None,
        };
    }
    let other = behind(code, leasts, rests, here, number + 2, true);
    let a = next_leaf(rests, one);
    let b = next_leaf(rests, other);
    let (low, high) = if b < a { (other, one) } else { (one, other) };
    let most = (MOST_VISITS - 1 - k) as u64;
    let fits = rests[low].least <= most;
    let keep = a != b && rests[high].least <= most;
    Choice {
        go: if fits { low } else { high },
        later: if fits && keep { Some(high) } else { None },
    }
}

// From the visit number k on the first run of what is left there, the rest with the number `here`.
fn descend(code: &Code, leasts: &[u64; MAX_LEAVES], trail: &mut Trail, k: usize, here: usize)
    requires { CanDescend code.now leasts.now trail.old k here }
    ensures { Descends code.now leasts.now trail.old trail.new k here }
{
    if here == 0 {
        trail.len = k;
        return;
    }
    trail.leaves[k] = trail.rests[here].forms.from;
    let choice = choose(code, leasts, &mut trail.rests, here, k);
    trail.later[k] = choice.later;
    descend(code, leasts, trail, k + 1, choice.go);
}

// The first of all short runs, if there is one.
pub fn first(code: &Code, leasts: &[u64; MAX_LEAVES]) -> Option<Trail>
    requires { ShortRunsOn code.now leasts.now }
    ensures { GivesFirst code.now leasts.now result }
{
    let mut trail = Trail {
        len: 0,
        leaves: [0; MOST_VISITS],
        later: [None; MOST_VISITS],
        rests: [NOTHING; RESTS],
    };
    let main = code.function(code.functions - 1);
    let here = put(leasts, &mut trail.rests, 1, whole(main), 0);
    if trail.rests[here].least > MOST_VISITS as u64 {
        return None;
    }
    descend(code, leasts, &mut trail, 0, here);
    Some(trail)
}

// Goes on to the next short run, and says whether there was one.
pub fn next(code: &Code, leasts: &[u64; MAX_LEAVES], trail: &mut Trail) -> bool
    requires { TrailHeld code.now leasts.now trail.old }
    ensures { GivesNext code.now leasts.now trail.old trail.new result }
{
    for k in (0..trail.len).rev() {
        if let Some(rest) = trail.later[k] {
            trail.later[k] = None;
            descend(code, leasts, trail, k + 1, rest);
            return true;
        }
    }
    false
}
