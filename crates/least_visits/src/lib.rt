// How many visits the forms of a row take at least (document 02, L10): for each form, from it to the end of the function, part or body that it stands in.
#![tactic(auto)]

ghost use Rattle.std.specs.Prelude.{◌≤◌, get_or};
ghost use Rattle.place.specs.Lent.{CodeTable};
ghost use Rattle.least_visits.specs.Least.{GivesLeasts};
ghost use Rattle.least_visits.specs.Private.{Linked, NotesPart};

use rows::{Code, Kind, MAX_FUNCTIONS, MAX_LEAVES};

// The most visits of a short run.
pub const MOST_VISITS: usize = 64;

// More visits than a short run has: numbers of visits are held here.
pub const MANY: u64 = MOST_VISITS as u64 + 1;

// What is noted: for each form the least number of visits from it on, and for each function that of a run of it.
#[derive(Clone, Copy)]
struct Notes {
    leasts: [u64; MAX_LEAVES],
    functions: [u64; MAX_FUNCTIONS],
}

// Notes the least numbers of visits of the forms from `from` up to `to`, and gives that of all of them.
fn note(code: &Code, notes: &mut Notes, from: usize, to: usize) -> u64
    requires { Linked code.now notes.old.functions from to }
    ensures { NotesPart code.now notes.old notes.new from to result }
{
    if from >= to {
        return 0;
    }
    let row = code.row;
    let after = rows::after(row, from);
    let rest = note(code, notes, after, to);
    let inner = match rows::kind_of(row, from) {
        Some(Kind::Call) => notes.functions[rows::target(row, from)],
        Some(Kind::Loop) => {
            note(code, notes, from + 1, after);
            0
        }
        Some(Kind::If) => {
            let other = rows::other(row, from);
            let first = note(code, notes, from + 1, other);
            let second = note(code, notes, other, after);
            first.min(second)
        }
        _ => 0,
    };
    let least = MANY.min(1 + inner + rest);
    notes.leasts[from] = least;
    least
}

// The least number of visits from each form of the code on, held at 65.
pub fn least_visits(code: &Code) -> [u64; MAX_LEAVES]
    requires table { CodeTable code.now }
    requires few { code.now.functions ≤ 16 }
    requires within { get_or code.now.bounds.now code.now.functions 0 ≤ 512 }
    ensures { GivesLeasts code.now result }
{
    let mut notes = Notes {
        leasts: [0; MAX_LEAVES],
        functions: [0; MAX_FUNCTIONS],
    };
    for f in 0..code.functions {
        let lines = code.function(f);
        notes.functions[f] = note(code, &mut notes, lines.start, lines.end);
    }
    notes.leasts
}
