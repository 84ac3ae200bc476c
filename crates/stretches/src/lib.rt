// The stretches of a plan's leaves, one number for each: the largest stretch of each point over all its visits. Each leaf is looked at a fixed number of
// times, whatever the nesting: siblings are walked from the last to the first, with what follows them at hand.
#![tactic(auto)]

ghost use Rattle.std.specs.Prelude.{◌≡◌, length, set};
ghost use Prim.Native.Nat.{ℕ, ◌+◌, ◌≤◌, ◌<◌};
ghost use Rattle.std.proofs.lemmas.List.Edits.{sets};
ghost use Rattle.model.specs.Places.{pick};
ghost use Rattle.model.specs.Static.{line_silence};
ghost use Rattle.rows.specs.Rows.{kind_at, block_at};
ghost use Rattle.rows.specs.Leaves.{numbers};
ghost use Rattle.rows.specs.Costs.{limit, cost_in};
ghost use Rattle.rows.specs.Plans.{lines_of};
ghost use Rattle.columns.specs.Sums.{ceiling, lead};
ghost use Rattle.columns.specs.Columns.{column_of};
ghost use Rattle.columns.specs.Walks.{front, FormHeld, Kept};
ghost use Rattle.outlook.specs.Quiets.{quiet_sum};
ghost use Rattle.stretches.specs.Stretches.{leaf_stretch, stretch_rule, follow_calls, stretches_written, PricedSummed};
ghost use Rattle.stretches.specs.Private.{WithinLimit, first_silence, head_at, WithinLimits, follow_first, PricedSized, PricedReady};

use columns::{callee, form_kind, list};
use outlook::{NOTHING, Quiet};
use rows::{Kind, MAX_FUNCTIONS, MAX_LEAVES, PricedCode};

// The total of the leaf, call or loop at i.
fn weight(priced: &PricedCode, i: usize) -> u64
    requires kind { kind_at (numbers priced.now.code.row.now) i < 3 }
    requires ready { PricedReady priced.now i 0 }
    ensures { (p : PricedReady priced.now i 0)
        → result ≡ lead (cost_in priced.now.cost) priced.now.totals.now p.form.part.lines }
{
    let row = priced.code.row;
    let c = priced.cost.of(row, i);
    match form_kind(row, i) {
        Kind::Call => c + priced.totals[callee(row, i)],
        Kind::Loop => c + rows::detail(row, i) * priced.cost.turn(row, i),
        _ => c,
    }
}

// The stretch in quiet forms where s follows them.
fn before(quiet: Quiet, s: u64) -> u64
    requires { WithinLimit quiet × (s ≤ limit) }
    ensures { result ≡ quiet_sum quiet s }
{
    match quiet.pass {
        Some(pass) => quiet.hit.max(pass + s),
        None => quiet.hit,
    }
}

// Writes the stretch of the record i, where s follows its visit; 0 if it is no point.
fn put_stretch(priced: &PricedCode, i: usize, s: u64, out: &mut [u64; MAX_LEAVES])
    requires { (i < length priced.now.code.row.now) × (cost_in priced.now.cost (block_at (numbers priced.now.code.row.now) i) ≤ 1048576)
        × (s ≤ ceiling) × (i < 512) }
    ensures { out.new ≡ set out.old i (leaf_stretch (cost_in priced.now.cost) (block_at (numbers priced.now.code.row.now) i) s) }
{
    out[i] = if rows::point(priced.code.row, i) == 1 {
        priced.cost.of(priced.code.row, i) + s
    } else {
        0
    };
}

// What is silent before the record i, where t would be, were it no point.
fn silent_before(priced: &PricedCode, i: usize, t: u64) -> u64
    requires { i < length priced.now.code.row.now }
    ensures { result ≡ pick (block_at (numbers priced.now.code.row.now) i).point 0 t }
{
    if rows::point(priced.code.row, i) == 1 {
        0
    } else {
        t
    }
}

// Writes the stretch of the leaf or call at i, which s follows, and notes what follows the function that it calls.
// Here and below `heads`, `s`, `seq`, `out` and `follows` go one by one: three are written and s changes at each form, so of one struct each clause would name
// a part alone.
fn stretch_flat(
    priced: &PricedCode,
    i: usize,
    heads: &[Quiet; MAX_FUNCTIONS],
    s: u64,
    out: &mut [u64; MAX_LEAVES],
    follows: &mut [u64; MAX_FUNCTIONS],
)
    requires kind { kind_at (numbers priced.now.code.row.now) i < 2 }
    requires under { WithinLimits heads.now × (s ≤ limit) }
    requires form { FormHeld priced.now.code.row.now i }
    ensures out_after { (p : FormHeld priced.now.code.row.now i) → out.new ≡ sets out.old i
        (front (stretch_rule (cost_in priced.now.cost) priced.now.totals.now (λ f x. quiet_sum (head_at heads.now f) x)) p.part.lines s) }
    ensures follows_after { (p : FormHeld priced.now.code.row.now i)
        → follows.new ≡ follow_first (cost_in priced.now.cost) priced.now.totals.now p.part.lines s follows.old }
{
    match form_kind(priced.code.row, i) {
        Kind::Call => {
            let f = callee(priced.code.row, i);
            follows[f] = follows[f].max(s);
            put_stretch(priced, i, before(heads[f], s), out);
        }
        _ => put_stretch(priced, i, s, out),
    }
}

// Writes the stretch of each leaf of the if at i, which s follows, and notes what follows the functions
// that it calls; returns the silence from i on.
#[cycle(stretch_block_stretch_form_stretch_if)]
fn stretch_if(
    priced: &PricedCode,
    i: usize,
    heads: &[Quiet; MAX_FUNCTIONS],
    s: u64,
    seq: &mut [usize; MAX_LEAVES],
    out: &mut [u64; MAX_LEAVES],
    follows: &mut [u64; MAX_FUNCTIONS],
) -> u64
    requires kind { kind_at (numbers priced.now.code.row.now) i ≡ 3 }
    requires low { WithinLimits heads.now }
    requires ready { PricedReady priced.now i s }
    ensures value { (p : PricedReady priced.now i s)
        → result ≡ first_silence (cost_in priced.now.cost) priced.now.totals.now p.form.part.lines s }
    ensures out_after { (p : PricedReady priced.now i s)
        → out.new ≡ sets out.old i
        (front (stretch_rule (cost_in priced.now.cost) priced.now.totals.now (λ f x. quiet_sum (head_at heads.now f) x)) p.form.part.lines s) }
    ensures follows_after { (p : PricedReady priced.now i s)
        → follows.new ≡ follow_first (cost_in priced.now.cost) priced.now.totals.now p.form.part.lines s follows.old }
    ensures kept { Kept (i + 1) seq.old seq.new }
{
    let after = rows::after(priced.code.row, i);
    let other = rows::other(priced.code.row, i);
    let a = stretch_block(priced, i + 1, other, heads, s, seq, out, follows);
    let b = stretch_block(priced, other, after, heads, s, seq, out, follows);
    let x = a.max(b);
    put_stretch(priced, i, x, out);
    silent_before(priced, i, priced.cost.of(priced.code.row, i) + x)
}

// Writes the stretch of each leaf of the form at i, which s follows, and notes what follows the functions
// that it calls; returns the silence from i on.
#[cycle(stretch_block_stretch_form_stretch_if)]
fn stretch_form(
    priced: &PricedCode,
    i: usize,
    heads: &[Quiet; MAX_FUNCTIONS],
    s: u64,
    seq: &mut [usize; MAX_LEAVES],
    out: &mut [u64; MAX_LEAVES],
    follows: &mut [u64; MAX_FUNCTIONS],
) -> u64
    requires low { WithinLimits heads.now }
    requires ready { PricedReady priced.now i s }
    ensures value { (p : PricedReady priced.now i s)
        → result ≡ first_silence (cost_in priced.now.cost) priced.now.totals.now p.form.part.lines s }
    ensures out_after { (p : PricedReady priced.now i s)
        → out.new ≡ sets out.old i
        (front (stretch_rule (cost_in priced.now.cost) priced.now.totals.now (λ f x. quiet_sum (head_at heads.now f) x)) p.form.part.lines s) }
    ensures follows_after { (p : PricedReady priced.now i s)
        → follows.new ≡ follow_first (cost_in priced.now.cost) priced.now.totals.now p.form.part.lines s follows.old }
    ensures kept { Kept (i + 1) seq.old seq.new }
{
    let kind = form_kind(priced.code.row, i);
    if let Kind::If = kind {
        return stretch_if(priced, i, heads, s, seq, out, follows);
    }
    let t = silent_before(priced, i, weight(priced, i) + s);
    if let Kind::Loop = kind {
        let after = rows::after(priced.code.row, i);
        let b = stretch_block(priced, i + 1, after, heads, 0, seq, out, follows);
        put_stretch(priced, i, s.max(b), out);
        return t;
    }
    stretch_flat(priced, i, heads, s, out, follows);
    t
}

// Writes the stretch of each leaf from `from` up to `to`, which s follows, and notes what follows the functions that they call; returns the
// silence from `from` on.
#[cycle(stretch_block_stretch_form_stretch_if)]
fn stretch_block(
    priced: &PricedCode,
    from: usize,
    to: usize,
    heads: &[Quiet; MAX_FUNCTIONS],
    s: u64,
    seq: &mut [usize; MAX_LEAVES],
    out: &mut [u64; MAX_LEAVES],
    follows: &mut [u64; MAX_FUNCTIONS],
) -> u64
    requires low { WithinLimits heads.now }
    requires sized { PricedSized priced.now from to s }
    ensures value { (p : PricedSized priced.now from to s)
        → result ≡ line_silence (cost_in priced.now.cost) priced.now.totals.now p.forms.part.lines s }
    ensures out_after { (p : PricedSized priced.now from to s)
        → out.new ≡ sets out.old from
        (column_of (stretch_rule (cost_in priced.now.cost) priced.now.totals.now (λ f x. quiet_sum (head_at heads.now f) x)) p.forms.part.lines s) }
    ensures follows_after { (p : PricedSized priced.now from to s)
        → follows.new ≡ follow_calls (cost_in priced.now.cost) priced.now.totals.now p.forms.part.lines s follows.old }
    ensures kept { Kept from seq.old seq.new }
{
    let n = list(priced.code.row, from, to, seq);
    let mut t = s;
    for k in (0..n).rev() {
        let i = seq[from + k];
        t = stretch_form(priced, i, heads, t, seq, out, follows);
    }
    t
}

// The silence of each of the functions.
fn silence_all(priced: &PricedCode) -> [Quiet; MAX_FUNCTIONS]
    requires n_in_bounds { priced.now.code.functions < length priced.now.code.bounds.now }
    requires summed { PricedSummed priced.now }
    ensures under { WithinLimits result }
    ensures s_value { (v : PricedSummed priced.now) (f : ℕ) (s : ℕ) → f < priced.now.code.functions
        → quiet_sum (head_at result f) s ≡ line_silence (cost_in priced.now.cost) priced.now.totals.now (lines_of v.plan f) s }
{
    let mut heads: [Quiet; MAX_FUNCTIONS] = [NOTHING; MAX_FUNCTIONS];
    for f in 0..priced.code.functions {
        let leaves = priced.code.function(f);
        heads[f] = outlook::scan(priced, leaves.start, leaves.end);
    }
    heads
}

// Writes the stretch of every leaf of the functions, from the last function to the first.
fn stretch_all(priced: &PricedCode, heads: &[Quiet; MAX_FUNCTIONS], out: &mut [u64; MAX_LEAVES])
    requires n_in_bounds { priced.now.code.functions < length priced.now.code.bounds.now }
    requires low { WithinLimits heads.now }
    requires summed { PricedSummed priced.now }
    ensures { (v : PricedSummed priced.now)
        → out.new ≡ stretches_written (cost_in priced.now.cost) priced.now.totals.now (λ f x. quiet_sum (head_at heads.now f) x)
        (lines_of v.plan) priced.now.code.bounds.now priced.now.code.functions priced.now.code.functions out.old }
{
    let mut seq: [usize; MAX_LEAVES] = [0; MAX_LEAVES];
    let mut follows: [u64; MAX_FUNCTIONS] = [0; MAX_FUNCTIONS];
    for f in (0..priced.code.functions).rev() {
        let leaves = priced.code.function(f);
        let s = follows[f];
        stretch_block(
            priced,
            leaves.start,
            leaves.end,
            heads,
            s,
            &mut seq,
            out,
            &mut follows,
        );
    }
}

// Writes the stretch of every leaf of the functions of a code whose totals and sums of rounds are exact.
pub fn stretches(priced: &PricedCode, stretch: &mut [u64; MAX_LEAVES])
    requires n_in_bounds { priced.now.code.functions < length priced.now.code.bounds.now }
    requires summed { PricedSummed priced.now }
    ensures { (v : PricedSummed priced.now)
        → stretch.new ≡ stretches_written (cost_in priced.now.cost) priced.now.totals.now
        (λ f s. line_silence (cost_in priced.now.cost) priced.now.totals.now (lines_of v.plan f) s)
        (lines_of v.plan) priced.now.code.bounds.now priced.now.code.functions priced.now.code.functions stretch.old }
{
    let heads = silence_all(priced);
    stretch_all(priced, &heads, stretch);
}
