// Reads a plan from standard input and prints its listing, or its refusal, to standard output (document 01, 'Plans worked through').
#![tactic(auto)]

use listing::{LISTING, list_text};
use reader::TEXT;

fn main(rt: HostRuntime) {
    let mut text = [0u8; TEXT];
    let n = files::input(&rt, &mut text);
    let mut out = [0u8; LISTING];
    let size = list_text(&mut out, &text[..n]);
    let _ = rt.write_all(&out[..size]);
}
