// Reads a plan from standard input and prints its review sheet, or its refusal, to standard output (document 02, L5).
#![tactic(auto)]

use pages::{SHEET, sheet_text};
use reader::TEXT;

fn main(rt: HostRuntime) {
    let mut text = [0u8; TEXT];
    let n = files::input(&rt, &mut text);
    let mut out = [0u8; SHEET];
    let size = sheet_text(&mut out, &text[..n]);
    let _ = rt.write_all(&out[..size]);
}
