// Reads a plan from standard input and prints each of its runs with at most 64 visits, a line each, or its refusal, to standard output (document 02, L10). It
// ends where a line cannot be written, which is said on standard error.
#![tactic(auto)]

use enumeration::enumerate;
use reader::TEXT;

fn main(rt: HostRuntime) {
    let mut text = [0u8; TEXT];
    let n = files::input(&rt, &mut text);
    enumerate(|line| files::print(&rt, line).is_ok(), &text[..n]);
}
