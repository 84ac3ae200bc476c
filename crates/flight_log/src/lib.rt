// The lines of a flight log (document 02, L1): which call a line says, and the line being read of a log that comes in pieces.
#![tactic(auto)]

ghost use Rattle.std.specs.Prelude.{◌≡◌};
ghost use Rattle.text.specs.Text.{line_of};
ghost use Rattle.flight_log.specs.Log.{entry_of};
ghost use Rattle.flight_log.specs.Pieces.{HeldLine};

use model::Call;
use text::matches;

// How many bytes of a line are held: more than a line of the grammar has.
pub const HELD: usize = 64;

// How many bytes of a log are taken as a piece at most.
pub const PIECE: usize = 4096;

// The numbers of a log are below 2^64: the greatest of them.
const GREATEST: u64 = u64::MAX;

// Reads the line that a text begins with: the call that it says, or none where it is a line of another form.
pub fn read_entry(text: &[u8]) -> Option<Call>
    ensures { result ≡ entry_of (line_of text.now) }
{
    let mut n = [0; 2];
    if matches(text, 0, b"release", GREATEST, &mut n).is_some() {
        return Some(Call::Release);
    }
    if let Some((f, _)) = matches(text, 0, b"point N E", GREATEST, &mut n) {
        return (!f.over).then_some(Call::Report(n[0], n[1]));
    }
    let (f, _) = matches(text, 0, b"end E", GREATEST, &mut n)?;
    (!f.over).then_some(Call::End(n[0]))
}

// Holds a further byte of the line being read, if there is room, and gives how many are held.
pub fn hold(line: &mut [u8], held: usize, b: u8) -> usize
    ensures { HeldLine line.old held b line.new result }
{
    if held < line.len() {
        line[held] = b;
        held + 1
    } else {
        line.len()
    }
}
