// Lines of hexadecimal digits: one pass over a line, which checks it and writes the bytes of its frame into a buffer.
#![tactic(auto)]

ghost use Rattle.std.specs.Prelude.{◌≡◌, ◌&&◌, List, ◌∷◌, ◌*◌, ◌<◌, ◌≤◌, ltb, length, drop, MatchOption};
ghost use Rattle.model.specs.Text.{TextLine, lines_of, digit_value};
ghost use Rattle.text.specs.Scan.{starts_with_newline, PairsAre, ScanIs};

// A well written line: how many bytes of its frame the buffer took, and the place after the line.
#[derive(Clone, Copy, PartialEq, Eq, Debug)]
pub struct Scanned {
    pub len: usize,
    pub next: usize,
}

// What a digit is worth; no other byte is worth anything.
#[tactic(auto, using(crate::proofs::Laws::byte_worth, std::proofs::lemmas::Bool::Decides::nat_tests))]
fn digit_value(b: u8) -> Option<u8>
    ensures { MatchOption result (16 ≤ digit_value b) (λ d. (d ≡ digit_value b) × (d < 16)) }
{
    match b {
        b'0'..=b'9' => Some(b - b'0'),
        b'a'..=b'f' => Some(b - b'a' + 10),
        _ => None,
    }
}

// The pairs of digits at the front of the rest of an input, into the buffer as far as it has room; the answer is how many there are.
fn write_pairs(rest: &[u8], frame: &mut [u8]) -> usize
    ensures { PairsAre rest.now result frame.old frame.new }
{
    let pairs = rest.len() / 2;
    for i in 0..pairs {
        let Some(high) = digit_value(rest[2 * i]) else {
            return i;
        };
        let Some(low) = digit_value(rest[2 * i + 1]) else {
            return i;
        };
        if i < frame.len() {
            frame[i] = 16 * high + low;
        }
    }
    pairs
}

// Whether a line of so many pairs ends after them: with a newline, and not before the first.
fn ends_after(rest: &[u8], pairs: usize) -> bool
    requires { pairs ≤ length rest.now }
    ensures { result ≡ (ltb 0 pairs && starts_with_newline (drop (2 * pairs) rest.now)) }
{
    let end = 2 * pairs;
    pairs > 0 && end < rest.len() && rest[end] == b'\n'
}

// The line that begins at a place, or `None` where it breaks the rule. A frame longer than the buffer is cut there, and the
// whole line is still checked.
pub fn scan_line(input: &[u8], at: usize, frame: &mut [u8]) -> Option<Scanned>
    requires { at < length input.now }
    ensures { (l : TextLine) (ls : List TextLine) → lines_of (drop at input.now) ≡ l ∷ ls
        → ScanIs input.now at l ls result frame.old frame.new }
{
    let rest = &input[at..];
    let pairs = write_pairs(rest, frame);
    if !ends_after(rest, pairs) {
        return None;
    }
    Some(Scanned {
        len: pairs.min(frame.len()),
        next: at + 2 * pairs + 1,
    })
}
