// The program's output as lines of hexadecimal, written into a lent buffer.
// Kept: `as` between `usize` and `u64`, or to fewer bits. Rust has no `From` there, and the check proves that nothing is lost.
#![tactic(auto)]

ghost use Rattle.std.specs.Prelude.{◌≡◌, List, [], ◌∷◌, ◌+◌, ◌*◌, ◌≤◌, ◌<◌, length, get_or};
ghost use Rattle.model.specs.Session.{Finished};
ghost use Rattle.model.specs.Text.{digits, two_bytes, written};
ghost use Rattle.model.specs.Report.{refusal_frame, verdict_frame};
ghost use Rattle.model.specs.Tables.{zeros};
ghost use Rattle.model.specs.Numbers.{fault_number};
ghost use Rattle.model.specs.Told.{judged_told, ending_number, breach_told};
ghost use Rattle.printing.specs.Printed.{Printed, VerdictFits, Lines, end_bytes, report_bytes};
ghost use Rattle.printing.specs.Placed.{Put, coded_frame, coded_frames};

use model::{Broken, Ran, Refusal};

const DIGITS: &[u8; 16] = b"0123456789abcdef";

// Kept: std writes hexadecimal through a formatter, as text; here each digit goes to a place of a lent buffer.
fn digit(n: u8) -> u8
    requires { n < 16 }
    ensures { result ≡ get_or digits n 0 }
{
    DIGITS[usize::from(n)]
}

// A number that takes two bytes of a frame, the higher one first.
fn two_bytes(n: usize) -> [u8; 2]
    requires { n < 65536 }
    ensures { result ≡ two_bytes n }
{
    (n as u16).to_be_bytes()
}

fn refusal_frame(refusal: Refusal) -> [u8; 4]
    requires { refusal.frame < 65536 }
    ensures { result ≡ refusal_frame (fault_number refusal.fault) refusal.frame }
{
    let [high, low] = two_bytes(refusal.frame);
    [0x80, refusal.fault.number() as u8, high, low]
}

// All zero is acceptance.
fn verdict_frame(judged: Result<(), Broken>) -> [u8; 5]
    requires { VerdictFits (judged_told judged) }
    ensures { result ≡ verdict_frame (judged_told judged) }
{
    match judged {
        Ok(()) => [0x81, 0, 0, 0, 0],
        Err(broken) => {
            let [high, low] = two_bytes(broken.frame);
            [
                0x81,
                broken.rule.number() as u8,
                high,
                low,
                broken.step as u8,
            ]
        }
    }
}

// The frame of line i, from the number that codes its outcome: the row in its two lowest bytes, the stored keys in the next two,
// then the bits of a stopped line and of a breach.
fn line_frame(i: usize, code: u64) -> [u8; 9]
    requires { i < 65536 }
    ensures { result ≡ coded_frame i code }
{
    let [line_high, line_low] = two_bytes(i);
    let [_, _, _, marks, keys_high, keys_low, row_high, row_low] = code.to_be_bytes();
    let stopped = marks % 2;
    let breach = marks / 2 % 2;
    [
        0x82, line_high, line_low, stopped, row_high, row_low, keys_high, keys_low, breach,
    ]
}

fn end_frame(ran: Ran) -> [u8; 4]
    requires { breach_told ran.first_breach < 65536 }
    ensures { result ≡ end_bytes (ending_number ran.ending) (breach_told ran.first_breach) }
{
    let ending = match ran.ending {
        Some(ending) => ending.full.number() as u8,
        None => 0,
    };
    // Kept: the documents' frame has ffff where no line is breached.
    let [high, low] = two_bytes(ran.first_breach.unwrap_or(0xffff));
    [0x83, ending, high, low]
}

// A frame as a line, at a place of the buffer. The answer is the place after it.
fn put_frame(buffer: &mut [u8], at: usize, frame: &[u8]) -> usize
    requires { at + (2 * length frame.now + 1) ≤ length buffer.old }
    ensures { Put (written frame.now) at buffer.old result buffer.new }
{
    let mut place = at;
    for byte in frame {
        buffer[place] = digit(byte / 16);
        buffer[place + 1] = digit(byte % 16);
        place += 2;
    }
    buffer[place] = b'\n';
    place + 1
}

// The frames of the lines, from the numbers that code their outcomes.
fn put_lines(buffer: &mut [u8], at: usize, codes: &[u64]) -> usize
    requires { (at + 19 * length codes.now ≤ length buffer.old) × (length codes.now ≤ 65536) }
    ensures { Put (coded_frames 0 codes.now) at buffer.old result buffer.new }
{
    let mut place = at;
    for (i, code) in codes.iter().enumerate() {
        place = put_frame(buffer, place, &line_frame(i, *code));
    }
    place
}

// The one frame of a refused file, into a buffer that is all zero. The answer is how many bytes were written.
pub fn print_refusal(buffer: &mut [u8], refusal: Refusal) -> usize
    requires empty { buffer.old ≡ zeros (length buffer.old) }
    requires room { 9 ≤ length buffer.old }
    requires frame { refusal.frame < 65536 }
    ensures { Printed (written (refusal_frame (fault_number refusal.fault) refusal.frame)) (length buffer.old) result buffer.new }
{
    put_frame(buffer, 0, &refusal_frame(refusal))
}

// The frames of a file: its verdict, its finished lines, how the run ended and the first breached line.
pub fn print_report(
    buffer: &mut [u8],
    judged: Result<(), Broken>,
    outcomes: &[u64],
    ran: Ran,
) -> usize
    requires empty { buffer.old ≡ zeros (length buffer.old) }
    requires room { 19476 ≤ length buffer.old }
    requires verdict { VerdictFits (judged_told judged) }
    requires lines { length outcomes.now ≤ 1024 }
    requires breach { breach_told ran.first_breach < 65536 }
    ensures { (fs : List Finished) → Lines fs outcomes.now
        → Printed (report_bytes (judged_told judged) fs (ending_number ran.ending) (breach_told ran.first_breach))
        (length buffer.old) result buffer.new }
{
    let lines_at = put_frame(buffer, 0, &verdict_frame(judged));
    let end_at = put_lines(buffer, lines_at, outcomes);
    put_frame(buffer, end_at, &end_frame(ran))
}
