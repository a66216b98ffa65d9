// A session line: its bytes checked against what was read before, and stored in the tables.
ghost use Rattle.std.specs.Prelude.{◌≡◌, ◌&&◌, List, ℕ, ◌+◌, ◌*◌, ◌%◌, ◌≤◌, ◌<◌, ltb, eqb, length, drop, get_or, is_some, IfSome, OnErr};
ghost use Rattle.model.specs.Basics.{every};
ghost use Rattle.model.specs.Frame.{byte_at, arg_of, args_of, arg_names, head_fits, line_formed};
ghost use Rattle.model.specs.Tables.{args_code};
ghost use Rattle.frames.specs.Turn.{turn_told, SameReferences};
ghost use Rattle.frames.specs.Parts.{ArgumentIs, line_named, LineStored, Takes, CommandsKept, LinesKept};

use crate::{FileTables, Turn, lowest};
use model::Fault;

// Whether the command's place and the argument count are as the kind has them.
// Kept: the kind is a byte here, as in the model's `head_fits`, since it is asked before the frame is known to be formed.
fn head_fits(kind: u8, command: u8, count: u8) -> bool
    ensures { result ≡ head_fits kind command count }
{
    match kind {
        0 => true,
        1 | 2 => command == 0 && count == 2,
        _ => command < 2 && count == 1,
    }
}

// Whether a frame has the bytes of a session line, so many as its argument count says.
fn line_formed(f: &[u8]) -> bool
    ensures { result ≡ line_formed f.now }
{
    f.len() >= 4
        && f[1] <= 3
        && f[3] <= 4
        && f.len() == 4 + 2 * usize::from(f[3])
        && head_fits(f[1], f[2], f[3])
}

// Whether an argument is a constant or one of the m lines before.
fn argument_names(m: usize, x: u16) -> bool
    ensures { result ≡ arg_names m (arg_of x) }
{
    x >= 0x8000 || usize::from(x) < m
}

// Whether there is a command of this number among the n, with so many parameters.
fn has_command(number: u8, params: u8, n: usize, tables: &FileTables<'_>) -> bool
    requires { n ≤ 32 }
    ensures { result ≡ (ltb number n && eqb params (get_or tables.now.commands.now number 0 % 256)) }
{
    let at = usize::from(number);
    at < n && u64::from(params) == tables.commands[at] % 256
}

// The bytes of a session line: after the frame's kind the line's own, the command's place, how many arguments, and two bytes for each.
#[derive(Clone, Copy)]
struct LineFrame<'a> {
    bytes: &'a [u8],
    ghost whole: { length bytes.now ≡ 4 + 2 * byte_at bytes.now 3 },
    ghost few: { byte_at bytes.now 3 ≤ 4 },
}

impl<'a> LineFrame<'a> {
    // The frame of a session line, where its bytes are formed as one.
    fn read(f: &'a [u8]) -> Option<LineFrame<'a>>
        ensures formed { is_some result ≡ line_formed f.now }
        ensures bytes { IfSome result (λ line. line.bytes.now ≡ f.now) }
    {
        if line_formed(f) {
            Some(LineFrame { bytes: f })
        } else {
            None
        }
    }

    // Argument i, as it stands in the frame.
    #[tactic(auto, using(crate::proofs::Arguments::argument_is))]
    fn argument(&self, i: usize) -> u16
        requires { i < byte_at self.now.bytes.now 3 }
        ensures { ArgumentIs self.now.bytes.now i result }
    {
        u16::from_be_bytes([self.bytes[4 + 2 * i], self.bytes[5 + 2 * i]])
    }

    // Whether each argument is a constant or one of the m lines before.
    fn every_argument_names(&self, m: usize) -> bool
        ensures { result ≡ every (arg_names m) (args_of (drop 4 self.now.bytes.now)) }
    {
        for i in 0..usize::from(self.bytes[3]) {
            if !argument_names(m, self.argument(i)) {
                return false;
            }
        }
        true
    }

    // Whether the line names what is there: a command, if it calls one, and earlier lines.
    #[tactic(auto, unfolding(crate::specs::Parts::line_named))]
    fn names(&self, n: usize, m: usize, tables: &FileTables<'_>) -> bool
        requires { n ≤ 32 }
        ensures { result ≡ line_named self.now.bytes.now n m tables.now.commands.now }
    {
        (self.bytes[1] != 0 || has_command(self.bytes[2], self.bytes[3], n, tables))
            && self.every_argument_names(m)
    }

    // The arguments in one number, the first lowest.
    #[tactic(auto, using(crate::proofs::Arguments::coding))]
    fn arguments_code(&self) -> u64
        ensures { result ≡ args_code (args_of (drop 4 self.now.bytes.now)) }
    {
        let mut code: u64 = 0;
        for i in (0..usize::from(self.bytes[3])).rev() {
            code = u64::from(self.argument(i)) + 65536 * code;
        }
        code
    }

    // Session line m, its head and its arguments.
    fn store(&self, m: usize, tables: &mut FileTables<'_>)
        requires { m < 1024 }
        ensures stored { LineStored self.now.bytes.now m tables.old tables.new }
        ensures same_references { SameReferences tables.old tables.new }
    {
        let f = self.bytes;
        tables.heads[m] = u64::from(f[1]) + 256 * u64::from(f[2]) + 65536 * u64::from(f[3]);
        tables.arguments[m] = self.arguments_code();
    }
}

pub fn line_turn(f: &[u8], n: usize, m: usize, tables: &mut FileTables<'_>) -> Result<Turn, Fault>
    requires { (byte_at f.now 0 ≡ 3) × (n ≤ 32) }
    ensures answer { (place : ℕ) (s : List ℕ) → 1 ≤ place → Takes place n m f.now (turn_told result)
        tables.old.heads.now tables.old.arguments.now tables.old.commands.now s
        tables.new.heads.now tables.new.arguments.now tables.old.commands.now s }
    ensures commands_kept { CommandsKept tables.old tables.new }
    ensures refused { OnErr result (LinesKept tables.old tables.new) }
    ensures same_references { SameReferences tables.old tables.new }
{
    let Some(line) = LineFrame::read(f) else {
        return Err(Fault::Malformed);
    };
    lowest(true, m < 1024, line.names(n, m, tables))?;
    line.store(m, tables);
    Ok(Turn::Line)
}
