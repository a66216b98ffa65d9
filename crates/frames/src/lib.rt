// One frame: the policy, a command or a session line, from its bytes to the lent tables.
#![tactic(auto)]

mod command;
mod file_tables;
mod line;
mod policy;
mod step;

ghost use Rattle.std.specs.Prelude.{◌≡◌, ◌<◌, length};
ghost use Rattle.model.specs.Basics.{◌else◌then◌};
ghost use Rattle.model.specs.Frame.{Reading, kind_of, in_place};
ghost use Rattle.frames.specs.Turn.{place_number, turn_told, refusal_told, Counted, Ready, HeldIn, SameReferences, TurnIn};

use crate::command::command_turn;
pub use crate::file_tables::FileTables;
use crate::line::line_turn;
use crate::policy::policy_turn;
use model::{Fault, Policy};

// What a frame comes to that is taken: the policy; a command or a session line, which stands in the tables now.
#[derive(Clone, Copy, PartialEq, Eq, Debug)]
pub enum Turn {
    Policy(Policy),
    Command,
    Line,
}

// What may come next: the policy, after it commands, and after a session line no more than session lines.
#[derive(Clone, Copy, PartialEq, Eq, Debug)]
pub enum Place {
    Start,
    Commands,
    Lines,
}

impl Place {
    // Whether a frame of this kind, which its first byte tells, may come now.
    fn allows(self, f: &[u8]) -> bool
        requires { 0 < length f.now }
        ensures { result ≡ in_place (place_number self) (kind_of f.now) }
    {
        match self {
            Place::Start => f[0] == 1,
            Place::Commands => f[0] == 2 || f[0] == 3,
            Place::Lines => f[0] == 3,
        }
    }
}

// What was read before a frame: the place where it leaves the reader, and how many commands and session lines it had.
#[derive(Clone, Copy, PartialEq, Eq, Debug)]
pub struct Counts {
    pub place: Place,
    pub commands: usize,
    pub lines: usize,
}

// The refusal of a command or a session line, the one with the lowest number that it earns.
fn lowest(formed: bool, room: bool, named: bool) -> Result<(), Fault>
    ensures { refusal_told result ≡ (formed else 4 then room else 5 then named else 6 then 0) }
{
    if !formed {
        return Err(Fault::Malformed);
    }
    if !room {
        return Err(Fault::TooMany);
    }
    if !named {
        return Err(Fault::NotThere);
    }
    Ok(())
}

// Any frame, after what was read before it.
pub fn take_frame(f: &[u8], counts: Counts, tables: &mut FileTables<'_>) -> Result<Turn, Fault>
    requires { Ready f.now counts }
    ensures answer { (c : Reading) → Counted c (place_number counts.place) counts.commands counts.lines → HeldIn c.file tables.old
        → TurnIn c f.now (turn_told result) tables.new }
    ensures same_references { SameReferences tables.old tables.new }
{
    if !counts.place.allows(f) {
        return Err(Fault::Misplaced);
    }
    // Kept: the frame's first byte is the number that the documents give; an enum of it would be made and taken apart only here.
    match f[0] {
        1 => policy_turn(f),
        2 => command_turn(f, counts.commands, tables),
        _ => line_turn(f, counts.commands, counts.lines, tables),
    }
}
