// One step of a command: whether its fields are well formed and name values that are there, and its number in the table.
ghost use Rattle.std.specs.Prelude.{◌≡◌, ℕ, ◌+◌, ◌≤◌, length};
ghost use Rattle.model.specs.Frame.{field_formed, field_names, step_formed, step_names};
ghost use Rattle.model.specs.Tables.{step_code};
ghost use Rattle.frames.specs.Parts.{step_at};

use model::{Op, Step, Use};

pub fn step_at(part: &[u8], at: usize) -> Step
    requires { at + 4 ≤ length part.now }
    ensures { result ≡ step_at part.now at }
{
    Step {
        op: part[at],
        a: part[at + 1],
        b: part[at + 2],
        t: part[at + 3],
    }
}

fn field_formed(u: Use, x: u8) -> bool
    ensures { result ≡ field_formed u x }
{
    match u {
        Use::Nothing => x == 0,
        Use::Operand => true,
        Use::Attributes => x < 64,
        Use::Label => x < 2,
    }
}

fn field_names(n: usize, u: Use, x: u8) -> bool
    ensures { result ≡ field_names n u x }
{
    match u {
        Use::Operand => usize::from(x) < n,
        Use::Nothing | Use::Attributes | Use::Label => true,
    }
}

pub fn step_formed(s: Step) -> bool
    ensures { result ≡ step_formed s }
{
    let op = s.op();
    let fields = op.fields();
    op != Op::Unknown
        && field_formed(fields.a, s.a)
        && field_formed(fields.b, s.b)
        && field_formed(fields.t, s.t)
}

// Whether a step names only values among the first n.
pub fn step_names(n: usize, s: Step) -> bool
    ensures { result ≡ step_names n s }
{
    let fields = s.op().fields();
    field_names(n, fields.a, s.a) && field_names(n, fields.b, s.b)
}

#[tactic(auto, unfolding(model::specs::Tables::step_code))]
pub fn step_code(s: Step) -> u64
    ensures { result ≡ step_code s }
{
    u64::from(s.op) + 256 * u64::from(s.a) + 65536 * u64::from(s.b) + 16777216 * u64::from(s.t)
}
