// The verdict over the lent tables: each step of each command against its rule, in order.
// The rules are those of the crate model, each by its name there; what is returned and the handle of a get need only be Un.
#![tactic(auto)]

ghost use Rattle.std.specs.Prelude.{◌≡◌, ◌≤◌, length};
ghost use Rattle.model.specs.Basics.{◌else◌then◌};
ghost use Rattle.model.specs.Types.{type_of};
ghost use Rattle.model.specs.Step.{op_of};
ghost use Rattle.model.specs.Frame.{File};
ghost use Rattle.model.specs.Numbers.{rule_number};
ghost use Rattle.model.specs.Typing.{store_ok, encrypt_ok, decrypt_ok, decrypt_type, derive_ok, derive_type};
ghost use Rattle.model.specs.Typing.{refusal, gives, type_at, first_refusal, verdict};
ghost use Rattle.model.specs.Told.{judged_told};
ghost use Rattle.decoding.specs.Decoded.{command_from};
ghost use Rattle.typing.specs.Given.{Given};
ghost use Rattle.typing.specs.Judged.{rule_told, command_findings};

use decoding::{at_most, step_of};
use model::{Broken, Op, Operation, Policy, Rule, Step, Ty};
use types::{get_type, is_below, offers_some, type_of};

// The field of a step may hold more than the six attributes, and the type goes by these alone.
#[tactic(auto, using(crate::proofs::Rules::type_by_attributes))]
fn store_ok(x: Ty, t: u8) -> bool
    ensures { result ≡ store_ok x (type_of t) }
{
    is_below(x, type_of(t % 64))
}

fn encrypt_ok(transported: Ty, x: Ty, y: Ty) -> bool
    ensures { result ≡ encrypt_ok transported x y }
{
    if y == Ty::Wrap {
        is_below(x, transported)
    } else {
        is_below(y, Ty::Data) && x == Ty::Un
    }
}

fn decrypt_ok(x: Ty, y: Ty) -> bool
    ensures { result ≡ decrypt_ok x y }
{
    x == Ty::Un && (y == Ty::Wrap || is_below(y, Ty::Data))
}

fn decrypt_type(transported: Ty, y: Ty) -> Ty
    ensures { result ≡ decrypt_type transported y }
{
    if y == Ty::Wrap { transported } else { Ty::Un }
}

fn derive_ok(y: Ty) -> bool
    ensures { result ≡ derive_ok y }
{
    y == Ty::Seed || y == Ty::Un
}

fn derive_type(label: u8, y: Ty) -> Ty
    ensures { result ≡ derive_type label y }
{
    match (y, label) {
        (Ty::Seed, 0) => Ty::TData,
        (Ty::Seed, _) => Ty::Wrap,
        _ => Ty::Un,
    }
}

// One rule of a step: it is broken unless it is met.
fn unless(met: bool, rule: Rule) -> Result<(), Rule>
    ensures { rule_told result ≡ (met else rule_number rule then 0) }
{
    if met { Ok(()) } else { Err(rule) }
}

// The first rule that a step breaks: x and y are the types of the values that its fields a and b name.
fn check_step(policy: Policy, s: Step, x: Ty, y: Ty) -> Result<(), Rule>
    ensures { rule_told result ≡ refusal policy (op_of s) s x y }
{
    match s.op() {
        Op::Return => unless(x == Ty::Un, Rule::Return),
        Op::Get => {
            unless(x == Ty::Un, Rule::Handle)?;
            unless(offers_some(policy, s), Rule::GetOffered)
        }
        Op::Generate => unless(policy.allows(s.t), Rule::TemplateAllowed),
        Op::Store => {
            unless(policy.allows(s.t), Rule::TemplateAllowed)?;
            unless(store_ok(x, s.t), Rule::Store)
        }
        Op::Compute(Operation::Encrypt) => unless(
            encrypt_ok(policy.transported, x, y),
            Rule::Encrypt,
        ),
        Op::Compute(Operation::Decrypt) => unless(decrypt_ok(x, y), Rule::Decrypt),
        Op::Compute(Operation::Derive(_)) => unless(derive_ok(y), Rule::Derive),
        Op::Unknown => Err(Rule::KnownOp),
    }
}

// The type of the value that a step gives.
fn type_given(policy: Policy, s: Step, x: Ty, y: Ty) -> Ty
    ensures { result ≡ gives policy (op_of s) s x y }
{
    match s.op() {
        Op::Return => x,
        Op::Get => get_type(policy, s),
        Op::Compute(Operation::Decrypt) => decrypt_type(policy.transported, y),
        Op::Compute(Operation::Derive(label)) => derive_type(label, y),
        _ => Ty::Un,
    }
}

// The type of a command's value, and Un past the last one that a command can have.
fn type_at(made: [Ty; 20], i: u8) -> Ty
    ensures { result ≡ type_at made i }
{
    made.get(usize::from(i)).copied().unwrap_or(Ty::Un)
}

// The first broken rule of one command, from its number and its sixteen places of the steps' table.
fn judge_command(policy: Policy, frame: usize, code: u64, steps: &[u64]) -> Result<(), Broken>
    requires { length steps.now ≡ 16 }
    ensures { judged_told result ≡ first_refusal (command_findings policy frame (command_from code steps.now)) }
{
    let params = at_most(code % 256, 4);
    let count = at_most(code / 256, 16);
    // Kept: an array for the most values that a command can have, since the project has no heap.
    let mut made = [Ty::Un; 20];
    for step in 0..count {
        let s = step_of(steps[step]);
        let x = type_at(made, s.a);
        let y = type_at(made, s.b);
        check_step(policy, s, x, y).map_err(|rule| Broken { rule, frame, step })?;
        made[params + step] = type_given(policy, s, x, y);
    }
    Ok(())
}

// The first broken rule of the n commands, with its frame and step.
pub fn judge(policy: Policy, n: usize, commands: &[u64], steps: &[u64]) -> Result<(), Broken>
    requires { (n ≤ 32) × (length commands.now ≡ 32) × (length steps.now ≡ 512) }
    ensures { (φ : File) → Given φ policy n commands.now steps.now → judged_told result ≡ verdict φ.policy φ.commands }
{
    for c in 0..n {
        let first = 16 * c;
        judge_command(policy, c + 1, commands[c], &steps[first..first + 16])?;
    }
    Ok(())
}
