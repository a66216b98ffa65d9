// The policy frame: the transported type and the set of allowed templates.
ghost use Rattle.std.specs.Prelude.{◌≡◌, List, ℕ, length};
ghost use Rattle.model.specs.Policy.{lawful};
ghost use Rattle.model.specs.Text.{number_from};
ghost use Rattle.model.specs.Frame.{byte_at};
ghost use Rattle.frames.specs.Turn.{turn_told};
ghost use Rattle.frames.specs.Parts.{Takes};

use crate::Turn;
use model::{Fault, Policy, Ty};

// No template that is allowed has A, which weighs 2, without S, which weighs 1.
fn is_lawful(policy: Policy) -> bool
    ensures { result ≡ lawful policy }
{
    !(0..64).any(|m| m % 4 == 2 && policy.allows(m))
}

// Numbers are big-endian.
#[tactic(auto, using(crate::proofs::Numbers::number_of))]
fn number(bytes: &[u8]) -> u64
    requires { length bytes.now ≡ 8 }
    ensures { result ≡ number_from 0 bytes.now }
{
    u64::from_be_bytes([
        bytes[0], bytes[1], bytes[2], bytes[3], bytes[4], bytes[5], bytes[6], bytes[7],
    ])
}

pub fn policy_turn(f: &[u8]) -> Result<Turn, Fault>
    requires { byte_at f.now 0 ≡ 1 }
    ensures { (n m : ℕ) (h a k s : List ℕ) → Takes 0 n m f.now (turn_told result) h a k s h a k s }
{
    if f.len() != 10 || f[1] > 5 {
        return Err(Fault::Malformed);
    }
    let policy = Policy {
        transported: Ty::from_code(f[1]),
        allowing: number(&f[2..]),
    };
    if !is_lawful(policy) {
        return Err(Fault::Unlawful);
    }
    Ok(Turn::Policy(policy))
}
