// The types of templates, their order and their join, and what a get may find under a policy.
// What each function answers is defined in the crate model.
#![tactic(auto)]

ghost use Rattle.std.specs.Prelude.{◌≡◌, ◌&&◌, ◌<◌, ltb, length};
ghost use Rattle.model.specs.Types.{type_of, below, join};
ghost use Rattle.model.specs.Policy.{allows, meets, offered, get_type};

use model::Ty::{Any, Data, None as NoType, Seed, TData, Un, Wrap};
use model::{Policy, Step, Ty};

// The type of each template, with the template's number at every eighth.
const TYPES: &[Ty; 64] = &[
    Un, // 0
    Any, NoType, Seed, Un, Data, NoType, TData, Un, // 8
    Data, NoType, TData, Un, Data, NoType, TData, Un, // 16
    Any, NoType, Wrap, Un, Any, NoType, Seed, Un, // 24
    Any, NoType, Seed, Un, Any, NoType, Seed, Un, // 32
    Any, NoType, Wrap, Un, Any, NoType, Seed, Un, // 40
    Any, NoType, Seed, Un, Any, NoType, Seed, Un, // 48
    Any, NoType, Wrap, Un, Any, NoType, Seed, Un, // 56
    Any, NoType, Seed, Un, Any, NoType, Seed,
];

pub fn type_of(t: u8) -> Ty
    requires { t < 64 }
    ensures { result ≡ type_of t }
{
    TYPES[usize::from(t)]
}

// What has no type is below nothing. Beside each type and itself only what is below Data and what is below Any is ordered.
pub fn is_below(a: Ty, b: Ty) -> bool
    ensures { result ≡ below a b }
{
    match (a, b) {
        (NoType, _) => false,
        (Un | TData, Data) | (_, Any) => true,
        _ => a == b,
    }
}

// Two different types that are below Data meet there, and any other two only at Any. What has no type adds nothing.
pub fn join_of(a: Ty, b: Ty) -> Ty
    ensures { result ≡ join a b }
{
    match (a, b) {
        (NoType, other) | (other, NoType) => other,
        _ if a == b => a,
        _ if is_below(a, Data) && is_below(b, Data) => Data,
        _ => Any,
    }
}

// The field of a step may hold more than the six attributes; what stands above them asks for nothing.
#[tactic(auto, using(crate::proofs::Mask::contains_by_mask))]
pub fn meets_template(s: Step, m: u8) -> bool
    requires { m < 64 }
    ensures { result ≡ meets s m }
{
    let want = s.t % 64;
    m & want == want
}

// Both tests are always made: which templates are allowed is hard to guess, and a wrong guess costs more than a test.
fn is_offered(policy: Policy, s: Step, m: u8) -> bool
    requires { m < 64 }
    ensures { result ≡ (allows policy.allowing m && meets s m) }
{
    policy.allows(m) & meets_template(s, m)
}

// The walk goes from the last template to the first, since the join of a list is defined from its end.
pub fn get_type(policy: Policy, s: Step) -> Ty
    ensures { result ≡ get_type policy.allowing s }
{
    let mut joined = NoType;
    for m in (0..64).rev() {
        if is_offered(policy, s, m) {
            joined = join_of(type_of(m), joined);
        }
    }
    joined
}

// A template without a type counts too, so the type of the get would not tell.
pub fn offers_some(policy: Policy, s: Step) -> bool
    ensures { result ≡ ltb 0 (length (offered policy.allowing s)) }
{
    (0..64).any(|m| is_offered(policy, s, m))
}
