// The types that the definitions of specs/ and the code share. What they mean is said there.
// Kept: `None` of `Ty`, `Nothing` of `Use` and `Unknown` of `Op`, since definitions and theorems of the model name them, and no Option.
// Kept: `as` of an enum without fields, which gives its number.
#![tactic(auto)]

ghost use Rattle.std.specs.Prelude.{◌≡◌, ◌<◌};
ghost use Rattle.model.specs.Types.{code_of, type_of_code};
ghost use Rattle.model.specs.Step.{op_of, fields_of};
ghost use Rattle.model.specs.Policy.{allows};
ghost use Rattle.model.specs.Numbers.{fault_number, rule_number, full_number};

// The six types; `None` stands for "no type": of a template that has none, and of a join over no template. Their codes are in this order.
#[derive(Clone, Copy, PartialEq, Eq, Debug)]
pub enum Ty {
    Un,
    TData,
    Data,
    Wrap,
    Seed,
    Any,
    None,
}

// What is computed from values alone, by a step or by a line of the session; a derivation has a label.
#[derive(Clone, Copy, PartialEq, Eq, Debug)]
pub enum Operation {
    Encrypt,
    Decrypt,
    Derive(u8),
}

// What a step does; reading lets no step through whose op is unknown.
#[derive(Clone, Copy, PartialEq, Eq, Debug)]
pub enum Op {
    Return,
    Get,
    Generate,
    Store,
    Compute(Operation),
    Unknown,
}

// What an op has in a field of its step: nothing, the number of a value, a set of attributes, or a label.
#[derive(Clone, Copy, PartialEq, Eq, Debug)]
pub enum Use {
    Nothing,
    Operand,
    Attributes,
    Label,
}

// What an op has in the three fields of its step.
#[derive(Clone, Copy, PartialEq, Eq, Debug)]
pub struct Fields {
    pub a: Use,
    pub b: Use,
    pub t: Use,
}

// One step of a command: its op, and the three fields that the op may use.
#[derive(Clone, Copy, PartialEq, Eq, Debug)]
pub struct Step {
    pub op: u8,
    pub a: u8,
    pub b: u8,
    pub t: u8,
}

// The transported type r, and the set of the templates that are allowed, a number of 64 bits.
#[derive(Clone, Copy, PartialEq, Eq, Debug)]
pub struct Policy {
    pub transported: Ty,
    pub allowing: u64,
}

impl Policy {
    // Whether the set has template t; no number above the templates' is in it.
    pub fn allows(self, t: u8) -> bool
        ensures { result ≡ allows self.allowing t }
    {
        t < 64 && (self.allowing >> t) % 2 == 1
    }
}

impl Step {
    // The op of a step, with its label where it has one.
    pub fn op(self) -> Op
        ensures { result ≡ op_of self }
    {
        match self.op {
            0 => Op::Return,
            1 => Op::Get,
            2 => Op::Generate,
            3 => Op::Store,
            4 => Op::Compute(Operation::Encrypt),
            5 => Op::Compute(Operation::Decrypt),
            6 => Op::Compute(Operation::Derive(self.t)),
            _ => Op::Unknown,
        }
    }
}

impl Op {
    // What it has in the fields of its step.
    pub fn fields(self) -> Fields
        ensures { result ≡ fields_of self }
    {
        let (a, b, t) = match self {
            Op::Return => (Use::Operand, Use::Nothing, Use::Nothing),
            Op::Get | Op::Store => (Use::Operand, Use::Nothing, Use::Attributes),
            Op::Generate => (Use::Nothing, Use::Nothing, Use::Attributes),
            Op::Compute(Operation::Derive(_)) => (Use::Nothing, Use::Operand, Use::Label),
            Op::Compute(_) => (Use::Operand, Use::Operand, Use::Nothing),
            Op::Unknown => (Use::Nothing, Use::Nothing, Use::Nothing),
        };
        Fields { a, b, t }
    }
}

impl Ty {
    // Its number in a policy frame and in what reading tells.
    pub fn code(self) -> u8
        ensures { result ≡ code_of self }
    {
        self as u8
    }

    // The type of a number, and none above those of the six.
    pub fn from_code(code: u8) -> Ty
        ensures { result ≡ type_of_code code }
    {
        match code {
            0 => Ty::Un,
            1 => Ty::TData,
            2 => Ty::Data,
            3 => Ty::Wrap,
            4 => Ty::Seed,
            5 => Ty::Any,
            _ => Ty::None,
        }
    }
}

// Why an input is refused. README has the table of the numbers.
#[derive(Clone, Copy, PartialEq, Eq, Debug)]
pub enum Fault {
    TooLong = 1,
    BadLine = 2,
    Misplaced = 3,
    Malformed = 4,
    TooMany = 5,
    NotThere = 6,
    Unlawful = 7,
    WrongTables = 15,
}

impl Fault {
    pub fn number(self) -> usize
        ensures { result ≡ fault_number self }
    {
        self as usize
    }
}

// Which rule a step breaks.
#[derive(Clone, Copy, PartialEq, Eq, Debug)]
pub enum Rule {
    KnownOp = 4,
    TemplateAllowed = 16,
    GetOffered = 17,
    Encrypt = 18,
    Decrypt = 19,
    Store = 20,
    Return = 21,
    Handle = 22,
    Derive = 23,
}

impl Rule {
    pub fn number(self) -> usize
        ensures { result ≡ rule_number self }
    {
        self as usize
    }
}

// What a run has no more room for.
#[derive(Clone, Copy, PartialEq, Eq, Debug)]
pub enum Full {
    Rows = 32,
    Keys = 33,
}

impl Full {
    pub fn number(self) -> usize
        ensures { result ≡ full_number self }
    {
        self as usize
    }
}

// A refused input, with the frame that earns the refusal.
#[derive(Clone, Copy, PartialEq, Eq, Debug)]
pub struct Refusal {
    pub fault: Fault,
    pub frame: usize,
}

// The first step that breaks a rule, with the frame of its command.
#[derive(Clone, Copy, PartialEq, Eq, Debug)]
pub struct Broken {
    pub rule: Rule,
    pub frame: usize,
    pub step: usize,
}

// What a file has that was read: its policy, and how many commands and session lines there are.
#[derive(Clone, Copy, PartialEq, Eq, Debug)]
pub struct Contents {
    pub policy: Policy,
    pub commands: usize,
    pub lines: usize,
}

// Why the commands of an input are not accepted: it is refused, or a step breaks a rule.
#[derive(Clone, Copy, PartialEq, Eq, Debug)]
pub enum Rejection {
    Refused(Refusal),
    Broken(Broken),
}

impl From<Refusal> for Rejection {
    ghost use Rattle.std.specs.Prelude.{◌≡◌};
    ghost use Rattle.model.specs.declared.Rejection.TheVariants.{Refused};

    ghost from_gives = { λ r x. x ≡ Refused r };

    fn from(r: Refusal) -> Rejection {
        Rejection::Refused(r)
    }
}

impl From<Broken> for Rejection {
    ghost use Rattle.std.specs.Prelude.{◌≡◌};
    ghost use Rattle.model.specs.declared.Rejection.TheVariants as rejection;

    ghost from_gives = { λ b x. x ≡ rejection.Broken b };

    fn from(b: Broken) -> Rejection {
        Rejection::Broken(b)
    }
}

// What ended a run before its last line, and at which line.
#[derive(Clone, Copy, PartialEq, Eq, Debug)]
pub struct Ending {
    pub full: Full,
    pub line: usize,
}

// What a run comes to: its ending, where it did not go through, and the first line with a breach mark.
#[derive(Clone, Copy, PartialEq, Eq, Debug)]
pub struct Ran {
    pub ending: Option<Ending>,
    pub first_breach: Option<usize>,
}

// The tables that a caller lends: rows and stored keys; of each session line its head, its arguments and its outcome;
// commands and steps.
#[derive(Drop)]
pub struct Tables<'a> {
    pub rows: &'a mut [u64],
    pub keys: &'a mut [u64],
    pub heads: &'a mut [u64],
    pub arguments: &'a mut [u64],
    pub outcomes: &'a mut [u64],
    pub commands: &'a mut [u64],
    pub steps: &'a mut [u64],
}
