#![tactic(auto)]

ghost use Rattle.std.specs.Prelude.{◌≡◌};
ghost use Rattle.postfix.specs.Numbers.{code_of};

// What stands for each part of a process in postfix order: a leaf copy, a loop over a leaf, a loop over the flow before it, and the joints of the two parts before
// them.
#[derive(Clone, Copy, Debug, PartialEq, Eq)]
pub enum Code {
    Leaf,
    Again,
    Rounds,
    Seq,
    And,
    Or,
    Xor,
}

impl From<u8> for Code {
    // The code with a number, in this order. A number past the last stands for a joint of two parts all of which are run, as 4 does.
    fn from(n: u8) -> Code
        ensures { result ≡ code_of n }
    {
        match n {
            0 => Code::Leaf,
            1 => Code::Again,
            2 => Code::Rounds,
            3 => Code::Seq,
            5 => Code::Or,
            6 => Code::Xor,
            _ => Code::And,
        }
    }
}
