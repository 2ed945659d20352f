// Valid code, and how deep its stacks grow.
ghost use Rattle.std.specs.Prelude.{◌≡◌, ◌+◌, ◌<◌, ◌^◌, length, slice_get};
ghost use Rattle.std.specs.Option.{option_copied};
ghost use Rattle.vir_term.specs.Tree.{Tree};
ghost use Rattle.vir_code.specs.Code.{code_of};
ghost use Rattle.vir_code.specs.Depth.{depth_of};
ghost use Rattle.vir_code.specs.Heights.{height_after, peak_of};
ghost use Rattle.vir_code.specs.Valid.{IsValid};

use crate::instr::Instr;
use std::marker::Model;

/// How many instructions code may have.
pub const CODE_LIMIT: usize = 2_000;

/// Valid code: the code of a term within the limits.
#[derive(Debug, Drop)]
pub struct Code {
    pub(crate) list: Vec<Instr>,
}

impl Model for Code {
    ghost use Rattle.std.specs.Prelude.{List};
    ghost use Rattle.vir_code.specs.declared.instr.Instr.{Instr};
    ghost use Rattle.vir_code.specs.Valid.{IsValid};

    ghost Value = { List Instr };

    ghost view = { λ code. code.list.items };

    ghost invariant = { λ code. IsValid code.list.items };
}

impl Code {
    /// How many instructions it has.
    pub fn len(&self) -> usize
        ensures exact { result ≡ length self.now }
        ensures valid { IsValid self.now }
    {
        self.list.len()
    }

    /// The instruction at a position, the first one at 0.
    pub fn at(&self, i: usize) -> Option<&Instr>
        ensures { option_copied result ≡ slice_get self.now i }
    {
        self.list.get(i)
    }

    /// How many splits its stack holds at most; it never holds more domains.
    #[tactic(auto, using(crate::proofs::DepthLemmas::peak_is_depth))]
    pub fn depth(&self) -> usize
        ensures { (t : Tree) → self.now ≡ code_of t → result ≡ depth_of t }
    {
        peak(&self.list)
    }
}

// The greatest number of splits on the stack, where each instruction is done once, in order.
fn peak(list: &[Instr]) -> usize
    ensures { result ≡ peak_of list.now }
{
    let mut height = 0;
    let mut most = 0;
    for instr in list {
        height = height_after(instr, height);
        most = most.max(height);
    }
    most
}

// How many splits are on the stack after an instruction.
fn height_after(instr: &Instr, height: usize) -> usize
    requires { height + 1 < 2 ^ 64 }
    ensures { result ≡ height_after instr.now height }
{
    match instr {
        Instr::Call(_) | Instr::StartLoop => height + 1,
        Instr::JoinSeq | Instr::JoinMax | Instr::LoopBack { .. } => height.saturating_sub(1),
        Instr::KeepDomain
        | Instr::FetchDomain
        | Instr::Revise
        | Instr::LoopTest { .. }
        | Instr::UntilTest { .. }
        | Instr::EndLoop => height,
    }
}
