// From terms to code.
ghost use Rattle.std.specs.Prelude.{◌≡◌, ◌≤◌, ◌++◌, ◌∷◌, [], length, max, IfOk, OnOk};
ghost use Rattle.vir_term.specs.Tree.{tree, nesting, loop};
ghost use Rattle.vir_term.specs.Limits.{IsWithinLimits, nesting_limit};
ghost use Rattle.vir_code.specs.Code.{code_at, code_of, test_of};
ghost use Rattle.vir_compile.specs.Endings.{end_of};
ghost use Rattle.vir_code.specs.Depth.{depth_of};

use std::alloc::{AllocError, Global};
use vir_code::{Code, Instr, validate};
use vir_term::Term;

/// The code of a term.
pub fn compile(alloc: Global, term: &Term) -> Result<Code, AllocError>
    requires { IsWithinLimits (tree term.now) }
    ensures { IfOk result (λ code. code ≡ code_of (tree term.now)) }
{
    let mut list = Vec::new(alloc);
    emit(alloc, &mut list, term)?;
    match validate(list) {
        Some(code) => Ok(code),
        None => unreachable!(),
    }
}

/// How many splits the stack of a term's code holds at most; it never holds more domains.
#[tactic(auto, using(crate::proofs::Emitted::depth_small))]
pub fn depth(term: &Term) -> usize
    requires { nesting (tree term.now) ≤ nesting_limit }
    ensures { result ≡ depth_of (tree term.now) }
{
    match term {
        Term::Leaf(_) => 1,
        Term::Rev(part) => depth(part),
        Term::Seq(first, second) | Term::Par(first, second) => depth(first).max(depth(second) + 1),
        Term::Loop { k: _, body } | Term::Until { k: _, body } => depth(body) + 1,
    }
}

// Where a loop ends: at just so many alternatives, or at so many or fewer.
#[derive(Clone, Copy)]
enum Ending {
    Exactly(u32),
    AtMost(u32),
}

// The test of a loop that ends so.
fn test_of(ending: Ending, exit: usize) -> Instr
    ensures { result ≡ test_of (end_of ending) exit }
{
    match ending {
        Ending::Exactly(k) => Instr::LoopTest { k, exit },
        Ending::AtMost(k) => Instr::UntilTest { k, exit },
    }
}

// Appends a term's code to what stands there.
#[cycle(emit)]
fn emit(alloc: Global, code: &mut Vec<Instr>, term: &Term) -> Result<(), AllocError>
    ensures { OnOk result (code.new.items ≡ code.old.items ++ code_at (length code.old.items) (tree term.now)) }
{
    match term {
        Term::Leaf(leaf) => {
            let leaf = leaf.copy(alloc)?;
            put(code, Instr::Call(leaf))
        }
        Term::Rev(part) => {
            emit(alloc, code, part)?;
            put(code, Instr::Revise)
        }
        Term::Seq(first, second) => {
            emit(alloc, code, first)?;
            put(code, Instr::KeepDomain)?;
            put(code, Instr::FetchDomain)?;
            emit(alloc, code, second)?;
            put(code, Instr::JoinSeq)
        }
        Term::Par(first, second) => {
            emit(alloc, code, first)?;
            emit(alloc, code, second)?;
            put(code, Instr::JoinMax)
        }
        Term::Loop { k, body } => emit_loop(alloc, code, Ending::Exactly(*k), body),
        Term::Until { k, body } => emit_loop(alloc, code, Ending::AtMost(*k), body),
    }
}

// Appends the code of a loop over a term.
#[cycle(emit)]
fn emit_loop(
    alloc: Global,
    code: &mut Vec<Instr>,
    ending: Ending,
    body: &Term,
) -> Result<(), AllocError>
    ensures { OnOk result (code.new.items
        ≡ code.old.items ++ code_at (length code.old.items) (loop (end_of ending) (tree body.now))) }
{
    put(code, Instr::StartLoop)?;
    let test = code.len();
    put(code, test_of(ending, 0))?;
    emit(alloc, code, body)?;
    put(code, Instr::LoopBack { start: test })?;
    let exit = code.len();
    code[test] = test_of(ending, exit);
    put(code, Instr::EndLoop)
}

// Appends one instruction.
fn put(code: &mut Vec<Instr>, instr: Instr) -> Result<(), AllocError>
    ensures { OnOk result (code.new.items ≡ code.old.items ++ instr ∷ []) }
{
    code.push(instr)?;
    Ok(())
}
