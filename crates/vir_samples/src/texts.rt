// Rules and modules from their texts.
ghost use Rattle.std.specs.Prelude.{◌≡◌, ◌∷◌, ◌++◌, [], IfOk, OnOk, All};
ghost use Rattle.std.specs.List.{flat_map};
ghost use Rattle.vir_term.specs.Tree.{tree};
ghost use Rattle.vir_term.specs.Limits.{IsLeafInRange, IsWithinLimits};
ghost use Rattle.vir_read.specs.Faults.{Gives};
ghost use Rattle.vir_book.specs.Books.{rule_of};
ghost use Rattle.vir_samples.specs.Samples.{module_of, rule_file};

use std::alloc::{AllocError, Global};
use vir_book::read_rule;
use vir_read::TextError;
use vir_term::{Leaf, Term};

/// All modules without a list, and without a number or with 1 or 2.
pub const MODULES: &[&str] = &[
    "elect",
    "defer",
    "pass(1)",
    "pass(2)",
    "drop(1)",
    "drop(2)",
    "plurality",
    "max(plurality)",
    "max(borda)",
    "max(copeland)",
    "max(minimax)",
    "max(condorcet)",
    "min(plurality)",
    "min(borda)",
    "min(copeland)",
    "min(minimax)",
    "min(condorcet)",
    "below(plurality)",
    "below(borda)",
    "below(copeland)",
    "below(minimax)",
    "below(condorcet)",
    "upto(plurality)",
    "upto(borda)",
    "upto(copeland)",
    "upto(minimax)",
    "upto(condorcet)",
];

// The rule file that defines this rule alone.
fn rule_file(alloc: Global, text: &[u8]) -> Result<Vec<u8>, AllocError>
    ensures { IfOk result (λ file. file.items ≡ rule_file text.now) }
{
    let mut file = Vec::from_slice(alloc, b"r=")?;
    file.extend_from_slice(text)?;
    file.push(b';')?;
    Ok(file)
}

/// The rule of this text, as a rule file defines it.
pub fn term_of(alloc: Global, text: &str) -> Result<Term, TextError>
    ensures exact { Gives tree result (rule_of (rule_file text.now)) }
    ensures within { IfOk result (λ rule. IsWithinLimits (tree rule)) }
{
    let file = rule_file(alloc, text.as_bytes())?;
    read_rule(alloc, &file)
}

// Puts the module behind the others.
fn add_leaf(modules: &mut Vec<Leaf>, leaf: Leaf) -> Result<(), AllocError>
    ensures { OnOk result (modules.new.items ≡ modules.old.items ++ leaf ∷ []) }
{
    modules.push(leaf)?;
    Ok(())
}

// Puts the module of a text behind the others, if it is one.
fn add_module(alloc: Global, modules: &mut Vec<Leaf>, text: &str) -> Result<(), TextError>
    ensures this { OnOk result (modules.new.items ≡ modules.old.items ++ module_of text.now) }
    ensures within { All IsLeafInRange modules.old.items → OnOk result (All IsLeafInRange modules.new.items) }
{
    if let Term::Leaf(leaf) = term_of(alloc, text)? {
        add_leaf(modules, leaf)?;
    }
    Ok(())
}

/// The modules of these texts. The text of another rule has none.
pub fn modules_of(alloc: Global, texts: &[&str]) -> Result<Vec<Leaf>, TextError>
    ensures these { IfOk result (λ modules. modules.items ≡ flat_map (λ text. module_of text.now) texts.now) }
    ensures within { IfOk result (λ modules. All IsLeafInRange modules.items) }
{
    let mut modules = Vec::new(alloc);
    for text in texts {
        add_module(alloc, &mut modules, text)?;
    }
    Ok(modules)
}
