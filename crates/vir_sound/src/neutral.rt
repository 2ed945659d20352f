// The rules on that names make no difference. Each law is the contract of a function that does nothing, and is
// named after the rule.
ghost use Rattle.std.specs.Prelude.{codes};
ghost use Rattle.vir_sound.specs.Truth.{IsSound};

/// `elect`, `defer`, `plurality` and the four eliminators have `neut`.
#[tactic(auto, using(crate::proofs::NeutralRows::neut_leaf_sound))]
pub fn neut_leaf()
    ensures { IsSound 83 (codes "neut-leaf") }
{}

/// `rev(m)` has `neut` where m has `neut`.
#[tactic(auto, using(crate::proofs::NeutralRows::neut_rev_sound))]
pub fn neut_rev()
    ensures { IsSound 84 (codes "neut-rev") }
{}

/// `seq(m,n)` has `neut` where both parts have `neut`.
#[tactic(auto, using(crate::proofs::NeutralRows::neut_seq_sound))]
pub fn neut_seq()
    ensures { IsSound 85 (codes "neut-seq") }
{}

/// `par(m,n)` has `neut` where both parts have `neut`.
#[tactic(auto, using(crate::proofs::NeutralRows::neut_par_sound))]
pub fn neut_par()
    ensures { IsSound 86 (codes "neut-par") }
{}

/// `loop(k,m)` has `neut` where m has `neut`.
#[tactic(auto, using(crate::proofs::NeutralRows::neut_loop_sound))]
pub fn neut_loop()
    ensures { IsSound 87 (codes "neut-loop") }
{}

/// `until(k,m)` has `neut` where m has `neut`.
#[tactic(auto, using(crate::proofs::NeutralRows::neut_until_sound))]
pub fn neut_until()
    ensures { IsSound 88 (codes "neut-until") }
{}
