// The rules on who is elected. Each law is the contract of a function that does nothing, and is named after the
// rule.
ghost use Rattle.std.specs.Prelude.{codes};
ghost use Rattle.vir_sound.specs.Truth.{IsSound};

/// `defer`, `pass`, `drop` and the four eliminators have `ne`.
#[tactic(auto, using(crate::proofs::ElectingRows::ne_leaf_sound))]
pub fn ne_leaf()
    ensures { IsSound 1 (codes "ne-leaf") }
{}

/// `rev(m)` has `ne`.
#[tactic(auto, using(crate::proofs::ElectingRows::ne_rev_sound))]
pub fn ne_rev()
    ensures { IsSound 2 (codes "ne-rev") }
{}

/// `seq(m,n)` has `ne` where both parts have `ne`.
#[tactic(auto, using(crate::proofs::ElectingRows::ne_seq_sound))]
pub fn ne_seq()
    ensures { IsSound 3 (codes "ne-seq") }
{}

/// `par(m,n)` has `ne` where both parts have `ne`.
#[tactic(auto, using(crate::proofs::ElectingRows::ne_par_sound))]
pub fn ne_par()
    ensures { IsSound 4 (codes "ne-par") }
{}

/// `loop(k,m)` has `ne` where m has `ne`.
#[tactic(auto, using(crate::proofs::ElectingRows::ne_loop_sound))]
pub fn ne_loop()
    ensures { IsSound 5 (codes "ne-loop") }
{}

/// `elect` has `ea`.
#[tactic(auto, using(crate::proofs::ElectingRows::ea_leaf_sound))]
pub fn ea_leaf()
    ensures { IsSound 6 (codes "ea-leaf") }
{}

/// `seq(m,n)` has `ea` where m has `ea`.
#[tactic(auto, using(crate::proofs::ElectingRows::ea_seq_sound))]
pub fn ea_seq()
    ensures { IsSound 7 (codes "ea-seq") }
{}

/// `par(m,n)` has `ea` where m has `ea`.
#[tactic(auto, using(crate::proofs::ElectingRows::ea_par_left_sound))]
pub fn ea_par_left()
    ensures { IsSound 8 (codes "ea-par-left") }
{}

/// `par(m,n)` has `ea` where n has `ea`.
#[tactic(auto, using(crate::proofs::ElectingRows::ea_par_right_sound))]
pub fn ea_par_right()
    ensures { IsSound 9 (codes "ea-par-right") }
{}

/// `elect` and `plurality` have `el`.
#[tactic(auto, using(crate::proofs::ElectingRows::el_leaf_sound))]
pub fn el_leaf()
    ensures { IsSound 10 (codes "el-leaf") }
{}

/// `seq(m,n)` has `el` where m has `el`.
#[tactic(auto, using(crate::proofs::ElectingRows::el_seq_first_sound))]
pub fn el_seq_first()
    ensures { IsSound 11 (codes "el-seq-first") }
{}

/// `seq(m,n)` has `el` where m has `nb`, and n has `el`.
#[tactic(auto, using(crate::proofs::ElectingRows::el_seq_second_sound))]
pub fn el_seq_second()
    ensures { IsSound 12 (codes "el-seq-second") }
{}

/// `par(m,n)` has `el` where m has `el`.
#[tactic(auto, using(crate::proofs::ElectingRows::el_par_left_sound))]
pub fn el_par_left()
    ensures { IsSound 13 (codes "el-par-left") }
{}

/// `par(m,n)` has `el` where n has `el`.
#[tactic(auto, using(crate::proofs::ElectingRows::el_par_right_sound))]
pub fn el_par_right()
    ensures { IsSound 14 (codes "el-par-right") }
{}

/// Each rule has `el` where it has `ea`.
#[tactic(auto, using(crate::proofs::ElectingRows::el_ea_sound))]
pub fn el_ea()
    ensures { IsSound 15 (codes "el-ea") }
{}

/// `until(k,m)` has `ne` where m has `ne`.
#[tactic(auto, using(crate::proofs::ElectingRows::ne_until_sound))]
pub fn ne_until()
    ensures { IsSound 89 (codes "ne-until") }
{}
