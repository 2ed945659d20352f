// The rules on that not all are rejected, and that somebody is. Each law is the contract of a function that
// does nothing, and is named after the rule.
ghost use Rattle.std.specs.Prelude.{codes};
ghost use Rattle.vir_sound.specs.Truth.{IsSound};

/// `defer`, `pass` and the four eliminators have `nb`.
#[tactic(auto, using(crate::proofs::KeepingRows::nb_leaf_sound))]
pub fn nb_leaf()
    ensures { IsSound 24 (codes "nb-leaf") }
{}

/// `rev(m)` has `nb` where m has `el`.
#[tactic(auto, using(crate::proofs::KeepingRows::nb_rev_sound))]
pub fn nb_rev()
    ensures { IsSound 25 (codes "nb-rev") }
{}

/// `seq(m,n)` has `nb` where both parts have `nb`.
#[tactic(auto, using(crate::proofs::KeepingRows::nb_seq_sound))]
pub fn nb_seq()
    ensures { IsSound 26 (codes "nb-seq") }
{}

/// `par(m,n)` has `nb` where m has `nb`.
#[tactic(auto, using(crate::proofs::KeepingRows::nb_par_left_sound))]
pub fn nb_par_left()
    ensures { IsSound 27 (codes "nb-par-left") }
{}

/// `par(m,n)` has `nb` where n has `nb`.
#[tactic(auto, using(crate::proofs::KeepingRows::nb_par_right_sound))]
pub fn nb_par_right()
    ensures { IsSound 28 (codes "nb-par-right") }
{}

/// `loop(k,m)` has `nb` where m has `nb`.
#[tactic(auto, using(crate::proofs::KeepingRows::nb_loop_sound))]
pub fn nb_loop()
    ensures { IsSound 29 (codes "nb-loop") }
{}

/// Each rule has `nb` where it has `el`.
#[tactic(auto, using(crate::proofs::KeepingRows::nb_el_sound))]
pub fn nb_el()
    ensures { IsSound 30 (codes "nb-el") }
{}

/// Each rule has `nb` where it has `ne` and `defers(1)`.
#[tactic(auto, using(crate::proofs::KeepingRows::nb_defers_sound))]
pub fn nb_defers()
    ensures { IsSound 31 (codes "nb-defers") }
{}

/// `drop` has `decr`.
#[tactic(auto, using(crate::proofs::KeepingRows::decr_leaf_sound))]
pub fn decr_leaf()
    ensures { IsSound 32 (codes "decr-leaf") }
{}

/// `seq(m,n)` has `decr` where m has `decr`.
#[tactic(auto, using(crate::proofs::KeepingRows::decr_seq_sound))]
pub fn decr_seq()
    ensures { IsSound 33 (codes "decr-seq") }
{}

/// Each rule has `decr` where it has `elim(1)`.
#[tactic(auto, using(crate::proofs::KeepingRows::decr_elim_sound))]
pub fn decr_elim()
    ensures { IsSound 34 (codes "decr-elim") }
{}

/// Each rule has `decr` where it has `rejects(1)`.
#[tactic(auto, using(crate::proofs::KeepingRows::decr_rejects_sound))]
pub fn decr_rejects()
    ensures { IsSound 35 (codes "decr-rejects") }
{}

/// Each rule has `decr` where it has `ne` and `defers(1)`.
#[tactic(auto, using(crate::proofs::KeepingRows::decr_defers_sound))]
pub fn decr_defers()
    ensures { IsSound 36 (codes "decr-defers") }
{}

/// `until(k,m)` has `nb` where m has `nb`.
#[tactic(auto, using(crate::proofs::KeepingRows::nb_until_sound))]
pub fn nb_until()
    ensures { IsSound 92 (codes "nb-until") }
{}
