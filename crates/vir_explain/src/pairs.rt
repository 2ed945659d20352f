// How many voters put one alternative before another, and the Condorcet winner, as a text.
ghost use Rattle.std.specs.Prelude.{◌≡◌, ◌++◌, ◌∷◌, ◌↔◌, ◌≢◌, ◌<◌, IsTrue, true, codes, decimal, map};
ghost use Rattle.std.specs.FinSet as set;
ghost use Rattle.vir_altset.specs.Sets.{all};
ghost use Rattle.vir_profile.specs.Profiles.{pairwise_weight};
ghost use Rattle.vir_profile.specs.Winners.{IsCondorcetWinner};
ghost use Rattle.vir_report.specs.ResultText.{spaced};
ghost use Rattle.vir_term.specs.Appending.{Appends};
ghost use Rattle.vir_explain.specs.PairTexts.{pairs_text, row_line, rows_text, up_to};
ghost use Rattle.vir_explain.specs.PairTexts.{winner_line, winner_of, winner_text, IsWinner};

use std::alloc::AllocError;
use vir_tables::Election;
use vir_term::push_number;

// Appends a space and a number.
#[tactic(auto, using(vir_term::proofs::Beginnings::beginnings))]
fn push_spaced(text: &mut Vec<u8>, number: u64) -> Result<(), AllocError>
    ensures { Appends result text.old.items text.new.items (32 ∷ decimal number) }
{
    text.extend_from_slice(b" ")?;
    push_number(text, number)
}

// Appends how many voters put x before each alternative.
#[tactic(auto, using(vir_term::proofs::Beginnings::beginnings))]
fn push_numbers(text: &mut Vec<u8>, election: &Election, x: u16) -> Result<(), AllocError>
    requires { set.contains (all election.now.profile.alternatives) x ≡ true }
    ensures { Appends result text.old.items text.new.items
        (spaced (map (pairwise_weight election.now.profile.lines x) (up_to election.now.profile.alternatives))) }
{
    let m = election.alternatives();
    for y in 0..m {
        push_spaced(text, election.prefers(x, y + 1))?;
    }
    Ok(())
}

// Appends the row of x.
#[tactic(auto, using(vir_term::proofs::Beginnings::beginnings))]
fn push_row(text: &mut Vec<u8>, election: &Election, x: u16) -> Result<(), AllocError>
    requires { set.contains (all election.now.profile.alternatives) x ≡ true }
    ensures { Appends result text.old.items text.new.items
        (row_line election.now.profile.lines election.now.profile.alternatives x) }
{
    text.extend_from_slice(b"prefer ")?;
    push_number(text, u64::from(x))?;
    text.extend_from_slice(b":")?;
    push_numbers(text, election, x)?;
    text.extend_from_slice(b"\n")
}

// Appends the rows of all alternatives.
#[tactic(auto, using(vir_term::proofs::Beginnings::beginnings))]
fn push_rows(text: &mut Vec<u8>, election: &Election) -> Result<(), AllocError>
    ensures { Appends result text.old.items text.new.items (rows_text election.now.profile) }
{
    let m = election.alternatives();
    for x in 0..m {
        push_row(text, election, x + 1)?;
    }
    Ok(())
}

// Whether w wins against y, or is y.
fn stands(election: &Election, w: u16, y: u16) -> bool
    requires first { set.contains (all election.now.profile.alternatives) w ≡ true }
    requires second { set.contains (all election.now.profile.alternatives) y ≡ true }
    ensures { IsTrue result ↔ (y ≢ w
        → pairwise_weight election.now.profile.lines y w < pairwise_weight election.now.profile.lines w y) }
{
    y == w || election.beats(w, y)
}

// Whether w is the Condorcet winner: it wins against each other alternative.
fn is_winner(election: &Election, w: u16) -> bool
    requires { set.contains (all election.now.profile.alternatives) w ≡ true }
    ensures { IsTrue result ↔ IsCondorcetWinner w (all election.now.profile.alternatives) election.now.profile.lines }
{
    let m = election.alternatives();
    for y in 0..m {
        if !stands(election, w, y + 1) {
            return false;
        }
    }
    true
}

// The Condorcet winner, if there is one.
fn winner(election: &Election) -> Option<u16>
    ensures { result ≡ winner_of election.now.profile }
{
    let m = election.alternatives();
    for w in 0..m {
        if is_winner(election, w + 1) {
            return Some(w + 1);
        }
    }
    None
}

// Appends the winner's number, or that there is none.
#[tactic(auto, using(vir_term::proofs::Beginnings::beginnings))]
fn push_winner(text: &mut Vec<u8>, winner: Option<u16>) -> Result<(), AllocError>
    ensures { Appends result text.old.items text.new.items (winner_text winner) }
{
    match winner {
        Some(w) => push_number(text, u64::from(w)),
        None => text.extend_from_slice(b"none"),
    }
}

// Appends the line of the Condorcet winner.
#[tactic(auto, using(vir_term::proofs::Beginnings::beginnings))]
fn push_winner_line(text: &mut Vec<u8>, winner: Option<u16>) -> Result<(), AllocError>
    ensures { Appends result text.old.items text.new.items (winner_line winner) }
{
    text.extend_from_slice(b"condorcet winner: ")?;
    push_winner(text, winner)?;
    text.extend_from_slice(b"\n")
}

/// Appends the text of pairs: for each alternative how many voters put it before each one, and then the Condorcet
/// winner, or that there is none.
#[tactic(auto, using(vir_term::proofs::Beginnings::beginnings))]
pub fn push_pairs(text: &mut Vec<u8>, election: &Election) -> Result<(), AllocError>
    ensures { Appends result text.old.items text.new.items (pairs_text election.now.profile) }
{
    push_rows(text, election)?;
    push_winner_line(text, winner(election))
}
