// The line of scores.
ghost use Rattle.std.specs.Prelude.{◌≡◌, ◌++◌, length, codes, decimal, Some};
ghost use Rattle.std.specs.Fmt.{signed_decimal};
ghost use Rattle.std.specs.List.{flat_map};
ghost use Rattle.vir_altset.specs.Sets.{limit};
ghost use Rattle.vir_mean.specs.Members.{AreMembers};
ghost use Rattle.vir_mean.specs.Numbers.{score_of};
ghost use Rattle.vir_term.specs.Appending.{Appends};
ghost use Rattle.vir_explain.specs.Visits.{scored};
ghost use Rattle.vir_explain.specs.VisitTexts.{scored_text, scores_text};

use itoa::Buffer;
use std::alloc::AllocError;
use vir_profile::AltSet;
use vir_term::push_number;

// Appends a member and its score.
#[tactic(auto, using(vir_term::proofs::Beginnings::beginnings))]
fn push_scored(text: &mut Vec<u8>, member: u16, score: i128) -> Result<(), AllocError>
    ensures { Appends result text.old.items text.new.items
        (scored_text (record { member = member; value = score })) }
{
    let mut buffer = Buffer::new();
    text.extend_from_slice(b" ")?;
    push_number(text, u64::from(member))?;
    text.extend_from_slice(b"=")?;
    text.extend_from_slice(buffer.format(score).as_bytes())
}

// Appends the listed members, each with its score.
#[tactic(auto, using(vir_term::proofs::Beginnings::beginnings))]
fn push_each_scored(
    text: &mut Vec<u8>,
    domain: &AltSet,
    members: &[u16],
    scores: &[i128],
) -> Result<(), AllocError>
    requires members { AreMembers domain.now members.now }
    requires size { length scores.now ≡ limit }
    ensures { Appends result text.old.items text.new.items
        (flat_map scored_text (scored (score_of scores.now) members.now)) }
{
    for x in members {
        push_scored(text, *x, scores[usize::from(*x) - 1])?;
    }
    Ok(())
}

// Appends the line of the scores of the listed members.
#[tactic(auto, using(vir_term::proofs::Beginnings::beginnings))]
pub(crate) fn push_scores(
    text: &mut Vec<u8>,
    domain: &AltSet,
    members: &[u16],
    scores: &[i128],
) -> Result<(), AllocError>
    requires members { AreMembers domain.now members.now }
    requires size { length scores.now ≡ limit }
    ensures { Appends result text.old.items text.new.items
        (scores_text (Some (scored (score_of scores.now) members.now))) }
{
    text.extend_from_slice(b"scores:")?;
    push_each_scored(text, domain, members, scores)?;
    text.extend_from_slice(b"\n")
}
