// A line of a file, and what it adds.
ghost use Rattle.std.specs.Prelude.{◌≡◌, false, nat_eq, if◌then◌else◌};
ghost use Rattle.std.specs.List.{list_any};
ghost use Rattle.vir_profile.specs.SocFiles.{is_line_feed};
ghost use Rattle.vir_soc.specs.LineKinds.{text_kind};
ghost use Rattle.vir_soc.specs.Lines.{without_mark};
ghost use Rattle.vir_soc.specs.Reader.Pieces as rules;
ghost use Rattle.vir_soc.specs.Soc.{after_line};
ghost use Rattle.vir_soc.specs.Reader.Answers.{Gives, kind_in};
ghost use Rattle.vir_soc.specs.Reader.Views.{content_of};
ghost use Rattle.vir_soc.specs.Votes.{after_votes};

use crate::bytes::{trim, without_mark};
use crate::draft::Draft;
use crate::kind::SocKind;
use crate::metadata::after_metadata;
use crate::stop::Stop;
use crate::votes::with_votes;
use std::alloc::Global;

fn after_votes(alloc: Global, draft: &mut Draft, text: &[u8]) -> Result<(), Stop>
    ensures { Gives kind_in (λ _. content_of draft.new) result (after_votes (content_of draft.old) text.now) }
{
    match &mut draft.profile {
        Some(profile) => with_votes(alloc, profile, text),
        None => Err(Stop::Kind(SocKind::NoAlternativeCount)),
    }
}

fn after_text(alloc: Global, draft: &mut Draft, line: u64, text: &[u8]) -> Result<(), Stop>
    requires { list_any is_line_feed text.now ≡ false }
    ensures { Gives kind_in (λ _. content_of draft.new) result
        (after_line (content_of draft.old) line (text_kind text.now)) }
{
    if text.is_empty() {
        return Ok(());
    }
    if text[0] == b'#' {
        after_metadata(alloc, draft, line, &text[1..])
    } else {
        after_votes(alloc, draft, text)
    }
}

/// The line without a byte order mark, which only the first line may have.
fn unmarked(line: u64, text: &[u8]) -> &[u8]
    ensures { result.now ≡ (if nat_eq line 1 then without_mark text.now else text.now) }
{
    if line == 1 { without_mark(text) } else { text }
}

/// Takes the line of this number, without its line feed.
#[tactic(auto, unfolding(crate::specs::Reader::Pieces::after_text))]
pub fn after_line(alloc: Global, draft: &mut Draft, line: u64, text: &[u8]) -> Result<(), Stop>
    requires { list_any is_line_feed text.now ≡ false }
    ensures { Gives kind_in (λ _. content_of draft.new) result (rules.after_text (content_of draft.old) line text.now) }
{
    after_text(alloc, draft, line, trim(unmarked(line, text)))
}
