// A file, written.
ghost use Rattle.std.specs.Prelude.{◌≡◌, ◌++◌, ◌≤◌, IfOk, OnOk, Ok, decimal, length};
ghost use Rattle.std.specs.List.{flat_map};
ghost use Rattle.vir_profile.specs.Profiles.{IsProfile};
ghost use Rattle.vir_profile.specs.SocFiles.{AreNames, File};
ghost use Rattle.vir_soc.specs.Limits.{profile_size_limit};
ghost use Rattle.vir_soc.specs.Soc.{soc};
ghost use Rattle.vir_soc.specs.SocText.{counts_text, member_text, metadata_text, name_text, order_text, soc_text};
ghost use Rattle.vir_soc.specs.SocText.{votes_text};

use itoa::Buffer;
use std::alloc::{AllocError, Global};
use vir_profile::{Ballot, Entry, Name, Profile, SocFile};

fn push_number(out: &mut Vec<u8>, n: u64) -> Result<(), AllocError>
    ensures { OnOk result (out.new.items ≡ out.old.items ++ decimal n) }
{
    let mut buffer = Buffer::new();
    out.extend_from_slice(buffer.format(n).as_bytes())
}

#[tactic(auto, unfolding(crate::specs::SocText::metadata_text))]
fn push_metadata(out: &mut Vec<u8>, key: &[u8], value: &[u8]) -> Result<(), AllocError>
    ensures { OnOk result (out.new.items ≡ out.old.items ++ metadata_text key.now value.now) }
{
    out.extend_from_slice(b"# ")?;
    out.extend_from_slice(key)?;
    out.extend_from_slice(b": ")?;
    out.extend_from_slice(value)?;
    out.extend_from_slice(b"\n")
}

/// Appends a line of metadata that states a number.
fn push_count(out: &mut Vec<u8>, key: &[u8], n: u64) -> Result<(), AllocError>
    ensures { OnOk result (out.new.items ≡ out.old.items ++ metadata_text key.now (decimal n)) }
{
    let mut buffer = Buffer::new();
    push_metadata(out, key, buffer.format(n).as_bytes())
}

fn push_counts(out: &mut Vec<u8>, profile: &Profile) -> Result<(), AllocError>
    ensures { OnOk result (out.new.items ≡ out.old.items ++ counts_text profile.now) }
{
    push_metadata(out, b"DATA TYPE", b"soc")?;
    push_count(
        out,
        b"NUMBER ALTERNATIVES",
        u64::from(profile.alternatives()),
    )?;
    push_count(out, b"NUMBER VOTERS", profile.total())?;
    push_count(out, b"NUMBER UNIQUE ORDERS", profile.lines() as u64)
}

fn push_name(out: &mut Vec<u8>, name: &Name) -> Result<(), AllocError>
    ensures { OnOk result (out.new.items ≡ out.old.items ++ name_text name.now) }
{
    out.extend_from_slice(b"# ALTERNATIVE NAME ")?;
    push_number(out, u64::from(name.number))?;
    out.extend_from_slice(b": ")?;
    out.extend_from_slice(name.text.bytes())?;
    out.extend_from_slice(b"\n")
}

fn push_names(out: &mut Vec<u8>, names: &[Name]) -> Result<(), AllocError>
    ensures { OnOk result (out.new.items ≡ out.old.items ++ flat_map name_text names.now) }
{
    for name in names {
        push_name(out, name)?;
    }
    Ok(())
}

/// Appends a member of an order, with the comma before it.
fn push_member(out: &mut Vec<u8>, place: usize, x: u16) -> Result<(), AllocError>
    ensures { OnOk result (out.new.items ≡ out.old.items ++ member_text place x) }
{
    if place == 0 {
        push_number(out, u64::from(x))
    } else {
        out.extend_from_slice(b",")?;
        push_number(out, u64::from(x))
    }
}

fn push_order(out: &mut Vec<u8>, order: &Ballot) -> Result<(), AllocError>
    ensures { OnOk result (out.new.items ≡ out.old.items ++ order_text order.now) }
{
    for place in 0..order.len() {
        push_member(out, place, order.at(place))?;
    }
    Ok(())
}

fn push_votes(out: &mut Vec<u8>, entry: &Entry) -> Result<(), AllocError>
    ensures { OnOk result (out.new.items ≡ out.old.items ++ votes_text entry.now) }
{
    push_number(out, entry.weight)?;
    out.extend_from_slice(b": ")?;
    push_order(out, &entry.order)?;
    out.extend_from_slice(b"\n")
}

fn push_lines(out: &mut Vec<u8>, lines: &[Entry]) -> Result<(), AllocError>
    ensures { OnOk result (out.new.items ≡ out.old.items ++ flat_map votes_text lines.now) }
{
    for entry in lines {
        push_votes(out, entry)?;
    }
    Ok(())
}

/// The canonical text of a file: its counts, its names by ascending number and its lines of votes,
/// each line ended by a line feed. It may be longer than a reader takes. It fails only where memory
/// runs out.
pub fn write_soc(alloc: Global, file: &SocFile) -> Result<Vec<u8>, AllocError>
    ensures text { IfOk result (λ text. text.items ≡ soc_text file.now) }
    // It reads back as the same file, where it is as short as a file may be.
    ensures read_back { IfOk result
        (λ text. length text.items ≤ profile_size_limit → soc text.items ≡ Ok file.now) }
{
    let mut out = Vec::new(alloc);
    push_counts(&mut out, file.profile())?;
    push_names(&mut out, file.names())?;
    push_lines(&mut out, file.profile().entries())?;
    Ok(out)
}

/// The canonical text of any file within the limits of a profile and of names reads back as that
/// file, where it is as short as a file may be.
pub fn written_files_read_back()
    ensures { (file : File)
        → IsProfile file.profile → AreNames file.profile.alternatives file.names
        → length (soc_text file) ≤ profile_size_limit → soc (soc_text file) ≡ Ok file }
{}
