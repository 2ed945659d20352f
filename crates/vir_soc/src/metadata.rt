// Lines of metadata.
ghost use Rattle.std.specs.Prelude.{◌≡◌, ◌≤◌, ◌<◌, false, length, Ok};
ghost use Rattle.std.specs.List.{list_any};
ghost use Rattle.vir_altset.specs.Sets.{limit};
ghost use Rattle.vir_profile.specs.SocFiles.{is_line_feed};
ghost use Rattle.vir_soc.specs.Keys.{key_of, name_key};
ghost use Rattle.vir_soc.specs.LineKinds.{hash_kind};
ghost use Rattle.vir_soc.specs.Metadata.{after_key, is_soc};
ghost use Rattle.vir_soc.specs.Names.{with_name};
ghost use Rattle.vir_soc.specs.Soc.{after_line};
ghost use Rattle.vir_soc.specs.Reader.Answers.{Gives, kind_in};
ghost use Rattle.vir_soc.specs.Reader.Given.{MayBeName};
ghost use Rattle.vir_soc.specs.Reader.Steps.{IsKey};
ghost use Rattle.vir_soc.specs.Reader.Views.{content_of};

use crate::bytes::{cut, number, trim};
use crate::draft::{Draft, take_alternatives};
use crate::key::Key;
use crate::kind::SocKind;
use crate::names::Names;
use crate::stated::number_stated;
use crate::stop::Stop;
use std::alloc::Global;
use vir_profile::{LIMIT, NameText};

/// The key of the name of this alternative; a number above 2^64 is given as 2^64.
fn name_key(number: Option<u128>) -> Key
    ensures exact { result ≡ name_key number }
    ensures known { IsKey result }
{
    match number {
        Some(i) => if i == 0 || i > u128::from(LIMIT) {
            Key::Other
        } else {
            Key::NameOf(i as u16)
        },
        None => Key::Other,
    }
}

/// What the key of a metadata line asks for.
fn key_of(key: &[u8]) -> Key
    ensures exact { result ≡ key_of key.now }
    ensures known { IsKey result }
{
    if key == b"DATA TYPE".as_slice() {
        Key::DataType
    } else if key == b"NUMBER ALTERNATIVES".as_slice() {
        Key::Alternatives
    } else if key == b"NUMBER VOTERS".as_slice() {
        Key::Voters
    } else if key == b"NUMBER UNIQUE ORDERS".as_slice() {
        Key::Orders
    } else {
        match key.strip_prefix(b"ALTERNATIVE NAME ".as_slice()) {
            Some(rest) => name_key(number(rest)),
            None => Key::Other,
        }
    }
}

fn is_soc(value: &[u8]) -> bool
    ensures { result ≡ is_soc value.now }
{
    value.eq_ignore_ascii_case(b"soc")
}

/// Gives this alternative this text as its name.
fn take_name(alloc: Global, names: &mut Names, number: u16, text: &[u8]) -> Result<(), Stop>
    requires alternative { 1 ≤ number }
    requires text { MayBeName text.now }
    ensures { Gives kind_in (λ _. names.new) result (Ok (with_name number text.now names.old)) }
{
    let bytes = Vec::from_slice(alloc, text)?;
    names.put(number, NameText::of(bytes))?;
    Ok(())
}

/// Takes a key with its value.
fn after_key(
    alloc: Global,
    draft: &mut Draft,
    line: u64,
    key: Key,
    value: &[u8],
) -> Result<(), Stop>
    requires key { IsKey key }
    requires value { MayBeName value.now }
    ensures { Gives kind_in (λ _. content_of draft.new) result
        (after_key (content_of draft.old) line key value.now) }
{
    match key {
        Key::DataType => if is_soc(value) {
            Ok(())
        } else {
            Err(Stop::Kind(SocKind::WrongType))
        },
        Key::Alternatives => {
            take_alternatives(alloc, &mut draft.profile, value)?;
            Ok(())
        }
        Key::Voters => {
            draft.voters = Some(number_stated(draft.voters, line, value)?);
            Ok(())
        }
        Key::Orders => {
            draft.orders = Some(number_stated(draft.orders, line, value)?);
            Ok(())
        }
        Key::NameOf(number) => take_name(alloc, &mut draft.names, number, value),
        Key::Other => Ok(()),
    }
}

/// Takes a metadata line, here without its hash.
pub fn after_metadata(alloc: Global, draft: &mut Draft, line: u64, text: &[u8]) -> Result<(), Stop>
    requires { list_any is_line_feed text.now ≡ false }
    ensures { Gives kind_in (λ _. content_of draft.new) result
        (after_line (content_of draft.old) line (hash_kind text.now)) }
{
    let (before, after) = cut(b':', text);
    match after {
        Some(value) => after_key(alloc, draft, line, key_of(trim(before)), trim(value)),
        None => Ok(()),
    }
}
