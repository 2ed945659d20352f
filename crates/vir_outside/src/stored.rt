// A file in memory, the search for one by its name, and what is left of one.
ghost use Rattle.std.specs.Prelude.{◌≡◌, ◌+◌, ◌^◌, ◌<◌, length, take, drop, min, Some, IsSome, is_some};
ghost use Rattle.std.specs.Str.{bytes_eq};
ghost use Rattle.vir_outside.specs.Memory.{rest_at};
ghost use Rattle.vir_outside.specs.Shelf.{content_of};

use std::marker::Model;

// A file, seen as its name and its bytes.
#[derive(Drop)]
pub struct StoredFile {
    pub name: String,
    pub content: Vec<u8>,
}

impl Model for StoredFile {
    ghost use Rattle.std.specs.Prelude.{ℕ, List, string_bytes};

    ghost Value = { List ℕ × List ℕ };

    ghost view = { λ f. (string_bytes f.name, f.content.items) };
}

impl StoredFile {
    fn is_named(&self, name: &str) -> bool
        ensures { result ≡ bytes_eq self.now.0 name.now }
    {
        self.name.as_str() == name
    }

    // The bytes behind the first so many.
    fn behind(&self, taken: usize) -> &[u8]
        ensures bytes { result.now ≡ drop taken self.now.1 }
        ensures fits { taken + length result.now < 2 ^ 64 }
    {
        self.content.get(taken..).unwrap_or(&[])
    }
}

// The place of the first file of that name.
pub fn place_of(files: &[StoredFile], name: &str) -> Option<usize>
    ensures found { rest_at files.now result 0 ≡ content_of files.now name.now }
    ensures within { is_some result ≡ is_some (content_of files.now name.now) }
{
    for (place, file) in files.iter().enumerate() {
        if file.is_named(name) {
            return Some(place);
        }
    }
    None
}

// What is left of the file at a place, behind the bytes that were taken.
pub fn left_at(files: &[StoredFile], place: usize, taken: usize) -> &[u8]
    requires { IsSome (rest_at files.now (Some place) taken) }
    ensures bytes { rest_at files.now (Some place) taken ≡ Some result.now }
    ensures fits { taken + length result.now < 2 ^ 64 }
{
    files[place].behind(taken)
}

// Copies as much of the front as there is and fits. Says how much.
pub fn copy_front(buf: &mut [u8], from: &[u8]) -> usize
    ensures count { result ≡ min (length buf.old) (length from.now) }
    ensures bytes { take result buf.new ≡ take result from.now }
{
    let count = buf.len().min(from.len());
    buf[..count].copy_from_slice(&from[..count]);
    count
}
