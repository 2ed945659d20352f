// How names are hashed.
use sha2::{Digest, Sha256};
use std::hash::{BuildHasher, DefaultHasher, Hasher};

/// A hasher that depends on a whole text. So nobody can write a text whose names have one hash: with each name that is
/// chosen, all hashes change.
#[derive(Clone, Copy)]
pub struct NameHasher {
    initial: DefaultHasher,
}

impl NameHasher {
    /// The hasher for the names of this text.
    pub fn of(text: &[u8]) -> NameHasher {
        let mut initial = DefaultHasher::new();
        initial.write(&Sha256::digest(text));
        NameHasher { initial }
    }
}

impl BuildHasher for NameHasher {
    type Hasher = DefaultHasher;

    ghost build_hasher = { λ hasher. hasher.initial };

    fn build_hasher(&self) -> DefaultHasher {
        self.initial
    }
}
