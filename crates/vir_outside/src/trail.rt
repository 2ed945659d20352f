// What a shelf or a sink was asked for so far: for proofs alone.
ghost use Rattle.std.specs.Prelude.{◌≡◌, List, [], ◌∷◌, length};
ghost use Rattle.std.specs.Borrow.{ftrue};
ghost use Rattle.vir_outside.specs.Shelf.{Request, to_read, to_select, to_write};

use std::marker::Model;

// It takes no bytes, and its methods do nothing when they run.
#[derive(Drop)]
pub struct Trail {
    // The latest first.
    pub ghost requests: { List Request },
}

impl Model for Trail {
    ghost also_owns = { λ _. ftrue };
}

impl Trail {
    pub fn new() -> Trail
        ensures { result.requests ≡ [] }
    {
        Trail {}
    }

    // The trail behind a call that selects the file of this name, behind so many faults.
    pub fn selecting(_before: &Trail, _name: &[u8], _faults: &u64) -> Trail
        ensures { result.requests ≡ to_select _name.now _faults.now ∷ _before.now.requests }
    {
        Trail {}
    }

    // The trail behind a call that reads on and gives these bytes.
    pub fn reading(_before: &Trail, _given: &[u8]) -> Trail
        ensures { result.requests ≡ to_read (length _given.now) ∷ _before.now.requests }
    {
        Trail {}
    }

    // The trail behind a call that writes this piece, of which these bytes are taken.
    pub fn writing(_before: &Trail, _piece: &[u8], _taken: &[u8]) -> Trail
        ensures { result.requests ≡ to_write (length _piece.now) (length _taken.now) ∷ _before.now.requests }
    {
        Trail {}
    }
}
