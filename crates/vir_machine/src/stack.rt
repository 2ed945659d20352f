// A stack whose room is made with it.
ghost use Rattle.std.specs.Prelude.{◌≡◌, ◌<◌, [], ◌∷◌, length, IfOk};

use std::alloc::{AllocError, Global};
use std::marker::Model;

/// A stack with room for a number of items, seen as its items, the top first, and that number. The
/// room is made with the stack, so that no push takes memory.
#[derive(Drop)]
pub struct Stack<T> {
    items: Vec<T>,
    room: usize,
}

impl<T> Model for Stack<T> {
    ghost use Rattle.std.specs.Prelude.{ℕ, List, ◌≤◌, vec_capacity};
    ghost use mathlib.Core.List.{reverse};

    ghost Value = { List T × ℕ };

    ghost view = { λ stack. (reverse stack.items.items, stack.room) };

    ghost invariant = { λ stack. stack.room ≤ vec_capacity stack.items };
}

impl<T: Drop> Stack<T> {
    /// A stack without items.
    pub fn new(alloc: Global, room: usize) -> Result<Stack<T>, AllocError>
        ensures { IfOk result (λ stack. stack ≡ ([], room)) }
    {
        let items = Vec::with_capacity(alloc, room)?;
        Ok(Stack { items, room })
    }

    /// Puts an item on top.
    pub fn push(&mut self, item: T)
        requires { length self.old.0 < self.old.1 }
        ensures { self.new ≡ (item ∷ self.old.0, self.old.1) }
    {
        match self.items.push(item) {
            Ok(()) => {}
            Err(_) => unreachable!(),
        }
    }

    /// Takes the item on top.
    pub fn pop(&mut self) -> T
        requires { 0 < length self.old.0 }
        ensures item { self.old.0 ≡ result ∷ self.new.0 }
        ensures room { self.new.1 ≡ self.old.1 }
    {
        match self.items.pop() {
            Some(item) => item,
            None => unreachable!(),
        }
    }
}
