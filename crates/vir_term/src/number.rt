// Numbers as texts.
ghost use Rattle.std.specs.Prelude.{◌≡◌, OnErr, decimal};
ghost use Rattle.vir_term.specs.Appending.{Appends};

use itoa::Buffer;
use std::alloc::AllocError;

/// Appends the digits of a number, without a leading zero. After want of memory the text is as it was.
pub fn push_number(text: &mut Vec<u8>, number: u64) -> Result<(), AllocError>
    ensures appended { Appends result text.old.items text.new.items (decimal number) }
    ensures unchanged { OnErr result (text.new.items ≡ text.old.items) }
{
    let mut buffer = Buffer::new();
    text.extend_from_slice(buffer.format(number).as_bytes())
}
