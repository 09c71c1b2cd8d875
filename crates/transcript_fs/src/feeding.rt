//! What is hashed of elements, numbers and statements.

ghost use Rattle.std.specs.Prelude.{◌<◌, ◌^◌, ◌++◌, ℕ, List, length};
ghost use Rattle.std.specs.List.{flat_map};
ghost use Rattle.std.specs.Int.{w32, to_le_bytes};
ghost use Rattle.sha2.specs.Hashers.{Holds256};
ghost use Rattle.field_ext.specs.Bytes.{bytes_of};
ghost use Rattle.transcript_fs.specs.Transcript.{number_bytes, counted_bytes, statement_bytes};

use crate::statement::Statement;
use byteorder::{ByteOrder, LittleEndian};
use field_ext::{Ext, Fp};
use sha2::{Digest, Sha256};

/// Adds elements to a hasher's message.
pub fn feed_elements(hasher: &mut Sha256, elements: &[Ext])
    ensures { (m : List ℕ) → Holds256 hasher.old m
        → Holds256 hasher.new (m ++ flat_map bytes_of elements.now) }
{
    for element in elements {
        hasher.update(element.to_bytes().as_slice());
    }
}

/// Adds a number's four bytes to a hasher's message, the lowest first.
fn feed_number(hasher: &mut Sha256, number: u32)
    ensures { (m : List ℕ) → Holds256 hasher.old m
        → Holds256 hasher.new (m ++ to_le_bytes w32 number) }
{
    let mut bytes = [0u8; 4];
    LittleEndian::write_u32(&mut bytes, number);
    hasher.update(bytes.as_slice());
}

/// Adds a count of numbers and the numbers to a hasher's message.
pub fn feed_numbers(hasher: &mut Sha256, numbers: &[Fp])
    requires { length numbers.now < 2 ^ 32 }
    ensures { (m : List ℕ) → Holds256 hasher.old m
        → Holds256 hasher.new (m ++ counted_bytes (length numbers.now)
        (flat_map number_bytes numbers.now)) }
{
    feed_number(hasher, numbers.len() as u32);
    for number in numbers {
        feed_number(hasher, number.value());
    }
}

/// Adds a statement's bytes to a hasher's message.
pub fn feed_statement(hasher: &mut Sha256, statement: &Statement)
    ensures { (m : List ℕ) → Holds256 hasher.old m
        → Holds256 hasher.new (m ++ statement_bytes statement.now.text statement.now.inputs
        statement.now.outputs) }
{
    let text = statement.text();
    feed_number(hasher, text.len() as u32);
    hasher.update(text);
    feed_numbers(hasher, statement.inputs());
    feed_numbers(hasher, statement.outputs());
}
