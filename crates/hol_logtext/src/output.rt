// Fields at the end of a text.
ghost use Rattle.std.specs.Prelude.{◌≡◌, ℕ, List, [], ◌∷◌, ◌++◌, decimal, map};
ghost use Rattle.hol_logtext.specs.Fields.{spaced};
ghost use Rattle.hol_logtext.specs.LineText.{pair_fields};
ghost use Rattle.hol_logtext.specs.Writing.{Writes};

use itoa::Buffer;
use std::alloc::AllocError;

/// Puts a text at the end.
pub(crate) fn write_text(out: &mut Vec<u8>, text: &str) -> Result<(), AllocError>
    ensures { Writes result out.old.items out.new.items (λ rest. text.now ++ rest) }
{
    out.extend_from_slice(text.as_bytes())
}

/// Puts a byte at the end.
pub(crate) fn write_byte(out: &mut Vec<u8>, byte: u8) -> Result<(), AllocError>
    ensures { Writes result out.old.items out.new.items (λ rest. byte ∷ rest) }
{
    out.push(byte)?;
    Ok(())
}

/// Puts a space and a field at the end.
pub(crate) fn write_field(out: &mut Vec<u8>, field: &str) -> Result<(), AllocError>
    ensures { Writes result out.old.items out.new.items (spaced (field.now ∷ [])) }
{
    write_byte(out, b' ')?;
    write_text(out, field)
}

/// Puts a space and a number at the end.
pub(crate) fn write_number(out: &mut Vec<u8>, number: u32) -> Result<(), AllocError>
    ensures { Writes result out.old.items out.new.items (spaced (decimal number ∷ [])) }
{
    let mut buffer = Buffer::new();
    write_field(out, buffer.format(number))
}

/// Puts two numbers at the end, each behind a space.
pub(crate) fn write_pair(out: &mut Vec<u8>, first: u32, second: u32) -> Result<(), AllocError>
    ensures { Writes result out.old.items out.new.items (spaced (decimal first ∷ decimal second ∷ [])) }
{
    write_number(out, first)?;
    write_number(out, second)
}

/// Puts a name and a number at the end, each behind a space.
pub(crate) fn write_name_and_number(
    out: &mut Vec<u8>,
    name: &str,
    number: u32,
) -> Result<(), AllocError>
    ensures { Writes result out.old.items out.new.items (spaced (name.now ∷ decimal number ∷ [])) }
{
    write_field(out, name)?;
    write_number(out, number)
}

/// Puts numbers at the end, each behind a space.
pub(crate) fn write_numbers(out: &mut Vec<u8>, numbers: &[u32]) -> Result<(), AllocError>
    ensures { Writes result out.old.items out.new.items (spaced (map decimal numbers.now)) }
{
    for number in numbers {
        write_number(out, *number)?;
    }
    Ok(())
}

/// Puts pairs of numbers at the end, each number behind a space.
pub(crate) fn write_pairs(out: &mut Vec<u8>, pairs: &[(u32, u32)]) -> Result<(), AllocError>
    ensures { Writes result out.old.items out.new.items (spaced (pair_fields pairs.now)) }
{
    for pair in pairs {
        write_pair(out, pair.0, pair.1)?;
    }
    Ok(())
}
