// Whole inputs and whole pieces of output.
ghost use Rattle.std.specs.Prelude.{◌≡◌, ◌≤◌, ◌+◌, ◌++◌, [], ◌∷◌, take, true, false, length, Ok, Err, IfOk, OnOk, OnErr, IsErrOf, IfErr, IfSome, Contains, ◌<◌};
ghost use Rattle.std.specs.Io.KnownBytes.{Appends};
ghost use Rattle.hol_model.specs.declared.fault.Fault.TheVariants.{Memory, ReadFault, WriteFault, TooLong};
ghost use Rattle.hol_model.specs.Texts.KnownText.{Tells};
ghost use Rattle.hol_device_io.specs.Bytes.{AppendsFront, Puts, TakesWithin, joined};

use hol_model::{Fault, Sink, Source, TEXT_BYTES_LIMIT};
use std::alloc::Global;

/// All that is left of a source, within the limit on texts.
///
/// Refusals: ReadFault, where the source fails, and only there; TooLong, where it gives more than the limit; Memory, for
/// the bytes that it gave within the limit.
pub fn read_all<R: Source>(alloc: Global, reader: &mut R) -> Result<Vec<u8>, Fault>
    requires { R.has_failed reader.old ≡ false }
    ensures all { IfOk result (λ bytes. Tells (R.remaining reader.old) bytes.items) }
    ensures within_limit { IfOk result (λ bytes. length bytes.items ≤ TEXT_BYTES_LIMIT) }
    ensures too_long { IsErrOf result TooLong → IfSome (R.remaining reader.old) (λ told. TEXT_BYTES_LIMIT < length told) }
    ensures failed { IsErrOf result ReadFault → R.has_failed reader.new ≡ true }
    ensures told { R.has_failed reader.new ≡ true → IsErrOf result ReadFault }
    ensures memory { IsErrOf result Memory → TakesWithin (R.remaining reader.old) (R.remaining reader.new) TEXT_BYTES_LIMIT }
    ensures unfailed { OnOk result (R.has_failed reader.new ≡ false) }
    ensures refusals { IfErr result (Contains (ReadFault ∷ TooLong ∷ Memory ∷ [])) }
{
    let mut bytes = Vec::new(alloc);
    let mut buffer = [0u8; 4096];
    loop {
        let Ok(count) = reader.pull(&mut buffer) else {
            return Err(Fault::ReadFault);
        };
        if count == 0 {
            return Ok(bytes);
        }
        if count > TEXT_BYTES_LIMIT - bytes.len() {
            return Err(Fault::TooLong);
        }
        bytes.extend_from_slice(&buffer[..count])?;
    }
}

/// Gives a sink the whole piece, unless it fails.
pub fn write_all<W: Sink>(writer: &mut W, piece: &[u8]) -> Result<(), Fault>
    requires { W.has_failed writer.old ≡ false }
    ensures ok { OnOk result (Appends (W.contents writer.old) (W.contents writer.new) piece.now) }
    ensures unfailed { OnOk result (W.has_failed writer.new ≡ false) }
    ensures err { OnErr result (AppendsFront (W.contents writer.old) (W.contents writer.new) piece.now) }
    ensures failed { OnErr result (W.has_failed writer.new ≡ true) }
    ensures kinds { IfErr result (λ e. e ≡ WriteFault) }
{
    let mut rest = piece;
    while !rest.is_empty() {
        let Ok(n) = writer.emit(rest) else {
            return Err(Fault::WriteFault);
        };
        let (_, after) = rest.split_at(n);
        rest = after;
    }
    Ok(())
}

// Puts a piece behind the bytes that are held, of which there are so many, and answers how many there are then.
fn hold(buffer: &mut [u8], held: usize, piece: &[u8]) -> usize
    requires { held + length piece.now ≤ length buffer.old }
    ensures held { take result buffer.new ≡ take held buffer.old ++ piece.now }
    ensures within { result ≡ held + length piece.now }
    ensures length { length buffer.new ≡ length buffer.old }
{
    let end = held + piece.len();
    buffer[held..end].copy_from_slice(piece);
    end
}

// Puts a piece behind the bytes that are held, where it finds room; where it does not, gives a sink what is held, and then the piece
// too, or holds it. Answers how many bytes are held then.
fn put<W: Sink>(
    writer: &mut W,
    buffer: &mut [u8],
    held: usize,
    piece: &[u8],
) -> Result<usize, Fault>
    requires unfailed { W.has_failed writer.old ≡ false }
    requires within { held ≤ length buffer.old }
    ensures ok { IfOk result (λ count. Puts (W.contents writer.old) (W.contents writer.new) (take held buffer.old) (take count buffer.new) piece.now) }
    ensures within { IfOk result (λ count. count ≤ length buffer.new) }
    ensures length { length buffer.new ≡ length buffer.old }
    ensures unfailed { OnOk result (W.has_failed writer.new ≡ false) }
    ensures err { OnErr result (AppendsFront (W.contents writer.old) (W.contents writer.new) (take held buffer.old ++ piece.now)) }
    ensures failed { OnErr result (W.has_failed writer.new ≡ true) }
    ensures kinds { IfErr result (λ e. e ≡ WriteFault) }
{
    if piece.len() <= buffer.len() - held {
        return Ok(hold(buffer, held, piece));
    }
    write_all(writer, &buffer[..held])?;
    if piece.len() <= buffer.len() {
        return Ok(hold(buffer, 0, piece));
    }
    write_all(writer, piece)?;
    Ok(0)
}

/// Gives a sink the pieces, one after another, unless it fails: those that find room in a small buffer with one write.
pub fn write_pieces<W: Sink>(writer: &mut W, pieces: &[&[u8]]) -> Result<(), Fault>
    requires { W.has_failed writer.old ≡ false }
    ensures ok { OnOk result (Appends (W.contents writer.old) (W.contents writer.new) (joined pieces.now)) }
    ensures unfailed { OnOk result (W.has_failed writer.new ≡ false) }
    ensures err { OnErr result (AppendsFront (W.contents writer.old) (W.contents writer.new) (joined pieces.now)) }
    ensures failed { OnErr result (W.has_failed writer.new ≡ true) }
    ensures kinds { IfErr result (λ e. e ≡ WriteFault) }
{
    let mut buffer = [0u8; 512];
    let mut held = 0usize;
    for piece in pieces {
        held = put(writer, &mut buffer, held, piece)?;
    }
    write_all(writer, &buffer[..held])
}
