// Texts that are put together.
use hol_model::Fault;

/// Appends a text, with these bytes at each mark `#` in it. Refused: Memory.
pub fn push_filled(text: &mut Vec<u8>, marked: &str, piece: &[u8]) -> Result<(), Fault> {
    let mut rest = marked;
    for _ in 0..marked.len() {
        let Some((front, behind)) = rest.split_once('#') else {
            break;
        };
        text.extend_from_slice(front.as_bytes())?;
        text.extend_from_slice(piece)?;
        rest = behind;
    }
    text.extend_from_slice(rest.as_bytes())?;
    Ok(())
}
