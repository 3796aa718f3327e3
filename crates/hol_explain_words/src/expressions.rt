// Refiner expressions: their parts, and what stands behind their joints.
use crate::messages::Message;
use crate::piece::{Piece, between};
use crate::span::{Span, next_outside};
use std::alloc::Global;

const JOINTS: (&str, &str) = ("THEN", "THENL");

const MEMBER_ENDS: (&str, &str) = (";", "]");

const CLOSING: (&str, &str) = (")", ")");

/// The command `e` of a part. A message is told where there was no memory for it.
pub fn command_of(alloc: Global, piece: &Piece<'_>, span: Span, message: &mut Message) -> Vec<u8> {
    let part = between(piece.bytes, piece.start(span.from), piece.start(span.to));
    let mut text = Vec::new(alloc);
    let _begun = message.made(text.extend_from_slice(b"e "));
    let _ended = message.made(text.extend_from_slice(part));
    text
}

/// A part without the parentheses around it.
pub fn unwrapped(piece: &Piece<'_>, span: Span) -> Span {
    let mut inner = span;
    for _ in 0..piece.words.len() {
        let behind = Span {
            from: inner.from.saturating_add(1),
            to: inner.to,
        };
        let closing = next_outside(piece, behind, CLOSING);
        if piece.text(inner.from) != "(" || closing != inner.to.saturating_sub(1) {
            break;
        }
        inner = Span {
            from: behind.from,
            to: closing,
        };
    }
    inner
}

/// The place in the list of the first joint of a part from a place on, or the end of the part.
pub fn next_joint(piece: &Piece<'_>, from: usize, to: usize) -> usize {
    next_outside(piece, Span { from, to }, JOINTS)
}

// The member of a list that begins at a place.
fn member_at(piece: &Piece<'_>, from: usize, to: usize) -> Span {
    Span {
        from,
        to: next_outside(piece, Span { from, to }, MEMBER_ENDS),
    }
}

/// Whether behind a joint stands a list, and not one member for each of so many subgoals.
pub fn has_misfit(piece: &Piece<'_>, behind: Span, subgoals: usize) -> bool {
    let first = behind.from.saturating_add(2);
    if piece.text(behind.from) != "THENL" {
        return false;
    }
    if piece.text(first) == "]" {
        return subgoals != 0;
    }
    let mut members = 1usize;
    let mut member = member_at(piece, first, behind.to);
    for _ in 0..piece.words.len() {
        if piece.text(member.to) != ";" {
            break;
        }
        members = members.saturating_add(1);
        member = member_at(piece, member.to.saturating_add(1), behind.to);
    }
    members != subgoals
}

/// The refiner for the first subgoal behind a joint, or for the next one behind that of the subgoal before it: the next member of a
/// list, or the same for each.
pub fn next_member(piece: &Piece<'_>, behind: Span, before: Option<Span>) -> Span {
    let is_list = piece.text(behind.from) == "THENL";
    match before {
        Some(member) if is_list => member_at(piece, member.to.saturating_add(1), behind.to),
        Some(member) => member,
        None if is_list => member_at(piece, behind.from.saturating_add(2), behind.to),
        None => Span {
            from: behind.from.saturating_add(1),
            to: behind.to,
        },
    }
}
