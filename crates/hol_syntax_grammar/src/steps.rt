// The steps towards terms.
use crate::grammar::{Binder, Infix};
use crate::type_reader::TypeStep;

/// A step towards a term, a node after its parts; types stand as their own steps.
#[derive(Drop)]
pub enum TermStep<'a> {
    Bare(&'a [u8]),
    Variable(&'a [u8], Vec<TypeStep<'a>>),
    Constant(&'a [u8], Vec<TypeStep<'a>>),
    Apply,
    Not,
    Join(Infix),
    Enter(&'a [u8], Vec<TypeStep<'a>>),
    Leave(Binder),
}
