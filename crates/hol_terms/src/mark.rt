// Marks: numbers that are made of terms, by which tables find them fast. Nothing is said of them: two terms may have one mark.

use hol_types::{Ty, TypeParts};

/// The mark of a variable.
pub(crate) fn of_variable(name: &str, ty: &Ty) -> u32 {
    joined(1, joined(of_name(name), of_type(ty)))
}

/// The mark of a constant.
pub(crate) fn of_constant(name: &str, ty: &Ty) -> u32 {
    joined(2, joined(of_name(name), of_type(ty)))
}

/// The mark of a combination whose parts have these marks.
pub(crate) fn of_combination(function: u32, argument: u32) -> u32 {
    joined(function, argument)
}

/// The mark of an abstraction whose variable and body have these marks.
pub(crate) fn of_abstraction(binder: u32, body: u32) -> u32 {
    joined(3, joined(binder, body))
}

// Of the type's count, and of the name that it is or its domain is.
fn of_type(ty: &Ty) -> u32 {
    match ty.parts() {
        TypeParts::Variable(name) => joined(3, of_name(name)),
        TypeParts::Bool => 4,
        TypeParts::Function(domain, _) => joined(ty.nodes(), of_type(domain)),
        TypeParts::Declared(name) => joined(5, of_name(name)),
    }
}

fn of_name(name: &str) -> u32 {
    name.as_bytes().iter().fold(2_166_136_261u32, |sum, byte| {
        sum.wrapping_mul(16_777_619).wrapping_add(u32::from(*byte))
    })
}

fn joined(first: u32, second: u32) -> u32 {
    let spread = (first ^ (first >> 15)).wrapping_mul(2_246_822_519);
    (spread ^ second).wrapping_mul(2_654_435_761)
}
