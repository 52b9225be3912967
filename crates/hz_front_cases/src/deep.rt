use std::alloc::{AllocError, Global};

/// How a long source is built.
#[derive(Clone, Copy, Debug)]
pub enum Shape {
    Parentheses,
    Arrays,
    Blocks,
    Templates,

    /// Parentheses before `=>`.
    Parameters,
    Blanks,
}

impl Shape {
    pub fn named(name: &str) -> Option<Shape> {
        match name {
            "parentheses" => Some(Shape::Parentheses),
            "arrays" => Some(Shape::Arrays),
            "blocks" => Some(Shape::Blocks),
            "templates" => Some(Shape::Templates),
            "parameters" => Some(Shape::Parameters),
            "blanks" => Some(Shape::Blanks),
            _ => None,
        }
    }

    /// What opens each construct, what stands within the last one, what closes each, and what follows.
    fn parts(self) -> (&'static str, &'static str, &'static str, &'static str) {
        match self {
            Shape::Parentheses => ("(", "a", ")", ""),
            Shape::Arrays => ("[", "", "]", ""),
            Shape::Blocks => ("{", "", "}", ""),
            Shape::Templates => ("`${", "a", "}`", ""),
            Shape::Parameters => ("(", "", ")", "=> a"),
            Shape::Blanks => (" ", "", "", ""),
        }
    }
}

/// So many constructs, each within the one before.
pub fn long_source(alloc: Global, shape: Shape, times: u32) -> Result<Vec<u8>, AllocError> {
    let (open, inner, close, behind) = shape.parts();
    let mut source = Vec::new(alloc);
    for _ in 0..times {
        source.extend_from_slice(open.as_bytes())?;
    }
    source.extend_from_slice(inner.as_bytes())?;
    for _ in 0..times {
        source.extend_from_slice(close.as_bytes())?;
    }
    source.extend_from_slice(behind.as_bytes())?;
    Ok(source)
}
