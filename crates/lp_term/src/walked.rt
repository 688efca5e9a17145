/// A term or a type, by its number.
#[derive(Clone, Copy)]
pub(crate) enum Node {
    Term(usize),
    Type(usize),
}

/// A node is looked at, and built when its parts are made.
#[derive(Clone, Copy)]
pub(crate) enum Task {
    Visit(Node),
    Build(Node),
}
