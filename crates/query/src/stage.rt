// Where a query text stands behind a token.

// The atom that is begun: the head, or the draft's literal.
#[derive(Clone, Copy)]
pub(crate) enum Begun {
    Head,
    Literal,
}

// What is due.
#[derive(Clone, Copy)]
pub(crate) enum Stage {
    // The name of the head.
    Start,
    // The name of a literal.
    Wanted,
    // The parenthesis behind a name.
    Named(Begun),
    // An item.
    Due(Begun),
    // A comma or the other parenthesis behind an item.
    Listed(Begun),
    // `:-` behind the head.
    Headed,
    // A comma or the dot behind a literal.
    Closed,
    // Nothing: the query is whole.
    Stopped,
}
