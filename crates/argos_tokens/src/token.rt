/// A token of a text: its bytes, and the place of the first of them, counted from 0.
#[derive(Clone, Copy, Debug)]
pub struct Token<'a> {
    pub text: &'a [u8],
    pub at: u32,
}

/// The tokens of a text, in order: all of them, or those before a place where a byte stands that begins none.
#[derive(Debug, Drop)]
pub struct Tokens<'a> {
    pub tokens: Vec<Token<'a>>,
    pub stuck: Option<u32>,
}
