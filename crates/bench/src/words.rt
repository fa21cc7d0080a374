//! The words after a measurement's name.
/// At most three words.
#[derive(Drop)]
pub(crate) struct Words {
    pub(crate) first: Option<String>,
    pub(crate) second: Option<String>,
    pub(crate) third: Option<String>,
}

impl Words {
    /// No words.
    pub(crate) fn none() -> Words {
        Words {
            first: None,
            second: None,
            third: None,
        }
    }
}
