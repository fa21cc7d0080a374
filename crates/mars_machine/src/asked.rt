//! What an ask tells at its end.
use crate::ending::Ending;
use crate::stepped::Stepped;
use sqlite_items::Items;

/// Sayings and answers, in order.
pub type Sayings = Items<Stepped>;

/// What an ask said, how it ended, and after how many steps.
#[derive(Drop)]
pub struct Asked {
    pub said: Sayings,
    pub ending: Ending,
    pub steps: u64,
}
