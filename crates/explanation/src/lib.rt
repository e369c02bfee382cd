//! How an access control decision (X.501 18.8) came about: the question that four words ask, what each filter leaves, and
//! the text of both. The words are read one by one as well.
#![tactic(auto)]

mod asked;
mod candidates;
mod cutting;
mod explaining;
mod facts;
mod filters;
mod item;
mod lines;
mod names;
mod permission;
mod reading;
mod steps;
mod texts;

pub use asked::{AskedDecision, AskedItem, NoMemory};
pub use cutting::after;
pub use explaining::explain;
pub use item::read_item;
pub use lines::effect;
pub use names::{read_name, read_target, read_who};
pub use permission::{asked_permissions, permission_name, permission_named};
pub use reading::read_question;
pub use steps::{Counts, KeptTuple, Steps};
pub use texts::explain_text;
