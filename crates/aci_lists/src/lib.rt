//! What a directory keeps of its entries for the access control decision (X.501 18.8): tuples in the order of precedence and
//! the subentries in force; and the decision by it, which weighs tuples up to the first of a lower precedence (18.8.4).
#![tactic(auto)]

mod changing;
mod decision;
mod groups;
mod kept;
pub mod laws;
mod making;
mod newcomers;
mod ordering;
mod tuples;
mod weighing;

pub use changing::{empty_lists, forget, take_back};
pub use decision::decide_by;
pub use groups::{memberships_in, put_groups_of};
pub use kept::{Holdings, Kept, in_force_at, no_lists};
pub use making::{hold, lists_for, make_at};
pub use newcomers::{decide_new_by, in_force_new_by};
pub use ordering::order_tuples;
pub use tuples::OrderedTuples;
pub use weighing::weigh_in_order;
