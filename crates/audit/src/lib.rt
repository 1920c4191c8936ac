//! The audit of a file's rows: whether each tenant's are those of a valid machine, and if not, what
//! is wrong where.
#![tactic(auto)]

mod cells;
mod checking;
mod damage;
mod derived;
mod entries;
mod failed;
mod history;
mod in_time;
mod law;
mod meeting;
mod newer;
mod replayed;
mod shape;
mod sound_law;
mod tenant;
mod times;
mod told;

pub use checking::check;
pub use damage::{AuditFault, Damage, DamageKind};
pub use law::sound_rows_pass;
pub use newer::rows_in_version;
