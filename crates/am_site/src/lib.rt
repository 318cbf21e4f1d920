//! What one instance of several has of all tenants, and what each thing that happens does there: it asks the three
//! replicas of a tenant, decides by two of their answers, and has two acknowledge what it decided.
#![tactic(auto)]

mod accepting;
mod again;
mod answering;
mod arriving;
mod asking;
mod deciding;
mod delivery;
mod dropping;
mod due;
mod expiring;
mod forcing;
mod handling;
mod here;
mod learning;
mod limiting;
mod messages;
mod opening;
mod operating;
mod pieces;
mod position;
mod restarting;
mod said;
mod sending;
mod site;
mod taking;
mod three;
mod ticking;

pub use accepting::PutItems;
pub use dropping::drop_rows_of;
pub use here::Here;
pub use said::Said;
pub use site::Site;
pub use taking::StatePiece;
pub use three::is_among;
