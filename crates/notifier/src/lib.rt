//! What a device keeps of notifications: the attributes that servers write, the observations, and
//! when an observation sends, or sends again.
#![tactic(auto)]

mod attribute;
mod attributes;
mod entries;
mod fault;
mod laws;
mod number_end;
mod numerals;
mod observation;
mod observations;
mod pending;
mod query;
mod trigger;
mod turn;

pub use attribute::{AttributeKey, Change, Level, Name};
pub use attributes::Attributes;
pub use fault::{ObserveFault, QueryFault, WriteFault};
pub use laws::{closed_is_evaluated, resends_at_doubled_timeouts};
pub use observation::{Observation, Report, Timer};
pub use observations::Observations;
pub use pending::{Outlook, Pending};
pub use query::{Changes, parse_query, query_fault_at};
pub use trigger::{Trigger, is_due, trigger_in, triggers};
pub use turn::Turn;
