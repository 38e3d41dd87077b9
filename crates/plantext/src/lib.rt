// A record as text for a person, its plan as Graphviz source, and its stock as text.
#![tactic(auto)]

mod dot;
mod list;
mod stock;
mod text;

pub use dot::Dot;
pub use stock::Stock;
pub use text::Text;
