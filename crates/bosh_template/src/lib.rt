//! Templates: literal text with lookups, and the text that they come to for an instance.
#![tactic(auto)]

mod cut;
mod environment;
mod fault;
mod laws;
mod output;
mod parsing;
mod piece;
mod property_value;
mod reading;
mod rendering;
mod template;
mod value;

pub use environment::{Env, JobEnv, LinkEnv};
pub use fault::TemplateFault;
pub use laws::spelled_once;
pub use parsing::parse_template;
pub use property_value::property;
pub use rendering::render;
pub use template::{Part, SpecWord, Template};
