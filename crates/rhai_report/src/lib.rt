//! Reports for people: why a script is refused, the line where, and what may help.
#![tactic(auto)]

pub mod brackets;
pub mod declared;
pub mod line;
pub mod mark;
pub mod message;
pub mod notes;
pub mod print;
pub mod report;
pub mod similar;
pub mod snippet;
pub mod style;
pub mod text;
pub mod visible;

pub use mark::{Mark, in_file};
pub use print::print_report;
pub use report::{Note, Outside, Report, Source, index_at, report_of};
pub use style::Style;
pub use visible::push_visible;
