// Sample courses, figures of one of them, and costs and edits as text.
#![tactic(auto)]

mod courses;
mod edits;
mod examples;
mod figures;
mod spans;

pub use courses::{full_course, hill_h, hill_v};
pub use edits::{Edit, edit_text};
pub use examples::figures_of_h;
pub use figures::Figures;
pub use spans::spans_text;
