// Calls of the test program of the texts: export and import beside what is wanted of them, in outputs that are filled
// before. A difference is printed.
#![tactic(auto)]

mod counted;
mod exporting;
mod importing;
mod report;
mod wanted;

pub use counted::{EXPORTS, IMPORTS};
pub use exporting::{exports, exports_all};
pub use importing::{imported_length, imports, imports_all};
pub use report::is_same;
pub use wanted::{NO_TEXTS, Texts};
