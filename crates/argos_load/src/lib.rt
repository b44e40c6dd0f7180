//! Files of a call: loaded, and read as programs that are judged and put in order, as equations, or as C, and certificates over two programs; else what ends the call, with its
//! report.
#![tactic(auto)]

mod aspects;
mod causes;
mod equiv;
mod files;
mod stop;

pub use aspects::load_woven;
pub use equiv::{Compared, load_equiv};
pub use files::{Loaded, load_judged, load_simulation};
pub use stop::Stop;
