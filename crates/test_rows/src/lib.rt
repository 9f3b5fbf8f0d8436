//! Rows of data that call the library: each line of standard input is a JSON object with `call`, a name, `given`, its
//! arguments, and `answer`, the text that the call has to give. A program says by [`Answers`] what its calls answer, and
//! [`run_rows`] prints each row that differs, and how many there are. The functions of `given` read arguments.
#![tactic(auto)]

mod failed;
mod given;
mod row;
mod run;
mod told;

pub use failed::Failed;
pub use given::{
    bytes_of, count_of, flag_of, item_bytes, item_text, items_of, long_text_of, number_of, text_of,
};
pub use row::Row;
pub use run::{Answers, run_rows};
pub use told::told_bytes;
