//! JSON: reads texts and the fields of objects, and writes compact texts.
#![tactic(auto)]

mod fields;
mod reading;
mod refusal;
mod taking;
mod writer;

pub use fields::{
    count_at, flag_at, list_in, moment_at, object_in, optional_text_at, text_at, text_or_empty_at,
    texts_at, texts_in,
};
pub use reading::read_json;
pub use refusal::JsonRefusal;
pub use taking::{take_list, take_member, take_object, take_pairs};
pub use writer::JsonWriter;
