// The values of a platform file, one at a time: each reader takes one value of a TOML document by its key, as a
// number, a word, a text, an operand, a table or a list, or gives the fault with the path of the key.
#![tactic(auto)]

mod common_keys;
mod document;
mod fault;
mod operand;
mod path;
mod register;
mod word;

pub use common_keys::{cpu_at, into_at, kind_at, register_at, width_at};
pub use document::{
    GREATEST, entries_at, entry_of, flag_of, list_at, list_of, member, number_at, number_value,
    number_within, refuse_others, table_of, text_at, word_at, word_of, words_of,
};
pub use fault::WalkFault;
pub use operand::{Variable, operand_at};
pub use path::{Key, Path, TablePlace, name_under, path_text, path_to, place_text};
pub use word::{OperationWord, PolicyWord, Word};
